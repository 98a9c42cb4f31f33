// Why a tree is not built.
ghost use Rattle.tree.specs.Faults.{shown};

use script::fault::{Layer, Refusal};

#[derive(Clone, Copy, PartialEq, Eq, Debug)]
pub enum TreeFault {
    // 20: a row of the turn's node shows marks for which there is no branch.
    NoBranch { line: u8, node: u16 },
    // 21: the path need of the new node is above the bench.
    Bench { line: u8, node: u16 },
    // 22: a node number 512 would be made.
    Nodes { line: u8 },
}

impl Refusal for TreeFault {
    ghost names = { shown };

    fn number(&self) -> u8 {
        match self {
            TreeFault::NoBranch { .. } => 20,
            TreeFault::Bench { .. } => 21,
            TreeFault::Nodes { .. } => 22,
        }
    }

    fn layer(&self) -> Layer {
        Layer::Tree
    }

    fn line(&self) -> u8 {
        match self {
            TreeFault::NoBranch { line, .. }
            | TreeFault::Bench { line, .. }
            | TreeFault::Nodes { line } => *line,
        }
    }

    fn place(&self) -> u16 {
        match self {
            TreeFault::NoBranch { node, .. } | TreeFault::Bench { node, .. } => *node,
            TreeFault::Nodes { .. } => 512,
        }
    }
}
