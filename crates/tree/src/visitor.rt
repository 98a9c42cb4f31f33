// Whoever wants the nodes of a tree, as the walk hands them on.
ghost use Rattle.protocol.specs.Machine.{Protocol};
ghost use Rattle.protocol.specs.Tree.{Node};
ghost use Rattle.rows.specs.Views.{rows_view};
ghost use Rattle.tree.specs.Walks.{Handed, Visited};

use cards::deck::Deck;
use rows::row::Row;
use sheet::states::CheckedScript;

// A node: its number and line, the rows of its state with their totals, and the marks that the turns on the way to it
// have shown, one after the other.
#[derive(Clone, Copy)]
pub struct Visit<'a> {
    pub number: u16,
    pub line: u8,
    pub rows: &'a [Row],
    pub sums: &'a [u64; 8],
    pub trace: &'a [u8],
}

pub trait Visitor {
    // what a node of a protocol makes of the visitor: before, and after
    ghost visits: { Protocol → Node → Self → Self → Type 0 };

    fn visit<D: Deck>(&mut self, script: &CheckedScript, deck: &D, node: Visit<'_>)
        requires { Handed script.now node.number node.line (rows_view node.rows.now) node.sums.now }
        ensures { Visited visits script.now (D.Deck.means deck.now) node.entry.number node.entry.line (rows_view node.entry.rows.now) node.entry.trace.now self.old self.new };
}
