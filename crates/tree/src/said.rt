// What a refusal means, and what to do next, in words.
use crate::fault::TreeFault;
use std::fmt;

impl fmt::Display for TreeFault {
    fn fmt<W: fmt::Write>(&self, f: &mut fmt::Formatter<W>) -> fmt::Result {
        f.write_str(match self {
            TreeFault::NoBranch { .. } =>
                "at this turn, in the node with this number, the cards can show marks for which there is no branch. Next: add the branch",
            TreeFault::Bench { .. } =>
                "the rows of all states from the root to the node with this number do not fit on the bench. Next: give a longer bench, as by the line 'bench 4096'",
            TreeFault::Nodes { .. } =>
                "the tree would have more than 512 nodes. Next: write a sheet with fewer turns, or turns of fewer cards",
        })
    }
}
