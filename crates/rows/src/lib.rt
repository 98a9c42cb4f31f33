// Rows on the bench: the operations on lent rows of which the tree of a protocol's states is made.
#![tactic(auto)]

pub mod batch;
pub mod guard;
pub mod join;
pub mod marks;
pub mod mix;
pub mod node;
pub mod outcome;
pub mod row;
pub mod start;
pub mod state;
pub mod turn;
