// What a line does with the cards of one row: where a permute sends them, how the marks that they show are written to a
// record, and the branch with these marks.
#![tactic(auto)]

pub mod branch;
pub mod images;
pub mod marks;
