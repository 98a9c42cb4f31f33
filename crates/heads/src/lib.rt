// What the head of a sheet names, the kinds of its frames, and what check refuses a sheet for.
#![tactic(auto)]

pub mod fault;
pub mod head;
pub mod kind;
