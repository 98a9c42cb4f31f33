// What the layers share of a script: its model, in this crate's definitions, and what a refusal names.
#![tactic(auto)]

pub mod fault;
pub mod inputs;
