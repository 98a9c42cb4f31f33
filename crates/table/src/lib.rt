// The table: a certified script played out one call at a time.
#![tactic(auto)]

pub mod commitment;
pub mod fault;
mod laying;
mod moves;
pub mod phase;
mod said;
pub mod table;
