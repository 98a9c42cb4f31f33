// A list of calls on a table that is opened on a certified script.
#![tactic(auto)]

pub mod call;
mod calls;
pub mod fault;
pub mod play;
pub mod played;
mod said;
