// A sheet in plain words: what its lines say, and what a refusal of check expected.
#![tactic(auto)]

pub mod expected;
pub mod lines;
pub mod print;
