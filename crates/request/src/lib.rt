// The text that the program `deal` reads.
#![tactic(auto)]

pub mod text;
