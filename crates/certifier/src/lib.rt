// Certify, and the certified script that a checked one is made into.
#![tactic(auto)]

pub mod certified;
pub mod certifying;
pub mod making;
