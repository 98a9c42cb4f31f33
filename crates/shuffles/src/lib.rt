// Shuffles as an interface, the shuffles and layers of the house, and banks of shuffles.
#![tactic(auto)]

pub mod bank;
pub mod bytes;
pub mod cut;
pub mod explicit;
pub mod lists;
pub mod piles;
pub mod places;
pub mod samples;
pub mod shuffle;
