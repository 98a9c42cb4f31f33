// Cards, places, slots, rows and decks: what they are, once and proved. The definitions of shuffles stand in this
// crate's specs too.
#![tactic(auto)]

pub mod deck;
pub mod place;
pub mod reading;
pub mod row;
pub mod slot;
