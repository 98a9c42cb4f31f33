// Sheets, their check, and checked scripts.
#![tactic(auto)]

pub mod action;
pub mod actions;
pub mod bank;
pub mod branches;
pub mod check;
pub mod lines;
pub mod passes;
pub mod products;
pub mod read;
pub mod readers;
pub mod sheet;
pub mod states;
