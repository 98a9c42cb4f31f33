// A table lent another deck or bank than its script was certified with.
#![tactic(auto)]

ghost use Rattle.table_tests.specs.Own.{raised};
ghost use Rattle.std.proofs.Common.{rules};

use cards::deck::{Deck, TwoColour};
use cards::reading::Reading;

mod tests;

// The two-colour deck with the cards 2 and 3 in the place of 0 and 1: no other cards read as a bit.
#[derive(Clone, Copy)]
pub struct Raised;

impl Deck for Raised {
    ghost means = { λ _. raised };

    ghost lawful = { Prim.search rules };

    fn may_lie(&self, players: u8, code: u8) -> bool {
        (16..22).contains(&code) && TwoColour.may_lie(players, code)
    }

    fn may_repeat(&self, _players: u8, _code: u8) -> bool {
        false
    }

    fn card(&self, code: u8, input: u8) -> u8 {
        if (16..22).contains(&code) {
            2 + TwoColour.card(code, input)
        } else {
            2
        }
    }

    fn read(&self, left: u8, right: u8) -> Reading {
        match (left, right) {
            (2, 3) => Reading::Zero,
            (3, 2) => Reading::One,
            _ => Reading::Neither,
        }
    }
}
