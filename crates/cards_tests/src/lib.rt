// A shuffle and a deck of another making than the library's, and tests of every layer at its edges.
#![tactic(auto)]

ghost use Rattle.std.specs.Prelude.{◌≡◌};
ghost use Rattle.cards_tests.specs.Own.{turned, reversed};
ghost use Rattle.std.proofs.Common.{rules};

use cards::deck::Deck;
use cards::place::Slot;
use cards::reading::Reading;
use shuffles::shuffle::Shuffle;
use std::cmp::Ordering;

mod tests;

// Three slots that stay under draw 0 and are turned round under draw 1.
#[derive(Clone, Copy)]
pub struct TurnedRound;

impl Shuffle for TurnedRound {
    ghost means = { λ _. turned };

    ghost lawful = { Prim.search rules };

    fn width(&self) -> u8 {
        3
    }

    fn total(&self) -> u16 {
        2
    }

    fn image(&self, draw: u16, slot: Slot) -> Slot {
        if draw == 1 && slot.number() < 3 {
            Slot::at(2 - slot.number())
        } else {
            slot
        }
    }
}

// A deck in which the higher card first reads 0.
#[derive(Clone, Copy)]
pub struct Reversed;

fn player_card(code: u8, input: u8) -> u8
    ensures { result ≡ reversed.card code input }
{
    if !(16..22).contains(&code) {
        return 0;
    }
    let bit = (input >> ((code - 16) / 2)) % 2;
    if code % 2 == 0 { 1 - bit } else { bit }
}

impl Deck for Reversed {
    ghost means = { λ _. reversed };

    ghost lawful = { Prim.search rules };

    fn may_lie(&self, players: u8, code: u8) -> bool {
        (16..22).contains(&code) && u16::from(code) < 16 + 2 * u16::from(players)
    }

    fn may_repeat(&self, _players: u8, _code: u8) -> bool {
        false
    }

    fn card(&self, code: u8, input: u8) -> u8 {
        player_card(code, input)
    }

    fn read(&self, left: u8, right: u8) -> Reading {
        match right.cmp(&left) {
            Ordering::Less => Reading::Zero,
            Ordering::Greater => Reading::One,
            Ordering::Equal => Reading::Neither,
        }
    }
}
