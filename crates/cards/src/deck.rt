// The interface of a deck. It answers for any numbers, refuses nothing and never changes.
ghost use Rattle.std.specs.Prelude.{◌≡◌, ◌+◌, ◌-◌, ◌/◌, ◌%◌, ◌<◌, ◌≤◌, ◌==◌, if◌then◌else◌};
ghost use Rattle.cards.specs.Decks.{DeckMeaning, LawfulDeck, two_colour, standard, player_code, bit, ordered};
ghost use Rattle.std.proofs.Common.{rules};

use crate::reading::Reading;
use std::cmp::Ordering;

pub trait Deck {
    ghost means: { Self → DeckMeaning };

    // Whether the code may lie in a layout of so many players.
    fn may_lie(&self, players: u8, code: u8) -> bool
        ensures { result ≡ (means self.now).lies players code };

    // Whether the code may lie more than once in a layout of so many players.
    fn may_repeat(&self, players: u8, code: u8) -> bool
        ensures { result ≡ (means self.now).repeats players code };

    // The card, 0 to 15, that the code is under the input.
    fn card(&self, code: u8, input: u8) -> u8
        ensures { result ≡ (means self.now).card code input };

    // How the pair of cards reads.
    fn read(&self, left: u8, right: u8) -> Reading
        ensures { result ≡ (means self.now).reads left right };

    ghost lawful: { (d : Self) → LawfulDeck (means d) };
}

// Whether the code is that of a left or right card of one of so many players; there are at most three.
fn player_code(players: u8, code: u8) -> bool
    ensures { result ≡ player_code players code }
{
    (16..22).contains(&code) && u16::from(code) < 16 + 2 * u16::from(players)
}

// Bit i of the number.
pub fn bit_of(number: u8, i: u8) -> u8
    requires { i < 8 }
    ensures { result ≡ bit number i }
{
    (number >> i) % 2
}

// The card of a player's code under the input. The lower of the player's two cards is `low`, and the other the next; the
// left code has the lower one for bit 0.
fn player_card(low: u8, code: u8, input: u8) -> u8
    requires { (16 ≤ code) × ((code < 22) × (low ≤ 5)) }
    ensures { result ≡ (if code % 2 == 0 then low + bit input ((code - 16) / 2) else low + 1 - bit input ((code - 16) / 2)) }
{
    let bit = bit_of(input, (code - 16) / 2);
    if code % 2 == 0 {
        low + bit
    } else {
        low + 1 - bit
    }
}

// A pair reads 0 where its left card is below the right, and 1 where it is above.
fn compare(left: u8, right: u8) -> Reading
    ensures { result ≡ ordered left right }
{
    match left.cmp(&right) {
        Ordering::Less => Reading::Zero,
        Ordering::Greater => Reading::One,
        Ordering::Equal => Reading::Neither,
    }
}

// Code 0 is club, card 0, and code 1 is heart, card 1. Bit 0 is club, heart. Fixed codes may repeat.
#[derive(Clone, Copy)]
pub struct TwoColour;

impl Deck for TwoColour {
    ghost means = { λ _. two_colour };

    ghost lawful = { Prim.search rules };

    fn may_lie(&self, players: u8, code: u8) -> bool {
        code < 2 || player_code(players, code)
    }

    fn may_repeat(&self, _players: u8, code: u8) -> bool {
        code < 2
    }

    fn card(&self, code: u8, input: u8) -> u8 {
        if player_code(3, code) {
            player_card(0, code, input)
        } else {
            u8::from(code == 1)
        }
    }

    fn read(&self, left: u8, right: u8) -> Reading {
        compare(left, right)
    }
}

// Player i has the cards 2i + 1 and 2i + 2, ascending for bit 0. Codes 1 to 12 are the cards 1 to 12; with k players
// those from 2k + 1 are fixed, each at most once.
#[derive(Clone, Copy)]
pub struct Standard;

impl Deck for Standard {
    ghost means = { λ _. standard };

    ghost lawful = { Prim.search rules };

    fn may_lie(&self, players: u8, code: u8) -> bool {
        (2 * u16::from(players) < u16::from(code) && code <= 12) || player_code(players, code)
    }

    fn may_repeat(&self, _players: u8, _code: u8) -> bool {
        false
    }

    fn card(&self, code: u8, input: u8) -> u8 {
        if player_code(3, code) {
            player_card(2 * ((code - 16) / 2) + 1, code, input)
        } else if code <= 12 {
            code
        } else {
            0
        }
    }

    fn read(&self, left: u8, right: u8) -> Reading {
        compare(left, right)
    }
}
