// A row of a state.
ghost use Rattle.std.specs.Prelude.{◌≡◌, ◌≤◌};
ghost use Rattle.protocol.specs.Machine.{card_at};
ghost use Rattle.protocol.specs.States.{cards_of};
ghost use Rattle.rows.specs.Views.{row_view, zero_row};

use cards::place::Place;
use cards::row::{Row as Cards, digit};

// The sequence number of a row of cards, and a weight for each of the eight inputs: nine 64-bit numbers.
#[derive(Clone, Copy)]
pub struct Row {
    pub sequence: u64,
    pub weights: [u64; 8],
}

impl Row {
    // A row of zeros.
    pub fn zero() -> Row
        ensures { result ≡ zero_row }
    {
        Row {
            sequence: 0,
            weights: [0; 8],
        }
    }

    // The cards of the row, in a state of so many cards.
    pub fn cards(&self, number: u8) -> Cards
        requires { number ≤ 12 }
        ensures { result.cards ≡ cards_of number (row_view self.now) }
    {
        Cards::unpack(number, self.sequence)
    }
    // The card at a place, in a state of so many cards. It is read alone: no other card is unpacked.
    pub fn card(&self, number: u8, place: Place) -> u8
        requires { number ≤ 12 }
        ensures { result ≡ card_at (cards_of number (row_view self.now)) place.number }
    {
        digit(
            self.sequence,
            usize::from(number),
            usize::from(place.slot().number()),
        )
    }
}
