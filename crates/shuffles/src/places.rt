// A shuffle of some places of a row.
ghost use Rattle.std.specs.Prelude.{◌≡◌};
ghost use Rattle.cards.specs.Shuffles.{places, places_fit};
ghost use Rattle.shuffles.specs.Lawful.{lawful_places};

use crate::bytes::Bytes;
use crate::lists::{all_distinct, find};
use crate::shuffle::Shuffle;
use cards::place::{Place, Slot};

// A row of `cards` slots, slot p − 1 for place p. The place at position r of the list goes to the place at the
// position where the shuffle below sends r; the other places stay. The layer fits where the row has 1 to 12 cards and
// the list has as many places as the shuffle below has slots, all different and all in the row; else it has the width
// and total of the shuffle below and moves nothing.
#[derive(Clone, Copy, Drop)]
pub struct Places<L, S> {
    pub cards: u8,
    pub places: L,
    pub below: S,
}

impl<L: Bytes, S: Shuffle> Places<L, S> {
    // Whether the list of places fits the shuffle below and the row.
    pub fn fits(&self) -> bool
        ensures { result ≡ places_fit self.now.cards (L.Bytes.listed self.now.places) (S.Shuffle.means self.now.below) }
    {
        let places = self.places.bytes();
        (1..=12).contains(&self.cards)
            && places.len() == usize::from(self.below.width())
            && all_distinct(1, self.cards, places)
    }
}

impl<L: Bytes, S: Shuffle> Shuffle for Places<L, S> {
    ghost means = { λ p. places p.cards (L.Bytes.listed p.places) (S.Shuffle.means p.below) };

    ghost lawful = { λ s. lawful_places s.cards (L.Bytes.listed s.places) (S.Shuffle.means s.below) (S.Shuffle.lawful s.below) };

    fn width(&self) -> u8 {
        if self.fits() {
            self.cards
        } else {
            self.below.width()
        }
    }

    fn total(&self) -> u16 {
        self.below.total()
    }

    fn image(&self, draw: u16, slot: Slot) -> Slot {
        if !self.fits() {
            return slot;
        }
        let places = self.places.bytes();
        let Some(r) = find(slot.place().number(), places) else {
            return slot;
        };
        let to = self.below.image(draw, Slot::at(r as u8)).number();
        Place::at(places[usize::from(to)]).slot()
    }
}
