// Piles of cards in the slots of a shuffle.
ghost use Rattle.std.specs.Prelude.{◌≡◌};
ghost use Rattle.cards.specs.Shuffles.{piles, piles_fit};
ghost use Rattle.shuffles.specs.Lawful.{lawful_piles};

use crate::shuffle::Shuffle;
use cards::place::Slot;

// Each slot of the shuffle below holds a pile of `size` cards, which move together. The layer fits where `size` is 1 or
// more and all the piles have at most 12 cards; else it has the width and total of the shuffle below and moves nothing.
#[derive(Clone, Copy, Drop)]
pub struct Piles<S> {
    pub size: u8,
    pub below: S,
}

impl<S: Shuffle> Piles<S> {
    // Whether the piles are of 1 card or more and fit in a row of twelve.
    pub fn fits(&self) -> bool
        ensures { result ≡ piles_fit self.now.size (S.Shuffle.means self.now.below) }
    {
        self.size >= 1 && u16::from(self.below.width()) * u16::from(self.size) <= 12
    }
}

impl<S: Shuffle> Shuffle for Piles<S> {
    ghost means = { λ p. piles p.size (S.Shuffle.means p.below) };

    ghost lawful = { λ s. lawful_piles s.size (S.Shuffle.means s.below) (S.Shuffle.lawful s.below) };

    fn width(&self) -> u8 {
        if self.fits() {
            self.below.width() * self.size
        } else {
            self.below.width()
        }
    }

    fn total(&self) -> u16 {
        self.below.total()
    }

    fn image(&self, draw: u16, slot: Slot) -> Slot {
        let s = slot.number();
        if !self.fits() || s >= self.width() {
            return slot;
        }
        let pile = self.below.image(draw, Slot::at(s / self.size)).number();
        Slot::at(pile * self.size + s % self.size)
    }
}
