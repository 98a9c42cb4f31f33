// The cut of q slots: under draw d, slot j goes to (j + d) mod q.
ghost use Rattle.std.specs.Prelude.{◌≡◌};
ghost use Rattle.cards.specs.Shuffles.{cut, cut_fits};
ghost use Rattle.shuffles.specs.Lawful.{lawful_cut};

use crate::shuffle::Shuffle;
use cards::place::Slot;

// A cut of 1 to 12 slots. With any other number it has one slot and one draw, and moves nothing.
#[derive(Clone, Copy)]
pub struct Cut {
    pub slots: u8,
}

impl Cut {
    // Whether it has 1 to 12 slots.
    pub fn fits(&self) -> bool
        ensures { result ≡ cut_fits self.now.slots }
    {
        (1..=12).contains(&self.slots)
    }
}

impl Shuffle for Cut {
    ghost means = { λ c. cut c.slots };

    ghost lawful = { λ c. lawful_cut c.slots };

    fn width(&self) -> u8 {
        if self.fits() { self.slots } else { 1 }
    }

    fn total(&self) -> u16 {
        if self.fits() {
            u16::from(self.slots)
        } else {
            1
        }
    }

    fn image(&self, draw: u16, slot: Slot) -> Slot {
        let q = u16::from(self.slots);
        let j = u16::from(slot.number());
        if !self.fits() || draw >= q || j >= q {
            return slot;
        }
        Slot::at(((j + draw) % q) as u8)
    }
}
