// Two worked images, from the definitions and from the code.
ghost use Rattle.std.specs.Prelude.{◌≡◌};
ghost use Rattle.cards.specs.Shuffles.{WorkedImages};

use crate::cut::Cut;
use crate::piles::Piles;
use crate::shuffle::Shuffle;
use cards::place::Slot;

// Slot 3 of a cut of five under draw 4, and slot 1 of a cut of two under piles of 2 under draw 1.
pub fn worked_images() -> (u8, u8)
    ensures first { result.0 ≡ 2 }
    ensures second { result.1 ≡ 3 }
    ensures meaning { WorkedImages }
{
    let five = Cut { slots: 5 };
    let piles = Piles {
        size: 2,
        below: Cut { slots: 2 },
    };
    (
        five.image(4, Slot::at(3)).number(),
        piles.image(1, Slot::at(1)).number(),
    )
}
