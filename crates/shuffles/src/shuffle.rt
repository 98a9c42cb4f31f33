// The interface of a shuffle. Its meaning is a list of permutations of its slots, one for each draw; a question
// changes nothing and always has the same answer.
ghost use Rattle.std.specs.Prelude.{◌≡◌, ℕ, ◌<◌, length};
ghost use Rattle.cards.specs.Lists.{table};
ghost use Rattle.cards.specs.Shuffles.{ShuffleMeaning, LawfulShuffle, image};

use cards::place::Slot;
use std::array;

pub trait Shuffle {
    ghost means: { Self → ShuffleMeaning };

    // How many slots it has, 1 to 12.
    fn width(&self) -> u8
        ensures { result ≡ (means self.now).width };

    // How many draws it has, 1 to 65,535.
    fn total(&self) -> u16
        ensures { result ≡ (means self.now).total };

    // Where a card in the slot goes under the draw: the slot itself where the draw or the slot is out of range.
    fn image(&self, draw: u16, slot: Slot) -> Slot
        ensures { result.number ≡ image (means self.now) draw slot.number };

    // The images of the twelve slots of a row under the draw.
    fn images(&self, draw: u16) -> [u8; 12]
        ensures { result ≡ table 12 (image (means self.now) draw) }
    {
        array::from_fn(|s| self.image(draw, Slot::at(s as u8)).number())
    }

    ghost lawful: { (s : Self) → LawfulShuffle (means s) };
}
