// A bank of shuffles, asked by line: the interface by which a script's shuffles are known.
ghost use Rattle.std.specs.Prelude.{◌≡◌, ℕ, ◌==◌};
ghost use Rattle.cards.specs.Shuffles.{ShuffleMeaning, LawfulShuffle, Listed, image, with_at};
ghost use Rattle.cards.specs.Lists.{table};
ghost use Rattle.cards.specs.Rows.{carried, Found};
ghost use Rattle.std.proofs.lemmas.Bool.{cond_both};

use crate::shuffle::Shuffle;
use cards::place::Slot;
use cards::row::Row;
use std::array;

pub trait Bank {
    // the meaning of the shuffle at each line
    ghost at: { Self → ℕ → ShuffleMeaning };

    fn width(&self, line: u8) -> u8
        ensures { result ≡ (at self.now line).width };

    fn total(&self, line: u8) -> u16
        ensures { result ≡ (at self.now line).total };

    fn image(&self, line: u8, draw: u16, slot: Slot) -> Slot
        ensures { result.number ≡ image (at self.now line) draw slot.number };

    // The images of the twelve slots of a row under the draw.
    fn images(&self, line: u8, draw: u16) -> [u8; 12]
        ensures { result ≡ table 12 (image (at self.now line) draw) }
    {
        array::from_fn(|s| self.image(line, draw, Slot::at(s as u8)).number())
    }

    ghost lawful: { (b : Self) (line : ℕ) → LawfulShuffle (at b line) };
}

// The row after the shuffle at the line, with the draw. The card in each slot is found at the slot's image, and the
// shuffle means a list of permutations, of which the draw picks one.
pub fn deal<B: Bank>(bank: &B, line: u8, draw: u16, row: Row) -> Row
    ensures value { result.cards ≡ carried (image (B.Bank.at bank.now line) draw) row.cards }
    ensures found { Found (image (B.Bank.at bank.now line) draw) row.cards result.cards }
    ensures listed { Listed (B.Bank.at bank.now line) }
{
    row.moved(bank.images(line, draw))
}

// A bank with the same shuffle at each line.
#[derive(Clone, Copy, Drop)]
pub struct Everywhere<S> {
    pub shuffle: S,
}

impl<S: Shuffle> Bank for Everywhere<S> {
    ghost at = { λ b _. S.Shuffle.means b.shuffle };

    ghost lawful = { λ b line. S.Shuffle.lawful b.shuffle };

    fn width(&self, _line: u8) -> u8 {
        self.shuffle.width()
    }

    fn total(&self, _line: u8) -> u16 {
        self.shuffle.total()
    }

    fn image(&self, _line: u8, draw: u16, slot: Slot) -> Slot {
        self.shuffle.image(draw, slot)
    }
}

// A bank with one shuffle at one line, and another bank for the other lines.
#[derive(Clone, Copy, Drop)]
pub struct With<S, B> {
    pub line: u8,
    pub shuffle: S,
    pub rest: B,
}

impl<S: Shuffle, B: Bank> Bank for With<S, B> {
    ghost at = { λ b line. with_at b.line (S.Shuffle.means b.shuffle) (B.Bank.at b.rest) line };

    ghost lawful = { λ b line.
        cond_both (line == b.line) _ _ LawfulShuffle
        (λ e. S.Shuffle.lawful b.shuffle)
        (λ e. B.Bank.lawful b.rest line) };

    fn width(&self, line: u8) -> u8 {
        if line == self.line {
            self.shuffle.width()
        } else {
            self.rest.width(line)
        }
    }

    fn total(&self, line: u8) -> u16 {
        if line == self.line {
            self.shuffle.total()
        } else {
            self.rest.total(line)
        }
    }

    fn image(&self, line: u8, draw: u16, slot: Slot) -> Slot {
        if line == self.line {
            self.shuffle.image(draw, slot)
        } else {
            self.rest.image(line, draw, slot)
        }
    }
}
