// A slot of a shuffle. It counts from 0, and a shuffle has at most twelve slots.
ghost use Rattle.std.specs.Prelude.{◌≡◌, ◌+◌, ◌<◌, ◌≤◌, MatchOption};

use crate::place::Place;

// By a rule of the project it is a type of its own beside the place, and one function each way leads between them.
#[derive(Clone, Copy)]
pub struct Slot {
    number: u8,
    ghost in_row: { number < 12 },
}

impl Slot {
    // The slot of a number, none where it is 12 or more.
    pub fn new(number: u8) -> Option<Slot>
        ensures { MatchOption result (12 ≤ number) (λ s. s.number ≡ number) }
    {
        (number < 12).then(|| Slot::at(number))
    }

    // The slot of a number that is known to be below 12.
    pub fn at(number: u8) -> Slot
        requires { number < 12 }
        ensures { result.number ≡ number }
    {
        Slot { number }
    }

    pub fn number(self) -> u8
        ensures { result ≡ self.number }
    {
        self.number
    }

    // The place in the row for which this slot stands in a shuffle of the whole row.
    pub fn place(self) -> Place
        ensures { result.number ≡ self.number + 1 }
    {
        Place::at(self.number + 1)
    }
}
