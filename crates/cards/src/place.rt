// A place in the row of cards. It counts from 1, and a row has at most twelve cards.
ghost use Rattle.std.specs.Prelude.{◌≡◌, ◌+◌, ◌<◌, ◌≤◌, MatchOption};

pub use crate::slot::Slot;

#[derive(Clone, Copy)]
pub struct Place {
    number: u8,
    ghost from_one: { 1 ≤ number },
    ghost in_row: { number ≤ 12 },
}

impl Place {
    // The place of a number, none where it is not 1 to 12.
    pub fn new(number: u8) -> Option<Place>
        ensures { MatchOption result ((1 ≤ number → 12 < number)) (λ p. p.number ≡ number) }
    {
        (1..=12).contains(&number).then(|| Place::at(number))
    }

    // The place of a number that is known to be 1 to 12.
    pub fn at(number: u8) -> Place
        requires { (1 ≤ number) × (number ≤ 12) }
        ensures { result.number ≡ number }
    {
        Place { number }
    }

    pub fn number(self) -> u8
        ensures { result ≡ self.number }
    {
        self.number
    }

    // The slot that stands for this place in a shuffle of the whole row.
    pub fn slot(self) -> Slot
        ensures { result.number + 1 ≡ self.number }
    {
        Slot::at(self.number - 1)
    }
}
