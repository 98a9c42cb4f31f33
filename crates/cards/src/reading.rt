// How a pair of cards reads: the bit 0, the bit 1, or neither.
ghost use Rattle.std.specs.Prelude.{◌≡◌};
ghost use Rattle.cards.specs.Decks.{reading_number, bit_reading, reading_bit};

#[derive(Clone, Copy, PartialEq, Eq, Debug)]
pub enum Reading {
    Zero = 0,
    One = 1,
    Neither = 2,
}

impl Reading {
    // The number of the reading: the bit, or 2 for neither.
    pub fn number(self) -> u8
        ensures { result ≡ reading_number self }
    {
        self as u8
    }
    // The reading of a bit; any number but 0 counts as 1.
    pub fn of_bit(value: u8) -> Reading
        ensures { result ≡ bit_reading value }
    {
        if value == 0 {
            Reading::Zero
        } else {
            Reading::One
        }
    }

    // The bit that was read, none for neither.
    pub fn bit(self) -> Option<u8>
        ensures { result ≡ reading_bit self }
    {
        match self {
            Reading::Zero => Some(0),
            Reading::One => Some(1),
            Reading::Neither => None,
        }
    }
}
