// A number that is committed to, and laid on a table once.
ghost use Rattle.std.specs.Prelude.{◌≡◌};

// It is neither copied nor cloned: to lay it spends it.
#[derive(Drop)]
pub struct Commitment {
    number: u8,
}

pub fn commit(number: u8) -> Commitment
    ensures { result.number ≡ number }
{
    Commitment { number }
}

impl Commitment {
    pub(crate) fn spent(self) -> u8
        ensures { result ≡ self.number }
    {
        self.number
    }
}
