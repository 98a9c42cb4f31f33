// Whether a table is empty, has a run under way, or has ended one.
ghost use Rattle.std.specs.Prelude.{◌≡◌};
ghost use Rattle.protocol.specs.Table.{phase_number};
ghost use Rattle.table.specs.Phases.{phase_of};

#[derive(Clone, Copy, PartialEq, Eq, Debug)]
pub enum Phase {
    Empty = 0,
    Running = 1,
    Ended = 2,
}

impl Phase {
    pub fn number(self) -> u8
        ensures { result ≡ phase_number (phase_of self) }
    {
        self as u8
    }
}
