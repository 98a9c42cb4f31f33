// What a call at the table is turned down for.
ghost use Rattle.table.specs.Faults.{shown};

use script::fault::{Layer, Refusal};

// Each case has the table's line.
#[derive(Clone, Copy, PartialEq, Eq, Debug)]
pub enum TableFault {
    // 24: a step, a turn or a finish before a lay.
    NotLaid { line: u8 },
    // 25: a lay on a table that is not empty.
    NotEmpty { line: u8 },
    // 26: the number laid is no input: it is 2^k or more, for k players.
    NoInput { line: u8 },
    // 27: a step, a turn or a finish after a finish.
    Ended { line: u8 },
    // 28: the line is not of the call's kind.
    OtherKind { line: u8 },
    // 29: the draw is not below the total.
    Draw { line: u8 },
    // 30: the record has fewer bytes left than there are marks to write.
    RecordFull { line: u8 },
    // 31: the marks have no branch, or the pair reads neither.
    Unread { line: u8 },
}

impl Refusal for TableFault {
    ghost names = { shown };

    fn number(&self) -> u8 {
        match self {
            TableFault::NotLaid { .. } => 24,
            TableFault::NotEmpty { .. } => 25,
            TableFault::NoInput { .. } => 26,
            TableFault::Ended { .. } => 27,
            TableFault::OtherKind { .. } => 28,
            TableFault::Draw { .. } => 29,
            TableFault::RecordFull { .. } => 30,
            TableFault::Unread { .. } => 31,
        }
    }

    fn layer(&self) -> Layer {
        Layer::Table
    }

    fn line(&self) -> u8 {
        match self {
            TableFault::NotLaid { line }
            | TableFault::NotEmpty { line }
            | TableFault::NoInput { line }
            | TableFault::Ended { line }
            | TableFault::OtherKind { line }
            | TableFault::Draw { line }
            | TableFault::RecordFull { line }
            | TableFault::Unread { line } => *line,
        }
    }

    fn place(&self) -> u16 {
        0
    }
}
