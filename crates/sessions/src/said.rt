// The words of the calls.
use crate::call::Call;
use std::fmt;

impl fmt::Display for Call {
    fn fmt<W: fmt::Write>(&self, f: &mut fmt::Formatter<W>) -> fmt::Result {
        f.write_str(match self {
            Call::Lay { .. } => "lay",
            Call::Step { .. } => "step",
            Call::Turn => "turn",
            Call::Finish => "finish",
            Call::Where => "where",
        })
    }
}
