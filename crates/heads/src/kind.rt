// The kinds of a sheet's frames. A frame's first byte is its kind.
ghost use Rattle.std.specs.Prelude.{◌≡◌};
ghost use Rattle.heads.specs.Kinds.{kind_byte, kind_of_output, Decodes};

use crate::head::Output;

#[derive(Clone, Copy, PartialEq, Eq, Debug)]
pub enum Kind {
    Head = 0x01,
    Layout = 0x02,
    Permute = 0x10,
    Cut = 0x11,
    Explicit = 0x13,
    Turn = 0x20,
    Committed = 0x30,
    Open = 0x31,
}

// A byte that is no kind.
#[derive(Clone, Copy, PartialEq, Eq, Debug)]
pub struct UnknownKind {
    pub byte: u8,
}

impl Kind {
    // The kind's byte.
    pub fn byte(self) -> u8
        ensures { result ≡ kind_byte self }
    {
        self as u8
    }
}

impl TryFrom<u8> for Kind {
    type Error = UnknownKind;

    ghost try_from_gives = { Decodes };

    fn try_from(byte: u8) -> Result<Kind, UnknownKind> {
        match byte {
            0x01 => Ok(Kind::Head),
            0x02 => Ok(Kind::Layout),
            0x10 => Ok(Kind::Permute),
            0x11 => Ok(Kind::Cut),
            0x13 => Ok(Kind::Explicit),
            0x20 => Ok(Kind::Turn),
            0x30 => Ok(Kind::Committed),
            0x31 => Ok(Kind::Open),
            _ => Err(UnknownKind { byte }),
        }
    }
}

// The kind of a result that comes out so.
impl From<Output> for Kind {
    ghost from_gives = { λ output kind. kind ≡ kind_of_output output };

    fn from(output: Output) -> Kind {
        match output {
            Output::Committed => Kind::Committed,
            Output::Open => Kind::Open,
        }
    }
}
