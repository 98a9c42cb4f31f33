// The layers of the project, and what a refusal names: its number, its layer, a line and a place.
ghost use Rattle.std.specs.Prelude.{◌≡◌};
ghost use Rattle.script.specs.Faults.{Fault, layer_number};

use std::fmt;

#[derive(Clone, Copy, PartialEq, Eq, Debug)]
pub enum Layer {
    Sheet = 0,
    Tree = 1,
    Table = 2,
}

impl Layer {
    pub fn number(self) -> u8
        ensures { result ≡ layer_number self }
    {
        self as u8
    }
}

impl fmt::Display for Layer {
    fn fmt<W: fmt::Write>(&self, f: &mut fmt::Formatter<W>) -> fmt::Result {
        f.write_str(match self {
            Layer::Sheet => "sheet",
            Layer::Tree => "tree",
            Layer::Table => "table",
        })
    }
}

// What a layer's call is turned down for. By a rule of the project every refusal has all four numbers.
pub trait Refusal {
    // what it names
    ghost names: { Self → Fault };

    fn number(&self) -> u8
        ensures { result ≡ (names self.now).number };

    fn layer(&self) -> Layer
        ensures { result ≡ (names self.now).layer };

    fn line(&self) -> u8
        ensures { result ≡ (names self.now).line };

    // The place, 0 where none is given.
    fn place(&self) -> u16
        ensures { result ≡ (names self.now).place };
}

// A refusal in words: its number, layer, line and place.
#[derive(Clone, Copy)]
pub struct Refused<'a, R> {
    pub fault: &'a R,
}

impl<R: Refusal> fmt::Display for Refused<'_, R> {
    fn fmt<W: fmt::Write>(&self, f: &mut fmt::Formatter<W>) -> fmt::Result {
        let number = self.fault.number();
        let layer = self.fault.layer();
        let line = self.fault.line();
        let place = self.fault.place();
        write!(
            f,
            "refused {number}, layer {layer}, line {line}, place {place}"
        )
    }
}
