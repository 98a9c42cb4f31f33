// The text of a request: a shuffle by its layers, one a line, and a row of cards.
ghost use Rattle.std.specs.Prelude.{◌≡◌, ◌<◌, true, false, is_some, if◌then◌else◌, vec_len, MatchResult, OnErr};

use std::alloc::{AllocError, Global};
use std::str::FromStr;
use thiserror::Error;

// What is wrong with a line of the text.
#[derive(Clone, Copy, PartialEq, Eq, Debug, Error)]
pub enum Reason {
    #[error("a line begins with cut, explicit, piles, places or row")]
    Word,
    #[error("after the first word stand numbers from 0 to 255")]
    Number,
    #[error("cut and piles take one number, explicit at least one, places and row 1 to 12")]
    Count,
    #[error("this layer stands already: the text has one of each")]
    Again,
    #[error("first comes cut or explicit, then piles, then places, and last the row")]
    Order,
    #[error("a card is a number from 0 to 15")]
    Card,
}

// Why the text is not read: a line that is wrong, what the text lacks at its end, or want of memory.
#[derive(Clone, Copy, PartialEq, Eq, Debug, Error)]
pub enum TextFault {
    #[error("line {0}: {1}")]
    Line(usize, Reason),
    #[error("the text names no shuffle: begin with a line such as 'cut 5'")]
    NoShuffle,
    #[error("the text has no row: end with a line such as 'row 0 1 1 0'")]
    NoRow,
    #[error("there is not enough memory")]
    Memory(#[from(alloc)] AllocError),
}

// What a line of the text gives. Each is later in the text than the one above it.
#[derive(Clone, Copy, PartialEq, Eq, Debug)]
pub enum Part {
    Cut,
    Explicit,
    Piles,
    Places,
    Row,
}

// The part that a line's first word names.
impl FromStr for Part {
    type Err = Reason;

    fn from_str(word: &str) -> Result<Part, Reason> {
        match word {
            "cut" => Ok(Part::Cut),
            "explicit" => Ok(Part::Explicit),
            "piles" => Ok(Part::Piles),
            "places" => Ok(Part::Places),
            "row" => Ok(Part::Row),
            _ => Err(Reason::Word),
        }
    }
}

// The base of a shuffle: a cut, or explicit permutations of the slots, each after its weight.
#[derive(Drop, Debug)]
pub enum Base {
    Cut { slots: u8 },
    Explicit { slots: u8, entries: Vec<u8> },
}

// What was asked: the base of the shuffle, its other layers, and the row. A layer that was left out is none or empty.
#[derive(Drop, Debug)]
pub struct Request {
    pub base: Option<Base>,
    pub piles: Option<u8>,
    pub places: Vec<u8>,
    pub row: Vec<u8>,
}

impl Request {
    pub fn new(heap: Global) -> Request
        ensures layers { (is_some result.base ≡ false) × (is_some result.piles ≡ false) }
        ensures lists { (vec_len result.places ≡ 0) × (vec_len result.row ≡ 0) }
    {
        Request {
            base: None,
            piles: None,
            places: Vec::new(heap),
            row: Vec::new(heap),
        }
    }

    // Whether a line of the text gave the part.
    fn has(&self, part: Part) -> bool {
        match part {
            Part::Cut | Part::Explicit => self.base.is_some(),
            Part::Piles => self.piles.is_some(),
            Part::Places => !self.places.is_empty(),
            Part::Row => !self.row.is_empty(),
        }
    }

    // Whether the part may come now: after the parts before it, and not twice.
    fn may_come(&self, part: Part) -> Result<(), Reason> {
        let in_order = match part {
            Part::Cut | Part::Explicit => !self.has(Part::Row),
            Part::Piles => self.base.is_some() && !self.has(Part::Places) && !self.has(Part::Row),
            Part::Places | Part::Row => self.base.is_some() && !self.has(Part::Row),
        };
        if self.has(part) {
            Err(Reason::Again)
        } else if !in_order {
            Err(Reason::Order)
        } else {
            Ok(())
        }
    }

    // Takes the numbers of a part that may come, where it may have them.
    fn keep(&mut self, part: Part, mut numbers: Vec<u8>) -> Result<(), Reason>
        ensures { OnErr result (self.new ≡ self.old) }
    {
        match (part, numbers.as_slice()) {
            (Part::Cut, [slots]) => self.base = Some(Base::Cut { slots: *slots }),
            (Part::Explicit, [_, ..]) => {
                let slots = numbers.remove(0);
                self.base = Some(Base::Explicit {
                    slots,
                    entries: numbers,
                });
            }
            (Part::Piles, [size]) => self.piles = Some(*size),
            (Part::Places, [_, others @ ..]) if others.len() < 12 => self.places = numbers,
            (Part::Row, [_, others @ ..]) if others.len() < 12 => {
                if numbers.iter().any(|card| *card > 15) {
                    return Err(Reason::Card);
                }
                self.row = numbers;
            }
            _ => return Err(Reason::Count),
        }
        Ok(())
    }

    // Reads one line, counted from 1. An empty line and one that begins with '#' say nothing.
    // A line that is refused changes nothing.
    pub fn read_line(&mut self, heap: Global, line: usize, text: &str) -> Result<(), TextFault>
        ensures { OnErr result (self.new ≡ self.old) }
    {
        let mut words = text.split_whitespace();
        let Some(word) = words.next() else {
            return Ok(());
        };
        if word.starts_with('#') {
            return Ok(());
        }
        let at_line = |reason| TextFault::Line(line, reason);
        let part = word.parse::<Part>().map_err(at_line)?;
        self.may_come(part).map_err(at_line)?;
        let numbers = words
            .map(|word| word.parse::<u8>().map_err(|_| at_line(Reason::Number)))
            .try_collect(heap)?;
        self.keep(part, numbers).map_err(at_line)
    }

    // Whether the text named a shuffle and a row.
    pub fn finished(&self) -> Result<(), TextFault>
        ensures { MatchResult result (λ _. (is_some self.now.base ≡ true) × (0 < vec_len self.now.row)) (λ e. e ≡ (if is_some self.now.base then TextFault.NoRow else TextFault.NoShuffle)) }
    {
        if self.base.is_none() {
            return Err(TextFault::NoShuffle);
        }
        if self.row.is_empty() {
            return Err(TextFault::NoRow);
        }
        Ok(())
    }
}
