// What a result line gives, and what may be wrong there.
use crate::row::Row;
use cards::place::Place;
use cards::reading::Reading;

// A committed result reads its two places in the order written; an open one gives its bit.
#[derive(Clone, Copy)]
pub enum Outcome {
    Committed { left: Place, right: Place },
    Opened { value: u8 },
}

// A row and an input under which its weight is positive, where it gives another reading than the function's value.
#[derive(Clone, Copy)]
pub struct Wrong {
    pub row: Row,
    pub input: u8,
    pub reading: Reading,
}
