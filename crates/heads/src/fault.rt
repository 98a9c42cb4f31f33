// What check refuses a sheet for.
ghost use Rattle.heads.specs.Faults.{shown};

use script::fault::{Layer, Refusal};

#[derive(Clone, Copy, PartialEq, Eq, Debug)]
pub enum SheetFault {
    // 8: a length byte is 0, above 128 or past the end, or begins a line too many.
    Length { line: u8 },
    // 9: the sheet has fewer than three lines.
    FewLines { lines: u8 },
    // 10: a frame's byte is missing, too many or against its rule.
    Byte { line: u8, index: u8 },
    // 14: the layout lacks a player's code.
    PlayerCode { code: u8 },
    // 17: the kind of a result differs from the output that the head names.
    ResultKind { line: u8 },
    // 18: the last line is no result.
    LastLine { line: u8 },
    // 19: a product of totals along a path exceeds 2^40.
    Product { line: u8 },
}

impl Refusal for SheetFault {
    ghost names = { shown };

    fn number(&self) -> u8 {
        match self {
            SheetFault::Length { .. } => 8,
            SheetFault::FewLines { .. } => 9,
            SheetFault::Byte { .. } => 10,
            SheetFault::PlayerCode { .. } => 14,
            SheetFault::ResultKind { .. } => 17,
            SheetFault::LastLine { .. } => 18,
            SheetFault::Product { .. } => 19,
        }
    }

    fn layer(&self) -> Layer {
        Layer::Sheet
    }

    fn line(&self) -> u8 {
        match self {
            SheetFault::Length { line }
            | SheetFault::Byte { line, .. }
            | SheetFault::ResultKind { line }
            | SheetFault::LastLine { line }
            | SheetFault::Product { line } => *line,
            SheetFault::FewLines { lines } => *lines,
            SheetFault::PlayerCode { .. } => 1,
        }
    }

    fn place(&self) -> u16 {
        match self {
            SheetFault::Byte { index, .. } => u16::from(*index),
            SheetFault::PlayerCode { code } => u16::from(*code),
            _ => 0,
        }
    }
}
