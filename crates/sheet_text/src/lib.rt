// A sheet as text: a frame to a line, in hexadecimal digits. Blanks are passed over, and so is what follows a '#'.
#![tactic(auto)]

ghost use Rattle.std.specs.Prelude.{◌≡◌};
ghost use Rattle.sheet_text.specs.Hex.{digit_value};

use std::alloc::{AllocError, Global};
use thiserror::Error;

// Why a text is no sheet.
#[derive(Clone, Copy, PartialEq, Eq, Debug, Error)]
pub enum TextFault {
    #[error("a character that is no hexadecimal digit")]
    Character,
    #[error("a byte has two digits")]
    HalfByte,
    #[error("there is no memory for it")]
    Memory(#[from(alloc)] AllocError),
}

// The value of a hexadecimal digit.
pub fn digit(c: u8) -> Option<u8>
    ensures { result ≡ digit_value c }
{
    match c {
        b'0'..=b'9' => Some(c - b'0'),
        b'A'..=b'F' => Some(c - b'A' + 10),
        b'a'..=b'f' => Some(c - b'a' + 10),
        _ => None,
    }
}

// The bytes that a line of text writes.
pub fn frame_bytes(heap: Global, text: &[u8]) -> Result<Vec<u8>, TextFault> {
    let digits = text
        .iter()
        .take_while(|c| **c != b'#')
        .filter(|c| !matches!(**c, b' ' | b'\t' | b'\r'))
        .map(|c| digit(*c).ok_or(TextFault::Character));
    let mut bytes = Vec::new(heap);
    let mut high = None;
    for low in digits {
        let low = low?;
        match high.take() {
            None => high = Some(low),
            Some(high) => bytes.push(high << 4 | low)?,
        }
    }
    match high {
        None => Ok(bytes),
        Some(_) => Err(TextFault::HalfByte),
    }
}

// Adds a frame to a sheet: its length byte and its bytes. A line without digits adds nothing.
pub fn add_line(heap: Global, sheet: &mut Vec<u8>, text: &[u8]) -> Result<(), TextFault> {
    let frame = frame_bytes(heap, text)?;
    if !frame.is_empty() {
        let length = frame.len().min(255) as u8;
        sheet.push(length)?;
        sheet.extend_from_slice(frame.as_slice())?;
    }
    Ok(())
}
