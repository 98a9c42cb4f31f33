// What the lines of a sheet say.
use format::frame::Frame;
use format::read::{read_frame, read_head, read_layout};
use heads::head::Head;
use sheet::actions::total_weight;
use sheet::branches::{Branch, Branches};
use sheet::lines::frame_at;
use spaced::{Codes, Spaced};
use std::fmt;

// A line of a sheet, as it is read.
#[derive(Clone, Copy)]
pub enum Line<'a> {
    Head(Head),
    Layout(&'a [u8]),
    Step(Frame<'a>),
}

// What a line is read as; none where it cannot be read.
pub fn read_line(bytes: &[u8], lines: u8, line: u8) -> Option<Line<'_>> {
    let first = frame_at(bytes, 0);
    let frame = frame_at(bytes, line);
    if lines == 0 || first.len() > 128 || frame.len() > 128 {
        return None;
    }
    let head = read_head(first).ok()?;
    match line {
        0 => Some(Line::Head(head)),
        1 => read_layout(&head, frame).ok().map(Line::Layout),
        _ => read_frame(&head, lines, line, frame).ok().map(Line::Step),
    }
}

impl fmt::Display for Line<'_> {
    fn fmt<W: fmt::Write>(&self, f: &mut fmt::Formatter<W>) -> fmt::Result {
        match self {
            Line::Head(head) => write!(f, "head: {head}"),
            Line::Layout(codes) => write!(f, "layout:{}", Codes(codes)),
            Line::Step(frame) => write!(f, "{}", FrameWords(frame)),
        }
    }
}

// A frame of line 2 or later, in words.
#[derive(Clone, Copy)]
struct FrameWords<'a>(&'a Frame<'a>);

impl fmt::Display for FrameWords<'_> {
    fn fmt<W: fmt::Write>(&self, f: &mut fmt::Formatter<W>) -> fmt::Result {
        match self.0 {
            Frame::Permute { places } => {
                write!(f, "permute: the places go to{}", Spaced(places))
            }
            Frame::Cut {
                piles,
                slots,
                places,
            } => {
                let places = Spaced(places);
                write!(
                    f,
                    "shuffle: cut of {slots} under piles of {piles} at the places{places}, total {slots}"
                )
            }
            Frame::Explicit {
                piles,
                slots,
                places,
                entries,
            } => {
                // A frame has at most 128 bytes, and `total_weight` asks for that.
                let total = if entries.len() <= 128 {
                    total_weight(*slots, entries)
                } else {
                    0
                };
                let places = Spaced(places);
                let entries = Spaced(entries);
                write!(
                    f,
                    "shuffle: entries of {slots} slots under piles of {piles} at the places{places}, total {total}, weights and images{entries}"
                )
            }
            Frame::Turn { places, branches } => {
                write!(f, "turn: the places{}", Spaced(places))?;
                for Branch { marks, target } in Branches::new(places.len(), branches) {
                    write!(f, ";{} to line {target}", Codes(marks))?;
                }
                Ok(())
            }
            Frame::Committed { left, right } => {
                write!(f, "result: the pair at the places {left} and {right}")
            }
            Frame::Open { value } => write!(f, "result: the bit {value}"),
        }
    }
}
