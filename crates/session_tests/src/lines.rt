// What the lines of standard input ask for.
use sessions::call::Call;
use sheet_text::add_line;
use std::alloc::Global;

#[derive(Drop)]
pub enum Line<'a> {
    Case { name: &'a str },
    Sheet,
    // The frame with its length byte.
    Frame { bytes: Vec<u8> },
    Bench { rows: usize },
    Record { length: usize },
    Make { call: Call },
}

// The call of this word, with the number that follows it.
fn call_of(word: &str, number: Option<u16>) -> Option<Call> {
    Some(match (word, number) {
        ("lay", Some(number)) => Call::Lay {
            number: u8::try_from(number).ok()?,
        },
        ("step", Some(draw)) => Call::Step { draw },
        ("turn", None) => Call::Turn,
        ("finish", None) => Call::Finish,
        ("where", None) => Call::Where,
        _ => return None,
    })
}

impl<'a> Line<'a> {
    // What the line asks for, none where it is not read.
    pub fn read(heap: Global, text: &'a str) -> Option<Line<'a>> {
        let mut words = text.split_whitespace();
        Some(match (words.next()?, words.next()) {
            ("case", Some(name)) => Line::Case { name },
            ("sheet", None) => Line::Sheet,
            ("frame", Some(text)) => {
                let mut bytes = Vec::new(heap);
                add_line(heap, &mut bytes, text.as_bytes()).ok()?;
                Line::Frame { bytes }
            }
            ("bench", Some(rows)) => Line::Bench {
                rows: rows.parse().ok()?,
            },
            ("record", Some(length)) => Line::Record {
                length: length.parse().ok()?,
            },
            (word, rest) => Line::Make {
                call: call_of(word, rest.and_then(|number| number.parse().ok()))?,
            },
        })
    }
}
