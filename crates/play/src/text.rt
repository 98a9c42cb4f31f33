// The text that the program reads: a sheet, and after it calls, one a line.
use sessions::call::Call;
use sheet_text::{TextFault, add_line};
use std::alloc::Global;
use std::str::{FromStr, SplitWhitespace};
use thiserror::Error;

// Why a line is not read.
#[derive(Clone, Copy, Debug, Error)]
pub enum Slip {
    #[error("neither a frame in hexadecimal digits nor bench, record, lay, step, turn, finish or where")]
    Word,
    #[error(transparent)]
    Frame(#[from] TextFault),
    #[error("after this word stands one number from 0 to {most}")]
    Number { most: u16 },
    #[error("this word stands alone")]
    Alone,
    #[error("the sheet, the bench and the record come before the first call")]
    Late,
}

// The sheet's bytes, how many rows the bench has, how many bytes the record has, and the calls.
#[derive(Drop)]
pub struct Text {
    pub sheet: Vec<u8>,
    pub bench: u16,
    pub record: u16,
    pub calls: Vec<Call>,
}

// The one number after a line's first word, which is to be at most `most`, the highest of its type.
fn number<N: FromStr>(mut words: SplitWhitespace<'_>, most: u16) -> Result<N, Slip>
where
    N::Err: Drop,
{
    match (words.next(), words.next()) {
        (Some(word), None) => word.parse().map_err(|_| Slip::Number { most }),
        _ => Err(Slip::Number { most }),
    }
}

// The call, where its word stands alone.
fn alone(mut words: SplitWhitespace<'_>, call: Call) -> Result<Call, Slip> {
    match words.next() {
        None => Ok(call),
        Some(_) => Err(Slip::Alone),
    }
}

impl Text {
    // Nothing is read yet. A record of 744 bytes has room for 62 turns of twelve cards.
    pub fn new(heap: Global) -> Text {
        Text {
            sheet: Vec::new(heap),
            bench: 512,
            record: 744,
            calls: Vec::new(heap),
        }
    }

    // Reads a line. What follows a '#' is passed over.
    pub fn read_line(&mut self, heap: Global, line: &str) -> Result<(), Slip> {
        let text = line.split_once('#').map_or(line, |(text, _)| text);
        let mut words = text.split_whitespace();
        let Some(word) = words.next() else {
            return Ok(());
        };
        match word {
            "lay" => self.call(Call::Lay {
                number: number(words, 255)?,
            }),
            "step" => self.call(Call::Step {
                draw: number(words, 65535)?,
            }),
            "turn" => self.call(alone(words, Call::Turn)?),
            "finish" => self.call(alone(words, Call::Finish)?),
            "where" => self.call(alone(words, Call::Where)?),
            "bench" => {
                let rows = number(words, 65535)?;
                self.before_calls()?.bench = rows;
                Ok(())
            }
            "record" => {
                let bytes = number(words, 65535)?;
                self.before_calls()?.record = bytes;
                Ok(())
            }
            _ => match add_line(heap, &mut self.before_calls()?.sheet, text.as_bytes()) {
                Err(TextFault::Character) => Err(Slip::Word),
                added => Ok(added?),
            },
        }
    }

    fn call(&mut self, call: Call) -> Result<(), Slip> {
        self.calls.push(call).map_err(TextFault::from)?;
        Ok(())
    }

    // The text, where no call is read yet.
    fn before_calls(&mut self) -> Result<&mut Text, Slip> {
        if self.calls.is_empty() {
            Ok(self)
        } else {
            Err(Slip::Late)
        }
    }
}
