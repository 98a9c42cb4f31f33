// Answers to calls in plain words. Nothing is told of the number laid, of the draws, or of a card that was not turned
// up.
use script::fault::Refused;
use sessions::call::{Answer, Reply};
use spaced::Codes;
use std::fmt;

// An answer, with the marks that were shown where it is that of a turn.
#[derive(Clone, Copy)]
pub struct AnswerWords<'a> {
    pub answer: &'a Answer,
    pub shown: &'a [u8],
}

impl fmt::Display for AnswerWords<'_> {
    fn fmt<W: fmt::Write>(&self, f: &mut fmt::Formatter<W>) -> fmt::Result {
        match self.answer {
            Ok(Reply::Began { line }) => {
                write!(f, "the cards lie face down; next is line {line}")
            }
            Ok(Reply::Stepped { line }) => write!(f, "done; next is line {line}"),
            Ok(Reply::Turned { line, written }) => {
                let marks = Codes(self.shown);
                write!(
                    f,
                    "shows{marks}; next is line {line}; {written} bytes written"
                )
            }
            Ok(Reply::Finished { output }) => write!(f, "the output bit is {output}"),
            Ok(Reply::Stands { at }) => write!(f, "{at}"),
            Err(fault) => {
                let refused = Refused { fault };
                write!(f, "{refused}: {fault}")
            }
        }
    }
}
