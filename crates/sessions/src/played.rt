// What comes of a list of calls.
use crate::call::Answer;
use tree::certificate::Certificate;

// The script's certificate, and an answer for each call.
#[derive(Drop)]
pub struct Played {
    pub certificate: Certificate,
    pub answers: Vec<Answer>,
}
