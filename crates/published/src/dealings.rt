// The dealings of a certified script for an input, each run on a table of its own.
use anyhow::anyhow;
use cards::deck::bit_of;
use rows::row::Row;
use sessions::call::{Call, Reply};
use sessions::fault::PlayFault;
use sessions::play::play;
use sheet::action::Action;
use sheet::states::CheckedScript;
use spaced::Codes;
use std::alloc::Global;
use std::collections::BTreeMap;
use std::fmt;

// So many dealings of an input are run at most.
const MOST: u32 = 4096;

// A draw of a shuffle, and the shuffle's total.
#[derive(Clone, Copy)]
struct Draw {
    number: u16,
    total: u16,
}

impl Draw {
    // The draw after this one, where the shuffle has one.
    fn next(self) -> Option<Draw> {
        let number = self.number.checked_add(1)?;
        (number < self.total).then_some(Draw { number, ..self })
    }
}

// The list of draws after this one, where there is one: the last draw that has a next one gives way to it, and those
// after it begin anew.
fn next_list(mut draws: Vec<Draw>) -> Option<Vec<Draw>> {
    let last = draws.iter().rposition(|draw| draw.next().is_some())?;
    draws.truncate(last + 1);
    let draw = draws.last_mut()?;
    *draw = draw.next()?;
    Some(draws)
}

// What a dealing came to: its list of draws, the output bit, and the marks that it shows.
#[derive(Drop)]
struct Dealt {
    draws: Vec<Draw>,
    output: u8,
    trace: String,
}

// What the dealings of an input came to: the function's value there, how many dealings there are, how many of them give
// 1, and how many show each trace.
#[derive(Drop)]
pub struct Seen {
    value: u8,
    dealings: u32,
    ones: u32,
    traces: BTreeMap<String, u32>,
}

impl fmt::Display for Seen {
    fn fmt<W: fmt::Write>(&self, f: &mut fmt::Formatter<W>) -> fmt::Result {
        let Seen {
            value,
            dealings,
            ones,
            traces,
        } = self;
        let right = if *value == 0 { 0 } else { *dealings };
        if *ones == right {
            write!(f, "{dealings} dealings, each gives {value}")?;
        } else {
            write!(
                f,
                "{dealings} dealings, {ones} of them give 1, and the function's value is {value}"
            )?;
        }
        let many = traces.len();
        if many > 4 {
            return write!(f, "; {many} traces");
        }
        for (trace, count) in traces {
            write!(f, ";{trace} in {count}")?;
        }
        Ok(())
    }
}

// A certified script, and the bench and the record of its tables.
#[derive(Drop)]
pub struct Dealer<'a> {
    pub heap: Global,
    pub script: &'a CheckedScript,
    pub bench: Vec<Row>,
    pub record: Vec<u8>,
}

impl Dealer<'_> {
    // The reply to the last of the calls, made from the first one on a new table.
    fn last_reply(&mut self, calls: &[Call]) -> anyhow::Result<Reply> {
        let script = self.script;
        let copy = script.copied(self.heap)?;
        let deck = script.head().deck;
        let answer = match play(
            self.heap,
            copy,
            &deck,
            script,
            self.bench.as_mut_slice(),
            self.record.as_mut_slice(),
            calls,
        ) {
            Ok(played) => played.answers.last().copied(),
            Err(PlayFault::Memory) => return Err(anyhow!("no memory")),
            Err(_) => None,
        };
        match answer {
            Some(Ok(reply)) => Ok(reply),
            _ => Err(anyhow!("a call of a dealing is refused")),
        }
    }

    // Runs the list of draws, which grows by a 0 for each further shuffle.
    fn deal(&mut self, input: u8, draws: Vec<Draw>) -> anyhow::Result<Dealt> {
        let mut earlier = draws.into_iter();
        let mut draws = Vec::new(self.heap);
        let mut calls = Vec::new(self.heap);
        calls.push(Call::Lay { number: input })?;
        let mut written = 0;
        for _ in 0..64 {
            let line = match self.last_reply(calls.as_slice())? {
                Reply::Began { line } | Reply::Stepped { line } => line,
                Reply::Turned {
                    line,
                    written: bytes,
                } => {
                    written = bytes;
                    line
                }
                Reply::Finished { output } => {
                    let shown = self.record.get(..written).unwrap_or(&[]);
                    let trace = Codes(shown).to_string(self.heap)?;
                    return Ok(Dealt {
                        draws,
                        output,
                        trace,
                    });
                }
                Reply::Stands { .. } => return Err(anyhow!("a call of a dealing is refused")),
            };
            let call = match self.script.action(line) {
                Action::Permute { .. } => Call::Step { draw: 0 },
                Action::Shuffle { total, .. } => {
                    let draw = earlier.next().unwrap_or(Draw { number: 0, total });
                    draws.push(draw)?;
                    Call::Step { draw: draw.number }
                }
                Action::Turn { .. } => Call::Turn,
                Action::Committed { .. } | Action::Open { .. } | Action::Nothing => Call::Finish,
            };
            calls.push(call)?;
        }
        Err(anyhow!("a dealing does not end"))
    }

    // Runs every dealing of the input.
    pub fn deal_all(&mut self, input: u8) -> anyhow::Result<Seen> {
        let mut seen = Seen {
            value: bit_of(self.script.head().function, input % 8),
            dealings: 0,
            ones: 0,
            traces: BTreeMap::new(self.heap),
        };
        let mut draws = Vec::new(self.heap);
        for _ in 0..MOST {
            let dealt = self.deal(input, draws)?;
            seen.dealings = seen.dealings.saturating_add(1);
            seen.ones = seen.ones.saturating_add(u32::from(dealt.output));
            let count = seen.traces.entry(dealt.trace)?.or_insert(0);
            *count = count.saturating_add(1);
            draws = match next_list(dealt.draws) {
                Some(draws) => draws,
                None => return Ok(seen),
            };
        }
        Err(anyhow!("an input has too many dealings"))
    }
}
