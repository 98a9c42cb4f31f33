// Plays the cases of standard input and prints what comes of each, a line for each answer; the stored output has what
// must come. A line begins with a word:
//   case NAME      a new case, with the sheet of the case before it
//   sheet          the sheet starts anew
//   frame HEX      a frame of the sheet
//   bench N        so many rows
//   record N       a record of so many bytes, each EE at the start
//   lay N, step N, turn, finish, where    a call
// Empty lines and those that begin with '#' are passed over.
#![tactic(auto)]

use anyhow::anyhow;
use rows::row::Row;
use script::inputs::count_inputs;
use sessions::call::Call;
use sessions::fault::PlayFault;
use sessions::play::play;
use sheet::states::{CheckedScript, Sheet};
use spaced::Codes;
use std::alloc::Global;

mod lines;
mod words;

use lines::Line;
use words::{Answered, Certified, Numbered};

// A case under way; it has no name before the first one begins.
#[derive(Drop)]
struct Case {
    name: Option<String>,
    bench: usize,
    length: usize,
    bytes: Vec<u8>,
    calls: Vec<Call>,
}

impl Case {
    fn new(heap: Global) -> Case {
        Case {
            name: None,
            bench: 512,
            length: 8,
            bytes: Vec::new(heap),
            calls: Vec::new(heap),
        }
    }

    fn play_script(&self, rt: &HostRuntime, script: CheckedScript) -> anyhow::Result<()> {
        let heap = rt.alloc();
        let head = script.head();
        let inputs = count_inputs(head.players);
        let bank = script.copied(heap)?;
        let mut bench = vec![in heap; Row {
            sequence: 5,
            weights: [7; 8]
        }; self.bench]?;
        let mut page = vec![in heap; 0xEEu8; self.length]?;
        let calls = self.calls.as_slice();
        let played = play(
            heap,
            script,
            &head.deck,
            &bank,
            bench.as_mut_slice(),
            page.as_mut_slice(),
            calls,
        );
        match played {
            Ok(played) => {
                let certificate = played.certificate;
                let certified = Certified {
                    inputs,
                    certificate,
                };
                println!(rt; "  certified: {certified}")?;
                for (call, answer) in calls.iter().zip(played.answers.as_slice()) {
                    let answered = Answered {
                        call: *call,
                        answer: *answer,
                    };
                    println!(rt; "  {answered}")?;
                }
                let codes = Codes(page.as_slice());
                println!(rt; "  record{codes}")?;
            }
            Err(PlayFault::Memory) => return Err(anyhow!("no memory")),
            Err(PlayFault::Unbuilt { fault }) => {
                let numbered = Numbered { fault: &fault };
                println!(rt; "  {numbered}")?;
            }
            Err(PlayFault::Uncertified { certificate }) => {
                let certified = Certified {
                    inputs,
                    certificate,
                };
                println!(rt; "  not certified: {certified}")?;
            }
        }
        if !bench
            .iter()
            .all(|row| row.sequence == 0 && row.weights == [0; 8])
        {
            println!(rt; "  a row of the bench is not zero")?;
        }
        Ok(())
    }

    fn play(&self, rt: &HostRuntime) -> anyhow::Result<()> {
        let Some(name) = &self.name else {
            return Ok(());
        };
        println!(rt; "{name}")?;
        let sheet = Sheet::new(self.bytes.clone()?);
        match sheet.check() {
            Ok(()) => self.play_script(rt, sheet.into_checked()),
            Err(fault) => {
                let numbered = Numbered { fault: &fault };
                println!(rt; "  {numbered}")?;
                Ok(())
            }
        }
    }

    // Does what the line asks for. A new case plays the one before it.
    fn take(&mut self, rt: &HostRuntime, line: Line) -> anyhow::Result<()> {
        match line {
            Line::Case { name } => {
                self.play(rt)?;
                self.name = Some(String::from_str(rt.alloc(), name)?);
                self.calls.clear();
            }
            Line::Sheet => self.bytes.clear(),
            Line::Frame { bytes } => self.bytes.extend_from_slice(bytes.as_slice())?,
            Line::Bench { rows } => self.bench = rows,
            Line::Record { length } => self.length = length,
            Line::Make { call } => self.calls.push(call)?,
        }
        Ok(())
    }
}

// An empty line, or one that begins with '#'.
fn is_passed_over(text: &str) -> bool {
    match text.split_whitespace().next() {
        Some(word) => word.starts_with('#'),
        None => true,
    }
}

fn run(rt: &HostRuntime) -> anyhow::Result<()> {
    let heap = rt.alloc();
    let mut case = Case::new(heap);
    for line in rt.lines(heap) {
        let text = line?;
        if is_passed_over(text.as_str()) {
            continue;
        }
        match Line::read(heap, text.as_str()) {
            Some(line) => case.take(rt, line)?,
            None => {
                println!(rt; "not read: {text}")?;
                return Ok(());
            }
        }
    }
    case.play(rt)
}

fn main(rt: HostRuntime) -> anyhow::Result<()> {
    run(&rt)
}
