// Runs check over a table of sheets. Each line of standard input has the number, line and place of the refusal that
// must come, 0 0 0 for a sheet that passes, and then the frames in hexadecimal; a word that begins with '=' has bytes
// as they stand, without a length byte before them. A line that begins with '#' is passed over.
#![tactic(auto)]

use heads::fault::SheetFault;
use script::fault::Refusal;
use sheet::states::Sheet;
use sheet_text::{TextFault, add_line, frame_bytes};
use std::alloc::Global;

// What a refusal names; all zeros where the sheet passes.
#[derive(Clone, Copy, Default, PartialEq, Eq, Debug)]
struct Answer {
    number: u8,
    line: u8,
    place: u16,
}

impl From<SheetFault> for Answer {
    fn from(fault: SheetFault) -> Answer {
        Answer {
            number: fault.number(),
            line: fault.line(),
            place: fault.place(),
        }
    }
}

// What check must answer, and the sheet.
#[derive(Drop)]
struct Case {
    expected: Result<(), Answer>,
    sheet: Sheet,
}

fn add_word(heap: Global, bytes: &mut Vec<u8>, word: &[u8]) -> Result<(), TextFault> {
    match word {
        [b'=', raw @ ..] => Ok(bytes.extend_from_slice(frame_bytes(heap, raw)?.as_slice())?),
        _ => add_line(heap, bytes, word),
    }
}

impl Case {
    // The case in a line of the table; none where the line is not of the table's form.
    fn read(heap: Global, text: &str) -> Option<Case> {
        let mut words = text.split_whitespace();
        let number = words.next()?.parse().ok()?;
        let line = words.next()?.parse().ok()?;
        let place = words.next()?.parse().ok()?;
        let expected = match (number, line, place) {
            (0, 0, 0) => Ok(()),
            _ => Err(Answer {
                number,
                line,
                place,
            }),
        };
        let mut bytes = Vec::new(heap);
        for word in words {
            add_word(heap, &mut bytes, word.as_bytes()).ok()?;
        }
        let sheet = Sheet::new(bytes);
        Some(Case { expected, sheet })
    }
}

fn main(rt: HostRuntime) -> anyhow::Result<()> {
    let heap = rt.alloc();
    let mut agree = 0usize;
    let mut differ = 0usize;
    let mut broken = 0usize;
    for line in rt.lines(heap) {
        let text = line?;
        if text.is_empty() || text.starts_with("#") {
            continue;
        }
        match Case::read(heap, text.as_str()) {
            Some(Case { expected, sheet }) => {
                let found = sheet.check().map_err(Answer::from);
                if found == expected {
                    agree = agree.saturating_add(1);
                } else {
                    differ = differ.saturating_add(1);
                    let found = found.err().unwrap_or_default();
                    println!(rt; "{text}: found {found:?}")?;
                }
            }
            None => {
                broken = broken.saturating_add(1);
                println!(rt; "{text}: not a case")?;
            }
        }
    }
    println!(rt; "{agree} agree, {differ} differ, {broken} are no cases")?;
    Ok(())
}
