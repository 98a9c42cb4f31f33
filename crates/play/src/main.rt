// Reads a sheet and a list of calls as text from standard input. Prints what each line of the sheet says and whether it
// passes; then certifies it and, where it is certified, makes the calls on a table and prints the answers.
#![tactic(auto)]

use anyhow::anyhow;
use rows::row::Row;
use sessions::call::{Answer, Call, Reply};
use sessions::fault::PlayFault;
use sessions::play::play;
use sheet::states::{CheckedScript, Sheet};
use sheet_words::print::{print_lines, print_verdict};
use std::io;
use tree_words::{CertificateWords, print_faults, print_refusal};

mod answers;
mod text;

use answers::AnswerWords;
use text::Text;

// Prints each call and its answer. The marks that a turn shows are the bytes that it writes to the record.
fn print_answers(
    rt: &HostRuntime,
    calls: &[Call],
    answers: &[Answer],
    record: &[u8],
) -> io::Result<()> {
    let mut before = 0;
    for (call, answer) in calls.iter().zip(answers) {
        let after = match answer {
            Ok(Reply::Turned { written, .. }) => *written,
            _ => before,
        };
        let shown = record.get(before..after).unwrap_or(&[]);
        let words = AnswerWords { answer, shown };
        println!(rt; "{call}: {words}")?;
        before = after;
    }
    Ok(())
}

// Certifies the script and makes the calls.
fn play_script(
    rt: &HostRuntime,
    script: CheckedScript,
    bench: u16,
    record: u16,
    calls: &[Call],
) -> anyhow::Result<()> {
    let heap = rt.alloc();
    let head = script.head();
    let players = head.players;
    let bank = script.copied(heap)?;
    let mut rows = vec![in heap; Row::zero(); usize::from(bench)]?;
    let mut page = vec![in heap; 0u8; usize::from(record)]?;
    let outcome = play(
        heap,
        script,
        &head.deck,
        &bank,
        rows.as_mut_slice(),
        page.as_mut_slice(),
        calls,
    );
    match outcome {
        Ok(played) => {
            let certificate = &played.certificate;
            let words = CertificateWords {
                players,
                certificate,
            };
            println!(rt; "certificate: {words}")?;
            print_answers(rt, calls, played.answers.as_slice(), page.as_slice())?;
        }
        Err(PlayFault::Uncertified { certificate }) => {
            let words = CertificateWords {
                players,
                certificate: &certificate,
            };
            println!(rt; "certificate: {words}")?;
            print_faults(rt, &certificate)?;
            println!(rt; "no table is opened, and no call is made")?;
        }
        Err(PlayFault::Unbuilt { fault }) => print_refusal(rt, &fault)?,
        Err(PlayFault::Memory) => return Err(anyhow!("no memory")),
    }
    Ok(())
}

// Prints the sheet and its verdict, and plays it where it passes.
fn play_text(rt: &HostRuntime, text: Text) -> anyhow::Result<()> {
    let Text {
        sheet,
        bench,
        record,
        calls,
    } = text;
    print_lines(rt, sheet.as_slice())?;
    let bytes = sheet.clone()?;
    let sheet = Sheet::new(sheet);
    let verdict = sheet.check();
    print_verdict(rt, bytes.as_slice(), verdict)?;
    if verdict.is_ok() {
        play_script(rt, sheet.into_checked(), bench, record, calls.as_slice())?;
    }
    Ok(())
}

fn main(rt: HostRuntime) -> anyhow::Result<()> {
    let heap = rt.alloc();
    let mut text = Text::new(heap);
    for (row, line) in (1usize..).zip(rt.lines(heap)) {
        let line = line?;
        if let Err(slip) = text.read_line(heap, line.as_str()) {
            println!(rt; "text line {row}: {slip}")?;
            return Ok(());
        }
    }
    play_text(&rt, text)
}
