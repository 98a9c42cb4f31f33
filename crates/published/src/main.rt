// Checks and certifies the sheets that the file index.txt names, with a bench of 512 rows. For each that is certified,
// runs every dealing of every input on a table, and prints what comes out and how often each trace is shown.
#![tactic(auto)]

use certifier::certifying::certify;
use rows::row::Row;
use script::fault::Refused;
use script::inputs::count_inputs;
use sheet::states::{CheckedScript, Sheet};
use sheet_text::add_line;
use sheet_words::print::{print_text_fault, print_verdict};
use std::fs;
use tree_words::CertificateWords;

mod dealings;

use dealings::Dealer;

// Runs every dealing of every input.
fn print_dealings(rt: &HostRuntime, script: &CheckedScript, bench: Vec<Row>) -> anyhow::Result<()> {
    let heap = rt.alloc();
    let record = vec![in heap; 0u8; 744]?;
    let mut dealer = Dealer {
        heap,
        script,
        bench,
        record,
    };
    for input in 0..count_inputs(script.head().players) {
        let seen = dealer.deal_all(input)?;
        println!(rt; "  input {input}: {seen}")?;
    }
    Ok(())
}

// Certifies the script, and runs its dealings where it is certified.
fn print_script(rt: &HostRuntime, script: &CheckedScript) -> anyhow::Result<()> {
    let head = script.head();
    let mut bench = vec![in rt.alloc(); Row::zero(); 512]?;
    match certify(script, &head.deck, script, bench.as_mut_slice()) {
        Err(fault) => rt.println(Refused { fault: &fault })?,
        Ok(certificate) => {
            rt.println(CertificateWords {
                players: head.players,
                certificate: &certificate,
            })?;
            if certificate.is_faultless() {
                print_dealings(rt, script, bench)?;
            }
        }
    }
    Ok(())
}

// Checks the sheet in the text, and goes on with its script where it passes.
fn print_sheet(rt: &HostRuntime, text: &str) -> anyhow::Result<()> {
    let heap = rt.alloc();
    let mut bytes = Vec::new(heap);
    for (row, line) in (1usize..).zip(text.lines()) {
        if let Err(fault) = add_line(heap, &mut bytes, line.as_bytes()) {
            print_text_fault(rt, row, fault)?;
            return Ok(());
        }
    }
    let sheet = Sheet::new(bytes.clone()?);
    match sheet.check() {
        Err(fault) => print_verdict(rt, bytes.as_slice(), Err(fault))?,
        Ok(()) => print_script(rt, &sheet.into_checked())?,
    }
    Ok(())
}

fn main(rt: HostRuntime) -> anyhow::Result<()> {
    let index = fs::read_to_string(&rt, "index.txt")?;
    for name in index.as_str().lines() {
        print!(rt; "{name}: ")?;
        let text = fs::read_to_string(&rt, name)?;
        print_sheet(&rt, text.as_str())?;
    }
    Ok(())
}
