// Reads a sheet as text from standard input, prints what each line says, and whether the sheet passes.
#![tactic(auto)]

use anyhow::anyhow;
use sheet::states::Sheet;
use sheet_text::{TextFault, add_line};
use sheet_words::print::{print_lines, print_text_fault, print_verdict};

fn main(rt: HostRuntime) -> anyhow::Result<()> {
    let heap = rt.alloc();
    let mut bytes = Vec::new(heap);
    for (row, line) in (1usize..).zip(rt.lines(heap)) {
        let line = line?;
        match add_line(heap, &mut bytes, line.as_bytes()) {
            Ok(()) => {}
            Err(TextFault::Memory(_)) => return Err(anyhow!("no memory")),
            Err(fault) => {
                print_text_fault(&rt, row, fault)?;
                return Ok(());
            }
        }
    }
    print_lines(&rt, bytes.as_slice())?;
    let sheet = Sheet::new(bytes.clone()?);
    print_verdict(&rt, bytes.as_slice(), sheet.check())?;
    Ok(())
}
