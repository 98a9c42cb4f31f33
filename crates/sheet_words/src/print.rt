// The printing of a sheet and its verdict.
use crate::expected::expected;
use crate::lines::read_line;
use heads::fault::SheetFault;
use script::fault::Refused;
use sheet::lines::count_lines;
use sheet_text::TextFault;
use std::io;

// Prints what each line of the sheet says, where its lines can be told apart.
pub fn print_lines(rt: &HostRuntime, bytes: &[u8]) -> io::Result<()> {
    let Ok(lines) = count_lines(bytes) else {
        return Ok(());
    };
    for line in 0..lines {
        match read_line(bytes, lines, line) {
            Some(words) => println!(rt; "line {line}: {words}")?,
            None => println!(rt; "line {line}: not read")?,
        }
    }
    Ok(())
}

// Prints whether the sheet passes, or its refusal and what was expected there.
pub fn print_verdict(
    rt: &HostRuntime,
    bytes: &[u8],
    answer: Result<(), SheetFault>,
) -> io::Result<()> {
    match answer {
        Ok(()) => println!(rt; "passes"),
        Err(fault) => {
            let refused = Refused { fault: &fault };
            let wanted = expected(bytes, &fault);
            println!(rt; "{refused}: expected {wanted}")
        }
    }
}

// Prints why a line of text is no frame.
pub fn print_text_fault(rt: &HostRuntime, row: usize, fault: TextFault) -> io::Result<()> {
    println!(rt; "text line {row}: {fault}")
}
