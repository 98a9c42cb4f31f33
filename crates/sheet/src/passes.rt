// The passes of check, each over the whole sheet. A pass answers the first refusal of its kind.
ghost use Rattle.std.specs.Prelude.{◌≡◌, ◌≤◌, length, true, false, Some, MatchResult, MatchOption};
ghost use Rattle.heads.specs.Faults.{shown};
ghost use Rattle.heads.specs.Kinds.{kind_byte};
ghost use Rattle.sheet.specs.Counting.{Counted, Outcome, FramesRead};
ghost use Rattle.sheet.specs.First.{first};
ghost use Rattle.sheet.specs.Lines.{line_count};
ghost use Rattle.sheet.specs.Scripts.{head as head_in};
ghost use Rattle.sheet.specs.Verdicts.{missing_code, layout_fault, line_fault, is_result, kind_at, differs, result_fault, last_fault};

use crate::lines::frame_at;
use crate::read::ReadSheet;
use format::read::{read_frame, read_head, read_layout};
use heads::fault::SheetFault;
use heads::head::Head;
use heads::kind::Kind;

// The least code of the players that the layout lacks.
fn find_missing(players: u8, codes: &[u8]) -> Option<u8>
    requires { players ≤ 3 }
    ensures { result ≡ missing_code players codes.now }
{
    (16..16 + 2 * players).find(|code| !codes.contains(code))
}

// The frame of line 1, and then that no player's code is missing.
fn check_layout(head: &Head, bytes: &[u8]) -> Result<(), SheetFault>
    requires { (length bytes.now ≤ 128) × (head.now.players ≤ 3) }
    ensures { Outcome result (layout_fault head.now bytes.now) }
{
    let codes = read_layout(head, bytes)?;
    match find_missing(head.players, codes) {
        Some(code) => Err(SheetFault::PlayerCode { code }),
        None => Ok(()),
    }
}

// Each frame, line by line. Answers the head.
pub fn check_frames(bytes: &[u8], lines: u8) -> Result<Head, SheetFault>
    requires { (Counted bytes.now lines) × (3 ≤ lines) }
    ensures { MatchResult result (λ h. FramesRead bytes.now lines h) (λ e. first lines (line_fault bytes.now) ≡ Some (shown e)) }
{
    let head = read_head(frame_at(bytes, 0))?;
    check_layout(&head, frame_at(bytes, 1))?;
    for line in 2..lines {
        let _frame = read_frame(&head, lines, line, frame_at(bytes, line))?;
    }
    Ok(head)
}

// The kind of the result at a line, none where the line is no result.
fn result_at(bytes: &[u8], line: u8) -> Option<Kind>
    ensures { MatchOption result (is_result (kind_at bytes.now line) ≡ false) (λ k. (is_result (kind_at bytes.now line) ≡ true) × (kind_byte k ≡ kind_at bytes.now line)) }
{
    match Kind::try_from(*frame_at(bytes, line).first()?) {
        Ok(kind @ (Kind::Committed | Kind::Open)) => Some(kind),
        Ok(_) => None,
        Err(_) => None,
    }
}

// Whether the line is a result of another kind than the head's output asks for.
fn differs(bytes: &[u8], head: &Head, line: u8) -> bool
    requires { head.now ≡ head_in bytes.now }
    ensures { result ≡ differs bytes.now line }
{
    let wanted = Kind::from(head.output);
    result_at(bytes, line).is_some_and(|kind| kind != wanted)
}

// Each result has the kind that the head's output asks for.
pub fn check_results(bytes: &[u8], lines: u8, head: &Head) -> Result<(), SheetFault>
    requires { head.now ≡ head_in bytes.now }
    ensures { Outcome result (first lines (result_fault bytes.now)) }
{
    match (0..lines).find(|line| differs(bytes, head, *line)) {
        Some(line) => Err(SheetFault::ResultKind { line }),
        None => Ok(()),
    }
}

// The last line is a result.
pub fn check_last(bytes: &[u8], lines: u8) -> Result<(), SheetFault>
    requires { (lines ≡ line_count bytes.now) × (1 ≤ lines) }
    ensures { Outcome result (last_fault bytes.now) }
{
    let line = lines - 1;
    match result_at(bytes, line) {
        Some(_) => Ok(()),
        None => Err(SheetFault::LastLine { line }),
    }
}

impl ReadSheet<'_> {
    // Each result has the kind that the head's output asks for.
    pub fn check_results(&self) -> Result<(), SheetFault>
        ensures { Outcome result (first self.now.lines (result_fault self.now.bytes.now)) }
    {
        check_results(self.bytes, self.lines, &self.head)
    }

    // The last line is a result.
    pub fn check_last(&self) -> Result<(), SheetFault>
        ensures { Outcome result (last_fault self.now.bytes.now) }
    {
        check_last(self.bytes, self.lines)
    }
}
