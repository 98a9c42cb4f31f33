// The lines of a sheet. Each is a length byte and then a frame of so many bytes.
ghost use Rattle.std.specs.Prelude.{◌≡◌, ℕ, ◌≤◌, Some, MatchResult, length};
ghost use Rattle.std.specs.Iterator.{at_most};
ghost use Rattle.heads.specs.Faults.{shown};
ghost use Rattle.sheet.specs.First.{first};
ghost use Rattle.sheet.specs.Lines.{frame};
ghost use Rattle.sheet.specs.Reading.{Steps, bad_line};
ghost use Rattle.sheet.specs.Verdicts.{length_fault};
ghost use Rattle.sheet.specs.Counting.{Counted};

use heads::fault::SheetFault;

// A length byte, and the frame after it: all that is left where there is less.
#[derive(Clone, Copy)]
pub struct Line<'a> {
    pub length: u8,
    pub frame: &'a [u8],
}

// The lines that are left of a sheet.
#[derive(Clone, Copy, Drop)]
pub struct Lines<'a> {
    rest: &'a [u8],
}

impl<'a> Lines<'a> {
    // The lines of the bytes.
    pub fn new(bytes: &'a [u8]) -> Lines<'a>
        ensures { result.rest.now ≡ bytes.now }
    {
        Lines { rest: bytes }
    }
}

impl<'a> Iterator for Lines<'a> {
    type Item = Line<'a>;

    ghost next_gives = { Steps };

    ghost remaining = { λ l. at_most (length l.rest.now) };

    fn next(&mut self) -> Option<Line<'a>> {
        let (length, tail) = self.rest.split_first()?;
        let (frame, rest) = tail.split_at(tail.len().min(usize::from(*length)));
        self.rest = rest;
        Some(Line {
            length: *length,
            frame,
        })
    }
}

impl Line<'_> {
    // Whether the length byte is 0, above 128 or past the end, or begins a line too many.
    fn fails(&self, line: u8) -> bool
        ensures { result ≡ bad_line line self.now }
    {
        self.length == 0
            || self.length > 128
            || self.frame.len() < usize::from(self.length)
            || line >= 64
    }
}

// The frame of a line; empty where there is no such line.
pub fn frame_at(bytes: &[u8], line: u8) -> &[u8]
    ensures { result.now ≡ frame bytes.now line }
{
    match Lines::new(bytes).nth(usize::from(line)) {
        Some(found) => found.frame,
        None => &[],
    }
}

// The number of lines, at most 64, or the first line whose length byte fails.
pub fn count_lines(bytes: &[u8]) -> Result<u8, SheetFault>
    ensures { MatchResult result (λ n. Counted bytes.now n) (λ e. first 65 (length_fault bytes.now) ≡ Some (shown e)) }
{
    let mut lines = 0;
    for line in Lines::new(bytes) {
        if line.fails(lines) {
            return Err(SheetFault::Length { line: lines });
        }
        lines += 1;
    }
    Ok(lines)
}
