// A sheet whose frames keep their forms.
ghost use Rattle.std.specs.Prelude.{◌≡◌, ◌<◌, ◌≤◌, None, Some, IsSome, MatchOption, MatchResult};
ghost use Rattle.heads.specs.Faults.{shown};
ghost use Rattle.format.specs.Parts.{parts, none};
ghost use Rattle.format.specs.Views.{view};
ghost use Rattle.sheet.specs.Actions.{shows};
ghost use Rattle.sheet.specs.Counting.{Counted, FramesRead};
ghost use Rattle.sheet.specs.Lines.{frame as frame_of};
ghost use Rattle.sheet.specs.Scripts.{action};
ghost use Rattle.sheet.specs.Verdicts.{verdict, form_fault};

use crate::action::Action;
use crate::actions::act;
use crate::lines::{count_lines, frame_at};
use crate::passes::check_frames;
use format::frame::Frame;
use format::read::read_frame;
use heads::fault::SheetFault;
use heads::head::{Head, head_from};

// The bytes, the number of lines and the head.
#[derive(Clone, Copy)]
pub struct ReadSheet<'a> {
    pub bytes: &'a [u8],
    pub lines: u8,
    pub head: Head,
    ghost counted: { Counted bytes.now lines },
    ghost read: { FramesRead bytes.now lines head },
    ghost many: { 3 ≤ lines },
}

impl<'a> ReadSheet<'a> {
    // Counts the lines and reads each frame. A sheet is refused where its lengths, its number of lines or a frame is.
    pub fn read(bytes: &'a [u8]) -> Result<ReadSheet<'a>, SheetFault>
        ensures { MatchResult result (λ s. s.bytes.now ≡ bytes.now) (λ e. form_fault bytes.now ≡ Some (shown e)) }
    {
        let lines = count_lines(bytes)?;
        if lines < 3 {
            return Err(SheetFault::FewLines { lines });
        }
        let head = check_frames(bytes, lines)?;
        Ok(ReadSheet { bytes, lines, head })
    }

    // A sheet that passes, whose frames are not read again.
    pub fn of_passing(bytes: &'a [u8]) -> ReadSheet<'a>
        requires { verdict bytes.now ≡ None }
        ensures { result.bytes.now ≡ bytes.now }
    {
        match count_lines(bytes) {
            Ok(lines) => ReadSheet {
                bytes,
                lines,
                head: head_from(frame_at(bytes, 0)),
            },
            Err(_) => unreachable(),
        }
    }

    // The frame of a line with its parts; none at the head, at the layout and where there is no such line.
    pub fn frame(&self, line: u8) -> Option<Frame<'a>>
        ensures parts { MatchOption result (parts (frame_of self.now.bytes.now line) ≡ none) (λ f. (line < self.now.lines) × (view f ≡ parts (frame_of self.now.bytes.now line))) }
        ensures within { 2 ≤ line → line < self.now.lines → IsSome result }
    {
        if !(2..self.lines).contains(&line) {
            return None;
        }
        match read_frame(&self.head, self.lines, line, frame_at(self.bytes, line)) {
            Ok(frame) => Some(frame),
            Err(_) => unreachable(),
        }
    }

    // What a line does.
    pub fn action(&self, line: u8) -> Action<'a>
        ensures { shows result ≡ action self.now.bytes.now line }
    {
        match self.frame(line) {
            Some(frame) => act(line, frame),
            None => Action::Nothing,
        }
    }
}
