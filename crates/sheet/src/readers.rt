// What a checked script says, read from its bytes when it is wanted. None of this can be refused.
ghost use Rattle.std.specs.Prelude.{◌≡◌, ◌<◌, ◌≤◌};
ghost use Rattle.format.specs.Parts.{parts};
ghost use Rattle.format.specs.Views.{view};
ghost use Rattle.sheet.specs.Actions.{shows};
ghost use Rattle.sheet.specs.Lines.{frame as frame_of};
ghost use Rattle.sheet.specs.Scripts.{head as head_in};
ghost use Rattle.script.specs.Model.{LawfulScript};
ghost use Rattle.sheet.specs.Laws.{SmallProducts};
ghost use Rattle.sheet.specs.Sheets.{script, script_bytes};

use crate::action::Action;
use crate::lines::frame_at;
use crate::read::ReadSheet;
use crate::states::CheckedScript;
use format::frame::Frame;
use heads::head::{Head, head_from};

impl CheckedScript {
    pub(crate) fn read(&self) -> ReadSheet<'_>
        ensures { result.bytes.now ≡ script_bytes self.now }
    {
        ReadSheet::of_passing(self.sheet.written())
    }

    // The number of lines. A checked script is lawful, and the products of totals along its paths are small.
    pub fn lines(&self) -> u8
        ensures count { result ≡ (script self.now).lines }
        ensures lawful { LawfulScript (script self.now) }
        ensures small { SmallProducts (script self.now) }
    {
        self.read().lines
    }

    // The deck, the cards, the players, the function and the output.
    pub fn head(&self) -> Head
        ensures { result ≡ head_in (script_bytes self.now) }
    {
        head_from(frame_at(self.sheet.written(), 0))
    }

    // The codes at the places 1 to n.
    pub fn codes(&self) -> &[u8]
        ensures { result.now ≡ (script self.now).codes }
    {
        match frame_at(self.sheet.written(), 1) {
            [_, codes @ ..] => codes,
            [] => unreachable(),
        }
    }

    // What a line does.
    pub fn action(&self, line: u8) -> Action<'_>
        ensures { shows result ≡ (script self.now).action line }
    {
        self.read().action(line)
    }

    // The frame of a line from 2 on, with its parts.
    pub fn frame(&self, line: u8) -> Frame<'_>
        requires { (2 ≤ line) × (line < (script self.now).lines) }
        ensures { view result ≡ parts (frame_of (script_bytes self.now) line) }
    {
        match self.read().frame(line) {
            Some(frame) => frame,
            None => unreachable(),
        }
    }
}
