// Readers of the parts of a frame. Each finds the first byte that is missing, too many or against its rule.
ghost use Rattle.std.specs.Prelude.{◌≡◌, ℕ, suc, ◌≤◌, List, [], None, MatchResult};
ghost use Rattle.format.specs.Form.{wrong, ends};
ghost use Rattle.format.specs.Kinds.{entry_form, entries_form, branch_form, branches_form};
ghost use Rattle.format.specs.Taking.{Passed, Broken, Faulty, FaultyFrom};

use crate::cursor::Cursor;
use crate::rule::{Distinct, Marks};
use heads::fault::SheetFault;
use heads::head::DeckKind;

// The turn whose branches are read: the deck, the number of places turned and the script's last line.
#[derive(Clone, Copy)]
pub struct Turning {
    pub deck: DeckKind,
    pub turned: u8,
    pub last: u8,
}

// Nothing is left of a frame, whose length may be any.
pub fn at_end(line: u8, from: u8, bytes: &[u8]) -> Result<(), SheetFault>
    ensures { MatchResult result (λ _. (bytes.now ≡ []) × (wrong from ends bytes.now ≡ None)) (λ e. Faulty ends from bytes.now line e) }
{
    match bytes {
        [] => Ok(()),
        _ => Err(SheetFault::Byte { line, index: from }),
    }
}

impl<'a> Cursor<'a> {
    // Nothing is left of the frame.
    pub fn end(&self) -> Result<(), SheetFault>
        ensures { MatchResult result (λ _. (self.now.rest.now ≡ []) × (wrong self.now.at ends self.now.rest.now ≡ None)) (λ e. FaultyFrom ends self.now e) }
    {
        at_end(self.line, self.at, self.rest)
    }

    // An entry: a weight, and distinct slots.
    fn entry(&mut self, slots: u8) -> Result<(), SheetFault>
        requires { 1 ≤ slots }
        ensures { MatchResult result (λ _. (x : List ℕ) × Passed (entry_form slots) self.old x self.new) (λ e. Broken (entry_form slots) self.old e) }
    {
        self.byte(|weight| weight >= 1)?;
        let rule = Distinct {
            low: 0,
            high: slots - 1,
        };
        self.list(usize::from(slots), &rule)?;
        Ok(())
    }

    // So many entries, and nothing after them.
    pub fn entries(&mut self, count: u8, slots: u8) -> Result<(), SheetFault>
        requires { 1 ≤ slots }
        ensures { MatchResult result (λ _. wrong self.old.at (entries_form count slots) self.old.rest.now ≡ None) (λ e. FaultyFrom (entries_form count slots) self.old e) }
    {
        for _ in 0..count {
            self.entry(slots)?;
        }
        self.end()
    }

    // A branch: its marks, after those of the branch before it, and its target. Answers the marks.
    fn branch(&mut self, turn: &Turning, previous: &[u8]) -> Result<&'a [u8], SheetFault>
        ensures { MatchResult result (λ marks. Passed (branch_form turn.now.deck turn.now.turned (suc self.old.line) turn.now.last previous.now) self.old marks.now self.new) (λ e. Broken (branch_form turn.now.deck turn.now.turned (suc self.old.line) turn.now.last previous.now) self.old e) }
    {
        let count = usize::from(turn.turned);
        let rule = Marks {
            deck: turn.deck,
            count,
            previous,
        };
        let marks = self.list(count, &rule)?;
        let line = self.line;
        self.byte(|target| target > line && target <= turn.last)?;
        Ok(marks)
    }

    // So many branches, and nothing after them.
    pub fn branches(&mut self, turn: &Turning, count: u8) -> Result<(), SheetFault>
        ensures { MatchResult result (λ _. wrong self.old.at (branches_form turn.now.deck turn.now.turned (suc self.old.line) turn.now.last count []) self.old.rest.now ≡ None) (λ e. FaultyFrom (branches_form turn.now.deck turn.now.turned (suc self.old.line) turn.now.last count []) self.old e) }
    {
        let mut previous: &[u8] = &[];
        for _ in 0..count {
            previous = self.branch(turn, previous)?;
        }
        self.end()
    }
}
