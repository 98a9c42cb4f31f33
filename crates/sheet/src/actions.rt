// The action at a line, read from its frame when it is wanted.
ghost use Rattle.std.specs.Prelude.{◌≡◌, ℕ, suc, ◌+◌, ◌<◌, ◌≤◌, length};
ghost use Rattle.cards.specs.Shuffles.{weights, entries_of};
ghost use Rattle.format.specs.Views.{view};
ghost use Rattle.sheet.specs.Actions.{shows, written_entries};
ghost use Rattle.sheet.specs.Products.{total as draws, shuffles as draws_some, leads, targets};
ghost use Rattle.sheet.specs.Scripts.{action_of, branches_of};

use crate::action::Action;
use crate::branches::Branches;
use format::frame::Frame;

// The sum of the weights of the entries: each has a weight and then the images of the slots.
pub fn total_weight(slots: u8, entries: &[u8]) -> u16
    requires { length entries.now ≤ 128 }
    ensures { result ≡ weights (entries_of slots entries.now) }
{
    entries
        .iter()
        .step_by(usize::from(slots) + 1)
        .map(|weight| u16::from(*weight))
        .sum()
}

// Whether a branch of a turn of so many cards goes to the line.
fn has_target(turned: usize, branches: &[u8], line: u8) -> bool
    ensures { result ≡ targets (branches_of turned branches.now) line }
{
    Branches::new(turned, branches).any(|branch| branch.target == line)
}

// What the frame at a line does.
pub fn act<'a>(line: u8, frame: Frame<'a>) -> Action<'a>
    requires { (line < 64) × (length (written_entries (view frame)) ≤ 128) }
    ensures { shows result ≡ action_of line (view frame.entry) }
{
    let next = line + 1;
    match frame {
        Frame::Permute { places } => Action::Permute { places, next },
        Frame::Cut { slots, .. } => Action::Shuffle {
            total: u16::from(slots),
            next,
        },
        Frame::Explicit { slots, entries, .. } => Action::Shuffle {
            total: total_weight(slots, entries),
            next,
        },
        Frame::Turn { places, branches } => Action::Turn { places, branches },
        Frame::Committed { left, right } => Action::Committed { left, right },
        Frame::Open { value } => Action::Open { value },
    }
}

impl Action<'_> {
    // How many draws the line has: one where there is nothing to draw.
    pub fn total(&self) -> u16
        ensures { result ≡ draws (shows self.now) }
    {
        match self {
            Action::Shuffle { total, .. } => *total,
            _ => 1,
        }
    }

    pub fn is_shuffle(&self) -> bool
        ensures { result ≡ draws_some (shows self.now) }
    {
        matches!(self, Action::Shuffle { .. })
    }

    // Whether the line may go on to that one.
    pub fn leads_to(&self, line: u8) -> bool
        ensures { result ≡ leads (shows self.now) line }
    {
        match self {
            Action::Permute { next, .. } | Action::Shuffle { next, .. } => *next == line,
            Action::Turn { places, branches } => has_target(places.len(), branches, line),
            _ => false,
        }
    }
}
