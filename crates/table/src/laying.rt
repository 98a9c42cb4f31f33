// The cards that a script lays for an input.
ghost use Rattle.std.specs.Prelude.{◌^◌, ◌≤◌, MatchOption};
ghost use Rattle.table.specs.Views.{LaidFor};
ghost use Rattle.sheet.specs.Sheets.{script as model_of};

use cards::deck::Deck;
use cards::row::Row;
use rows::start::lay;
use script::inputs::count_inputs;
use sheet::states::CheckedScript;

// The row laid for the number; none where it is no input.
pub(crate) fn lay_cards<D: Deck>(checked: &CheckedScript, deck: &D, number: u8) -> Option<Row>
    ensures { MatchOption result (2 ^ (model_of checked.now).players ≤ number) (LaidFor checked.now (D.Deck.means deck.now) number) }
{
    if number >= count_inputs(checked.head().players) {
        return None;
    }
    Some(lay(deck, checked.codes(), number))
}
