// How the steps move a row of cards.
ghost use Rattle.std.specs.Prelude.{◌≡◌, ℕ, pred, ◌<◌, ◌≤◌, map, length, if◌then◌else◌, nat_lt, slice_index, slice_index_or};
ghost use Rattle.cards.specs.Lists.{table};
ghost use Rattle.cards.specs.Rows.{carried};
ghost use Rattle.cards.specs.Shuffles.{image};
ghost use Rattle.protocol.specs.Machine.{fitted};

use cards::row::Row;
use line_parts::images::images_of;
use rows::mix::{fits, images_at};
use shuffles::bank::Bank;

// The row after a permute.
pub(crate) fn permute_row(places: &[u8], row: Row) -> Row
    requires { (i : ℕ) → i < length places.now → slice_index places.now i ≤ 12 }
    ensures { result.cards ≡ carried (λ s. slice_index_or (map pred places.now) s s) row.cards }
{
    row.moved(images_of(places))
}

// The row after the bank's shuffle at a line for so many cards and with so many draws. One of another width or total
// moves nothing.
pub(crate) fn shuffle_row<B: Bank>(
    bank: &B,
    line: u8,
    cards: u8,
    total: u16,
    draw: u16,
    row: Row,
) -> Row
    ensures { result.cards ≡ carried (image (fitted cards total (B.Bank.at bank.now line)) draw) row.cards }
{
    let fits = fits(bank, line, cards, total);
    row.moved(images_at(bank, line, draw, cards, total, fits))
}
