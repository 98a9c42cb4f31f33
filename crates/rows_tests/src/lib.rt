// Rows at their edges, by tables. The operations of the crate `rows` ask that sums fit; these forms of them test it.
#![tactic(auto)]

ghost use Rattle.std.specs.Prelude.{◌≡◌, ℕ, ◌^◌, ◌<◌, ◌≤◌, true, length, replicate, slice_index};
ghost use Rattle.protocol.specs.States.{total_of};
ghost use Rattle.rows.specs.Views.{rows_view, zero_row};

use cards::deck::TwoColour;
use rows::guard::Guard;
use rows::node;
use rows::row::Row;
use rows::start::start;
use rows::state::State;
use shuffles::bank::Bank;

mod tests;

// Whether each weight of the row is below 65,536.
fn light(row: &Row) -> bool
    ensures { result ≡ true → (b : ℕ) → b < 8 → slice_index row.now.weights b ≤ 65535 }
{
    row.weights.iter().all(|weight| *weight <= 65535)
}

// Whether there are at most 65,536 rows, with weights below 65,536.
fn few(rows: &[Row]) -> bool
    ensures { result ≡ true → (b : ℕ) → b < 8 → total_of b (rows_view rows.now) ≤ 2 ^ 32 }
{
    if rows.len() > 65536 {
        return false;
    }
    for row in rows {
        if !light(row) {
            return false;
        }
    }
    true
}

fn permuted(cards: u8, images: [u8; 12], rows: &[Row], room: &mut [Row]) -> Option<usize> {
    if cards > 12 || !few(rows) {
        return None;
    }
    State { cards, rows }.permute(images, room)
}

fn shuffled<B: Bank>(
    bank: &B,
    cards: u8,
    total: u16,
    rows: &[Row],
    room: &mut [Row],
) -> Option<usize> {
    if cards > 12 || !few(rows) {
        return None;
    }
    State { cards, rows }.shuffle(bank, 2, total, room)
}

fn totalled(rows: &[Row]) -> Option<[u64; 8]> {
    if !few(rows) {
        return None;
    }
    Some(node::totals(rows))
}

// The number of rows of the start state of two players with four cards, and of its state after a permute that moves
// nothing, none where either finds no room. Each row of the bench is zero then.
fn counted(bench: &mut [Row]) -> Option<(usize, usize)>
    ensures { bench.new ≡ replicate (length bench.old) zero_row }
{
    let guard = Guard { rows: bench };
    let first = start(&TwoColour, 2, &[16, 17, 18, 19], guard.rows)?;
    if first > guard.rows.len() {
        return None;
    }
    let (rows, room) = guard.rows.split_at_mut(first);
    let second = permuted(4, [0, 1, 2, 3, 4, 5, 6, 7, 8, 9, 10, 11], rows, room)?;
    Some((first, second))
}
