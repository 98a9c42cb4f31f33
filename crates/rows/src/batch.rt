// Rows held back in a batch behind a run, so that the rows of the run move once a batch and not once a row.
ghost use Rattle.std.specs.Prelude.{◌≡◌, ℕ, List, ◌+◌, ◌-◌, ◌^◌, ◌<◌, ◌≤◌, true, false, length, take, drop, slice_index};
ghost use Rattle.protocol.specs.States.{join, total_of, Ascending};
ghost use Rattle.rows.specs.Views.{row_view, rows_view, sequence_at, Written};
ghost use Rattle.rows.specs.Batches.{all_joined, held_state, Apart, Holding, Held, PutAside};

use crate::join::{add, join};
use crate::row::Row;

// The rows of a full batch.
pub const BATCH: usize = 64;

// Adds the weights of the row to those of the row of the run with its sequence. Answers whether there is one.
pub fn add_same(run: &mut [Row], row: &Row) -> bool
    requires ascending { Ascending (rows_view run.old) }
    requires small { (b : ℕ) → b < 8 → total_of b (rows_view run.old) + slice_index row.now.weights b < 2 ^ 64 }
    ensures joined { result ≡ true → rows_view run.new ≡ join (row_view row.now) (rows_view run.old) }
    ensures sequences { (i : ℕ) → sequence_at run.new i ≡ sequence_at run.old i }
    ensures kept { result ≡ false → run.new ≡ run.old }
    ensures none { result ≡ false → (i : ℕ) → i < length run.old → sequence_at run.old i ≡ row.now.sequence → ⊥ }
{
    let at = run.partition_point(|other| other.sequence < row.sequence);
    if at < run.len() && run[at].sequence == row.sequence {
        add(&mut run[at].weights, &row.weights);
        return true;
    }
    false
}

// Joins the row to the run and its batch, whose rows are those up to `end`: its weights to the row of the run with its
// sequence, or the row into the batch. Answers where the batch ends then, or none where there is no room.
pub fn put_aside(room: &mut [Row], len: usize, end: usize, row: &Row) -> Option<usize>
    requires holding { Holding len end room.old }
    requires small { (b : ℕ) → b < 8 → total_of b (held_state len end room.old) + slice_index row.now.weights b < 2 ^ 64 }
    ensures put { PutAside result len end (join (row_view row.now) (held_state len end room.old)) room.old room.new }
{
    // With no run yet, the batch is the state, and costs no more than a run would.
    if len == 0 {
        return join(room, end, row);
    }
    let (run, held) = room.split_at_mut(len);
    if add_same(run, row) {
        return Some(end);
    }
    let count = join(held, end - len, row)?;
    Some(len + count)
}

// Puts the rows past the run into it, the last of them first: each goes with those before it to its place, over the
// rows of the run that come after it.
pub fn settle(rows: &mut [Row], len: usize)
    requires holding { Holding len (length rows.old) rows.old }
    ensures { rows_view rows.new ≡ held_state len (length rows.old) rows.old }
{
    let end = rows.len();
    if len == 0 || len == end || rows[len - 1].sequence < rows[len].sequence {
        return;
    }
    let held = end - len;
    let last = rows[end - 1].sequence;
    let at = rows[..len].partition_point(|other| other.sequence < last);
    rows[at..].rotate_right(held);
    settle(&mut rows[..at + held - 1], at);
}

// Where the batch behind a run of so many rows begins: a run shorter than a full batch is all batch.
pub fn batch_start(len: usize) -> usize
    ensures { (room : List Row) → len ≤ length room → Ascending (rows_view (take len room)) → Held result len (rows_view (take len room)) room room }
{
    if len < BATCH {
        return 0;
    }
    len
}

// Puts the rows up to `end` into the run, where they are a full batch. Answers the length of the run then.
pub fn make_way(room: &mut [Row], len: usize, end: usize) -> usize
    requires holding { Holding len end room.old }
    ensures held { Held result end (held_state len end room.old) room.old room.new }
    ensures order { len ≤ result }
{
    if end - len < BATCH {
        return len;
    }
    settle(&mut room[..end], len);
    end
}
