// A row put into an ascending run of rows.
ghost use Rattle.std.specs.Prelude.{◌≡◌, ℕ, ◌+◌, ◌^◌, ◌<◌, ◌≤◌, false, length, take, is_some, slice_index};
ghost use Rattle.protocol.specs.States.{added, join, total_of, Ascending};
ghost use Rattle.rows.specs.Views.{row_view, rows_view, sequence_at, Put};

use crate::row::Row;

// Adds weights to weights, input by input.
pub fn add(sums: &mut [u64; 8], weights: &[u64; 8])
    requires { (b : ℕ) → b < 8 → slice_index sums.old b + slice_index weights.now b < 2 ^ 64 }
    ensures { sums.new ≡ added sums.old weights.now }
{
    // By index: a proof does not know what `iter_mut` writes, and a sum by value, from `from_fn`, takes a tenth longer.
    for (b, weight) in weights.iter().enumerate() {
        sums[b] += *weight;
    }
}

// Puts the row into the ascending run of the first `len` rows, or adds its weights to those of the row with its
// sequence. Answers the length of the run then, or none where there is no room for one row more.
// The room and the length stand apart: of a struct of both that a loop changes, a proof loses what the room holds.
pub fn join(rows: &mut [Row], len: usize, row: &Row) -> Option<usize>
    requires within { len ≤ length rows.old }
    requires ascending { Ascending (rows_view (take len rows.old)) }
    requires small { (b : ℕ) → b < 8 → total_of b (rows_view (take len rows.old)) + slice_index row.now.weights b < 2 ^ 64 }
    ensures put { Put result (join (row_view row.now) (rows_view (take len rows.old))) rows.old rows.new }
    ensures kept { is_some result ≡ false → rows.new ≡ rows.old }
{
    let at = rows[..len].partition_point(|other| other.sequence < row.sequence);
    if at < len && rows[at].sequence == row.sequence {
        add(&mut rows[at].weights, &row.weights);
        return Some(len);
    }
    if len >= rows.len() {
        return None;
    }
    rows[at..len + 1].rotate_right(1);
    rows[at] = *row;
    Some(len + 1)
}
