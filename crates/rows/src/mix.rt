// The state after a permute or a shuffle: one run of rows is read, another written in order with weights joined.
ghost use Rattle.std.specs.Prelude.{◌≡◌, ℕ, ◌+◌, ◌*◌, ◌<◌, ◌≤◌, ◌&&◌, List, length, take, Some, ◌==◌, slice_index, slice_index_or};
ghost use Rattle.cards.specs.Lists.{table};
ghost use Rattle.cards.specs.Shuffles.{image};
ghost use Rattle.protocol.specs.Machine.{Protocol, Mixing, permuting, shuffling, fitted};
ghost use Rattle.protocol.specs.States.{total_of, row_after, joined_after, mixed, Ascending};
ghost use Rattle.rows.specs.Views.{row_view, rows_view, Sends, Small, Shuffles, Put};

use crate::batch::{batch_start, make_way, put_aside, settle};
use crate::join::join;
use crate::row::Row;
use crate::state::State;
use shuffles::bank::Bank;

// A run with fewer rows than this is short.
const SHORT: usize = 512;

// The row after its cards have moved, each from slot s to slot images[s]; it keeps its weights.
fn moved(cards: u8, images: [u8; 12], row: &Row) -> Row
    requires { cards ≤ 12 }
    ensures weights { result.weights ≡ row.now.weights }
    ensures value { (m : Mixing) (d : ℕ) → Sends images m d → row_view result ≡ row_after cards m d (row_view row.now) }
{
    Row {
        sequence: row.cards(cards).moved(images).pack(cards),
        weights: row.weights,
    }
}

// Whether the bank's shuffle at the line is one of so many cards and so many draws.
pub fn fits<B: Bank>(bank: &B, line: u8, cards: u8, total: u16) -> bool
    ensures { result ≡ ((B.Bank.at bank.now line).width == cards && (B.Bank.at bank.now line).total == total) }
{
    bank.width(line) == cards && bank.total(line) == total
}

// The images of the twelve slots under a draw; where the bank's shuffle does not fit the line, every slot stays. Whether
// it fits comes as a flag, since it is asked once for all draws.
pub fn images_at<B: Bank>(
    bank: &B,
    line: u8,
    draw: u16,
    cards: u8,
    total: u16,
    fits: bool,
) -> [u8; 12]
    requires { fits ≡ ((B.Bank.at bank.now line).width == cards && (B.Bank.at bank.now line).total == total) }
    ensures { result ≡ table 12 (image (fitted cards total (B.Bank.at bank.now line)) draw) }
{
    if fits {
        bank.images(line, draw)
    } else {
        std::array::from_fn(|s| s as u8)
    }
}

impl State<'_> {
    // Joins the rows, each after its cards have moved and each to its place, to the run of the first `len` rows of the room.
    fn join_each(&self, images: [u8; 12], room: &mut [Row], len: usize) -> Option<usize>
        requires within { len ≤ length room.old }
        requires ascending { Ascending (rows_view (take len room.old)) }
        requires small { Small (λ b. total_of b (rows_view self.now.rows.now) + total_of b (rows_view (take len room.old))) }
        ensures put { (m : Mixing) (d : ℕ) → Sends images m d → Put result (joined_after self.now.cards m d (rows_view self.now.rows.now) (rows_view (take len room.old))) room.old room.new }
        ensures totals { (end b : ℕ) → result ≡ Some end → b < 8 → total_of b (rows_view (take end room.new)) ≡ total_of b (rows_view self.now.rows.now) + total_of b (rows_view (take len room.old)) }
    {
        let mut len = len;
        for row in self.rows {
            let row = moved(self.cards, images, row);
            len = join(room, len, &row)?;
        }
        Some(len)
    }

    // The same, with the rows that are new held back in batches behind the run.
    fn join_batches(&self, images: [u8; 12], room: &mut [Row], len: usize) -> Option<usize>
        requires within { len ≤ length room.old }
        requires ascending { Ascending (rows_view (take len room.old)) }
        requires small { Small (λ b. total_of b (rows_view self.now.rows.now) + total_of b (rows_view (take len room.old))) }
        ensures put { (m : Mixing) (d : ℕ) → Sends images m d → Put result (joined_after self.now.cards m d (rows_view self.now.rows.now) (rows_view (take len room.old))) room.old room.new }
        ensures totals { (end b : ℕ) → result ≡ Some end → b < 8 → total_of b (rows_view (take end room.new)) ≡ total_of b (rows_view self.now.rows.now) + total_of b (rows_view (take len room.old)) }
    {
        let mut end = len;
        let mut len = batch_start(len);
        for row in self.rows {
            let row = moved(self.cards, images, row);
            len = make_way(room, len, end);
            end = put_aside(room, len, end, &row)?;
        }
        settle(&mut room[..end], len);
        Some(end)
    }

    // The same, in the way that moves fewer rows: in a short run a row finds its place sooner than a batch does.
    fn join_moved(&self, images: [u8; 12], room: &mut [Row], len: usize) -> Option<usize>
        requires within { len ≤ length room.old }
        requires ascending { Ascending (rows_view (take len room.old)) }
        requires small { Small (λ b. total_of b (rows_view self.now.rows.now) + total_of b (rows_view (take len room.old))) }
        ensures put { (m : Mixing) (d : ℕ) → Sends images m d → Put result (joined_after self.now.cards m d (rows_view self.now.rows.now) (rows_view (take len room.old))) room.old room.new }
        ensures totals { (end b : ℕ) → result ≡ Some end → b < 8 → total_of b (rows_view (take end room.new)) ≡ total_of b (rows_view self.now.rows.now) + total_of b (rows_view (take len room.old)) }
    {
        if len.saturating_add(self.rows.len()) < SHORT {
            self.join_each(images, room, len)
        } else {
            self.join_batches(images, room, len)
        }
    }

    // The state after a permute: the card in slot s goes to slot images[s]. Its totals are those of the rows.
    pub fn permute(&self, images: [u8; 12], room: &mut [Row]) -> Option<usize>
        requires { Small (λ b. total_of b (rows_view self.now.rows.now)) }
        ensures put { (list : List ℕ) (next : ℕ) → ((s : ℕ) → s < 12 → slice_index images s ≡ slice_index_or list s s) → Put result (mixed self.now.cards (permuting list next) (rows_view self.now.rows.now)) room.old room.new }
        ensures totals { (len b : ℕ) → result ≡ Some len → b < 8 → total_of b (rows_view (take len room.new)) ≡ total_of b (rows_view self.now.rows.now) }
    {
        self.join_moved(images, room, 0)
    }

    // The state after a shuffle of so many draws, as the bank has it at the line; a shuffle of another width or total
    // moves nothing there. Its totals are so many times those of the rows.
    pub fn shuffle<B: Bank>(
        &self,
        bank: &B,
        line: u8,
        total: u16,
        room: &mut [Row],
    ) -> Option<usize>
        requires { Small (λ b. total * total_of b (rows_view self.now.rows.now)) }
        ensures put { (p : Protocol) (next : ℕ) → Shuffles p self.now.cards line (B.Bank.at bank.now line) → Put result (mixed self.now.cards (shuffling p line total next) (rows_view self.now.rows.now)) room.old room.new }
        ensures totals { (len b : ℕ) → result ≡ Some len → b < 8 → total_of b (rows_view (take len room.new)) ≡ total * total_of b (rows_view self.now.rows.now) }
    {
        let fits = fits(bank, line, self.cards, total);
        let mut len = 0;
        for draw in 0..total {
            let images = images_at(bank, line, draw, self.cards, total, fits);
            len = self.join_moved(images, room, len)?;
        }
        Some(len)
    }
}
