// The children of a turn, one at a time in the order of their marks.
ghost use Rattle.std.specs.Prelude.{◌≡◌, ℕ, ◌-◌, ◌≤◌, length, take, drop, replicate, Some, filter};
ghost use Rattle.std.specs.List.{AllByRecursion};
ghost use Rattle.protocol.specs.States.{shows, is_shown, total_of, children};
ghost use Rattle.rows.specs.Views.{row_view, rows_view, Put};
ghost use Rattle.rows.specs.Turns.{follows, leads, rows_after, Next};
ghost use Rattle.std.proofs.Props.{props};

use crate::marks::before;
use crate::row::Row;
use crate::state::State;
use cards::place::Place;

// Whether marks of so many places come after the last ones; any do where there are none.
fn comes_after(last: Option<[u8; 12]>, marks: [u8; 12], places: usize) -> bool
    requires { places ≤ 12 }
    ensures { result ≡ follows last marks places }
{
    // Kept as a match, as the one below: in a closure of `is_none_or` the proof does not know the bound on the places.
    match last {
        Some(last) => before(&last[..places], &marks[..places]),
        None => true,
    }
}

// Whether marks of so many places come before the least ones so far; any do where there are none.
fn comes_first(least: Option<[u8; 12]>, marks: [u8; 12], places: usize) -> bool
    requires { places ≤ 12 }
    ensures { result ≡ leads least marks places }
{
    match least {
        Some(least) => before(&marks[..places], &least[..places]),
        None => true,
    }
}

// A state whose cards are turned at some places.
#[derive(Clone, Copy)]
pub struct Turned<'a> {
    pub state: State<'a>,
    pub places: &'a [u8],
    ghost few: { length places.now ≤ 12 },
    ghost inside: { AllByRecursion (λ p. (1 ≤ p) × (p ≤ state.cards)) places.now } by { Prim.hlevel props },
}

impl Turned<'_> {
    // The marks that a row shows at the places, in their order; past them 0.
    pub fn shown(&self, row: &Row) -> [u8; 12]
        ensures shown { take (length self.now.places.now) result ≡ shows self.now.state.cards self.now.places.now (row_view row.now) }
        ensures past { drop (length self.now.places.now) result ≡ replicate (12 - length self.now.places.now) 0 }
    {
        let mut marks = [0u8; 12];
        for (i, place) in self.places.iter().enumerate() {
            marks[i] = row.card(self.state.cards, Place::at(*place));
        }
        marks
    }

    // The marks of the next child: the least above the last ones, or the least of all where there are none. None where
    // no row shows such marks.
    pub fn next_marks(&self, last: Option<[u8; 12]>) -> Option<[u8; 12]>
        ensures { Next self.now.state.cards self.now.places.now (rows_view self.now.state.rows.now) result (children self.now.state.cards self.now.places.now (rows_after self.now.state.cards self.now.places.now last (rows_view self.now.state.rows.now))) }
    {
        let places = self.places.len();
        let mut least: Option<[u8; 12]> = None;
        // Kept as a loop: a chain that ends in `min`, `min_by` or `fold` takes half as long again.
        for row in self.state.rows {
            let marks = self.shown(row);
            if comes_after(last, marks, places) && comes_first(least, marks, places) {
                least = Some(marks);
            }
        }
        least
    }

    // The rows that show the marks, copied in their order. Their totals are at most those of all the rows.
    pub fn gather(&self, marks: [u8; 12], room: &mut [Row]) -> Option<usize>
        ensures put { Put result (filter (is_shown self.now.state.cards self.now.places.now (take (length self.now.places.now) marks)) (rows_view self.now.state.rows.now)) room.old room.new }
        ensures totals { (len b : ℕ) → result ≡ Some len → total_of b (rows_view (take len room.new)) ≤ total_of b (rows_view self.now.state.rows.now) }
    {
        let mut len = 0;
        for row in self.state.rows {
            let shows = self.shown(row);
            if shows[..self.places.len()] == marks[..self.places.len()] {
                if len >= room.len() {
                    return None;
                }
                room[len] = *row;
                len += 1;
            }
        }
        Some(len)
    }
}
