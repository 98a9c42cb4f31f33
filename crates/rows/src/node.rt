// Reading a node: its totals, whether it leaks, and what is wrong at a result.
ghost use Rattle.std.specs.Prelude.{◌≡◌, ℕ, ◌^◌, ◌<◌, ◌≤◌, Bool, not, ◌&&◌, List, length, ◌==◌, slice_index};
ghost use Rattle.cards.specs.Decks.{bit, bit_reading};
ghost use Rattle.protocol.specs.Machine.{Protocol, action_at, given};
ghost use Rattle.protocol.specs.States.{Row as StateRow, cards_of, total_of, totals, alike_under, any_below, leaks, same_reading, errs, first_input, wrongness};
ghost use Rattle.rows.specs.Views.{row_view, rows_view, Small};
ghost use Rattle.rows.specs.Nodes.{action_of, output_of, wrong_view, first_stray, Computes};

use crate::join::add;
use crate::outcome::{Outcome, Wrong};
use crate::row::Row;
use cards::deck::{Deck, bit_of};
use cards::reading::Reading;
use heads::head::{Head, Output};
use script::inputs::count_inputs;

// The weights added up for each input.
pub fn totals(rows: &[Row]) -> [u64; 8]
    requires { Small (λ b. total_of b (rows_view rows.now)) }
    ensures { result ≡ totals (rows_view rows.now) }
{
    let mut totals = [0u64; 8];
    for row in rows {
        add(&mut totals, &row.weights);
    }
    totals
}

// Whether two inputs must look alike: any two under committed output, those of equal value under open output.
fn alike(head: &Head, b: u8, c: u8) -> bool
    requires { (b < 8) × (c < 8) }
    ensures { result ≡ alike_under (output_of head.now.output) (bit head.now.function b) (bit head.now.function c) }
{
    match head.output {
        Output::Committed => true,
        Output::Open => bit_of(head.function, b) == bit_of(head.function, c),
    }
}

// Whether some input that must look like b has another total.
fn differs(head: &Head, sums: &[u64; 8], b: u8) -> bool
    requires { (b < 8) × (head.now.players ≤ 3) }
    ensures { result ≡ any_below (2 ^ head.now.players) (λ c. alike_under (output_of head.now.output) (bit head.now.function b) (bit head.now.function c) && not (slice_index sums.now b == slice_index sums.now c)) }
{
    (0..count_inputs(head.players)).any(|c| alike(head, b, c)
        && sums[usize::from(b)] != sums[usize::from(c)])
}

// Whether a node with these totals leaks: two inputs that must look alike have different totals.
pub fn leaks(head: &Head, sums: &[u64; 8]) -> bool
    requires { head.now.players ≤ 3 }
    ensures { (p : Protocol) (rows : List StateRow) → Computes p head.now.players head.now.function → p.script.output ≡ output_of head.now.output → sums.now ≡ totals rows → result ≡ leaks p rows }
{
    (0..count_inputs(head.players)).any(|b| differs(head, sums, b))
}

// What the row gives at the result line.
fn reading<D: Deck>(deck: &D, cards: u8, outcome: Outcome, row: &Row) -> Reading
    requires { cards ≤ 12 }
    ensures { result ≡ given (D.Deck.means deck.now) (cards_of cards (row_view row.now)) (action_of outcome) }
{
    match outcome {
        Outcome::Committed { left, right } => {
            deck.read(row.card(cards, left), row.card(cards, right))
        }
        Outcome::Opened { value } => Reading::of_bit(value),
    }
}

// What is wrong in a row: the first input under which it has a positive weight and gives another reading than the
// function's value.
fn wrong_input<D: Deck>(deck: &D, head: &Head, outcome: Outcome, row: &Row) -> Option<Wrong>
    requires cards { head.now.cards ≤ 12 }
    requires players { head.now.players ≤ 3 }
    ensures { wrong_view result ≡ first_stray head.now.function (2 ^ head.now.players) (given (D.Deck.means deck.now) (cards_of head.now.cards (row_view row.now)) (action_of outcome)) (row_view row.now) }
{
    let reading = reading(deck, head.cards, outcome, row);
    (0..count_inputs(head.players))
        .find(|input| {
            row.weights[usize::from(*input)] > 0
                && reading != Reading::of_bit(bit_of(head.function, *input))
        })
        .map(|input| Wrong {
            row: *row,
            input,
            reading,
        })
}

// What is wrong at a result line: the first row that gives a wrong reading under an input of positive weight, the first
// such input, and the reading.
pub fn first_wrong<D: Deck>(deck: &D, head: &Head, outcome: Outcome, rows: &[Row]) -> Option<Wrong>
    requires cards { head.now.cards ≤ 12 }
    requires players { head.now.players ≤ 3 }
    ensures { (p : Protocol) (l : ℕ) → Computes p head.now.players head.now.function → p.script.cards ≡ head.now.cards → p.deck ≡ D.Deck.means deck.now → action_at p l ≡ action_of outcome → wrong_view result ≡ wrongness p l (rows_view rows.now) }
{
    rows.iter()
        .find_map(|row| wrong_input(deck, head, outcome, row))
}
