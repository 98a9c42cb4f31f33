// The start state: what the layout lays for each input.
ghost use Rattle.std.specs.Prelude.{◌≡◌, ℕ, ◌^◌, ◌<◌, ◌≤◌, length, take, if◌then◌else◌, Some, nat_eq, nat_lt, slice_index};
ghost use Rattle.cards.specs.Lists.{table};
ghost use Rattle.protocol.specs.Machine.{Protocol, laid};
ghost use Rattle.protocol.specs.States.{unit_row, start_state, total_of};
ghost use Rattle.rows.specs.Views.{row_view, rows_view, Lays, Put};

use crate::join::join;
use crate::row::Row;
use cards::deck::Deck;
use cards::row::Row as Cards;
use script::inputs::count_inputs;

// The cards that the layout lays for the input.
pub fn lay<D: Deck>(deck: &D, codes: &[u8], input: u8) -> Cards
    ensures { result.cards ≡ table 12 (λ s. (if nat_lt s (length codes.now) then (D.Deck.means deck.now).card (slice_index codes.now s) input else 0)) }
{
    Cards {
        cards: std::array::from_fn(|s| {
            if s < codes.len() {
                deck.card(codes[s], input)
            } else {
                0
            }
        }),
    }
}

// The sequence laid for the input, with weight 1 under it.
fn unit<D: Deck>(deck: &D, codes: &[u8], input: u8) -> Row
    requires codes { length codes.now ≤ 12 }
    requires input { input < 8 }
    ensures weights { result.weights ≡ table 8 (λ b. (if nat_eq b input then 1 else 0)) }
    ensures value { (p : Protocol) (players : ℕ) → Lays p players codes.now (D.Deck.means deck.now) → row_view result ≡ unit_row p input }
{
    let mut weights = [0u64; 8];
    weights[usize::from(input)] = 1;
    Row {
        sequence: lay(deck, codes, input).pack(codes.len() as u8),
        weights,
    }
}

// The start state of a layout of these codes for so many players. Its total is 1 under each input.
pub fn start<D: Deck>(deck: &D, players: u8, codes: &[u8], room: &mut [Row]) -> Option<usize>
    requires players { players ≤ 3 }
    requires codes { length codes.now ≤ 12 }
    ensures put { (p : Protocol) → Lays p players codes.now (D.Deck.means deck.now) → Put result (start_state p) room.old room.new }
    ensures totals { (len b : ℕ) → result ≡ Some len → b < 8 → total_of b (rows_view (take len room.new)) ≡ (if nat_lt b (2 ^ players) then 1 else 0) }
{
    let mut len = 0;
    for input in 0..count_inputs(players) {
        let row = unit(deck, codes, input);
        len = join(room, len, &row)?;
    }
    Some(len)
}
