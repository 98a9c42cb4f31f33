// A state: rows of so many cards each.
ghost use Rattle.std.specs.Prelude.{◌≤◌};

use crate::row::Row;

#[derive(Clone, Copy)]
pub struct State<'a> {
    pub cards: u8,
    pub rows: &'a [Row],
    ghost few_cards: { cards ≤ 12 },
}
