// Where a permute sends the cards.
ghost use Rattle.std.specs.Prelude.{◌≡◌, ℕ, pred, ◌<◌, ◌≤◌, map, length, slice_index, slice_index_or};

// Where the card in the slot goes, by the list of places; it stays where there are no more places. A place of number 0
// stands for the first slot.
fn image_of(places: &[u8], slot: usize) -> u8
    requires { slot < 12 }
    ensures { result ≡ slice_index_or (map pred places.now) slot slot }
{
    places
        .get(slot)
        .map_or(slot as u8, |number| number.saturating_sub(1))
}

// Where the cards in the twelve slots go: the card at place p to the place that byte p has.
pub fn images_of(places: &[u8]) -> [u8; 12]
    requires { (i : ℕ) → i < length places.now → slice_index places.now i ≤ 12 }
    ensures { (s : ℕ) → s < 12 → slice_index result s ≡ slice_index_or (map pred places.now) s s }
{
    std::array::from_fn(|slot| image_of(places, slot))
}
