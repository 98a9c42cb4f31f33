// A shuffle whose permutations are listed, each with a weight.
ghost use Rattle.std.specs.Prelude.{◌≡◌, ◌<◌, ◌≤◌, true, false, [], MatchOption, slice_index_or};
ghost use Rattle.cards.specs.Shuffles.{explicit, entries_fit, entries_of, spelled, counted, sound_entries, weights};
ghost use Rattle.shuffles.specs.Entries.{lawful_explicit};

use crate::bytes::Bytes;
use crate::lists::all_distinct;
use crate::shuffle::Shuffle;
use cards::place::Slot;

// The entries as bytes: of each its weight, and then the image of each slot. An entry of weight g takes g draws in a
// row, in the order of the entries. The list fits where there are 1 to 12 slots, each entry has a weight of 1 or more
// and a permutation of the slots, and the weights add up to 1 to 65,535; else the shuffle has one slot and one draw and
// moves nothing.
#[derive(Clone, Copy, Drop)]
pub struct Explicit<L> {
    pub slots: u8,
    pub entries: L,
}

// The weights added up, none where some entry is not a weight of 1 or more and a permutation of the slots, or where the
// sum is above 65,535.
fn total_of(slots: u8, entries: &[u8]) -> Option<u16>
    requires { 1 ≤ slots }
    ensures { MatchOption result (counted slots (entries_of slots entries.now) ≡ false) (λ t. (counted slots (entries_of slots entries.now) ≡ true) × (t ≡ weights (entries_of slots entries.now))) }
{
    let width = usize::from(slots);
    let mut total = 0u16;
    let mut rest = entries;
    while let [weight, others @ ..] = rest {
        if others.len() < width {
            return None;
        }
        let (images, next) = others.split_at(width);
        if *weight == 0 || !all_distinct(0, slots - 1, images) {
            return None;
        }
        total = total.checked_add(u16::from(*weight))?;
        rest = next;
    }
    Some(total)
}

// The image of the slot in the entry to which the draw falls.
fn image_in(slots: u8, entries: &[u8], draw: u16, slot: u8) -> u8
    requires sound { sound_entries slots (entries_of slots entries.now) ≡ true }
    requires inside { slot < slots }
    ensures { result ≡ slice_index_or (slice_index_or (spelled (entries_of slots entries.now)) draw []) slot slot }
{
    let width = usize::from(slots);
    let mut left = draw;
    let mut rest = entries;
    while let [weight, others @ ..] = rest {
        let (images, next) = others.split_at(width);
        let weight = u16::from(*weight);
        if left < weight {
            return images[usize::from(slot)];
        }
        left -= weight;
        rest = next;
    }
    slot
}

impl<L: Bytes> Explicit<L> {
    // The number of draws, none where the list does not fit.
    pub fn draws(&self) -> Option<u16>
        ensures { MatchOption result (entries_fit self.now.slots (entries_of self.now.slots (L.Bytes.listed self.now.entries)) ≡ false) (λ t. (entries_fit self.now.slots (entries_of self.now.slots (L.Bytes.listed self.now.entries)) ≡ true) × (t ≡ weights (entries_of self.now.slots (L.Bytes.listed self.now.entries)))) }
    {
        if !(1..=12).contains(&self.slots) {
            return None;
        }
        total_of(self.slots, self.entries.bytes()).filter(|total| *total >= 1)
    }
}

impl<L: Bytes> Shuffle for Explicit<L> {
    ghost means = { λ e. explicit e.slots (entries_of e.slots (L.Bytes.listed e.entries)) };

    ghost lawful = { λ e. lawful_explicit e.slots (entries_of e.slots (L.Bytes.listed e.entries)) };

    fn width(&self) -> u8 {
        if self.draws().is_some() {
            self.slots
        } else {
            1
        }
    }

    fn total(&self) -> u16 {
        self.draws().unwrap_or(1)
    }

    fn image(&self, draw: u16, slot: Slot) -> Slot {
        let s = slot.number();
        match self.draws() {
            Some(total) if draw < total && s < self.slots => Slot::at(image_in(
                self.slots,
                self.entries.bytes(),
                draw,
                s,
            )),
            _ => slot,
        }
    }
}
