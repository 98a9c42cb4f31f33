// A row of cards.
ghost use Rattle.std.specs.Prelude.{◌≡◌, ◌-◌, ◌/◌, ◌%◌, ◌^◌, ◌<◌, ◌≤◌, if◌then◌else◌, nat_lt, min, slice_index};
ghost use Rattle.cards.specs.Rows.{carried, packed, unpacked, OneToOne, Found, Dealt};

use std::array;

// Twelve cards by value; the card in slot s stands at index s. In a row of n cards the slots from n on hold card 0.
#[derive(Clone, Copy)]
pub struct Row {
    pub cards: [u8; 12],
}

// The digit of base 16 in the slot, of so many digits; past them 0.
pub fn digit(number: u64, digits: usize, slot: usize) -> u8
    requires { digits ≤ 12 }
    ensures { result ≡ (if nat_lt slot digits then (number / 16 ^ (digits - 1 - slot)) % 16 else 0) }
{
    if slot < digits {
        ((number >> (4 * (digits - 1 - slot))) % 16) as u8
    } else {
        0
    }
}

// So many of the lowest digits of base 16; past them 0.
fn digits(number: u64, digits: usize) -> [u8; 12]
    requires { digits ≤ 12 }
    ensures { result ≡ unpacked digits number }
{
    // The first of them goes to the twelfth place, so that each is taken by a shift that is known.
    let aligned = number << (4 * (12 - digits));
    array::from_fn(|s| ((aligned >> (4 * (11 - s))) % 16) as u8)
}

impl Row {
    // The row after each card has moved: the card in slot s goes to slot images[s]. An image of 12 or more moves no card.
    pub fn moved(self, images: [u8; 12]) -> Row
        ensures value { result.cards ≡ carried (λ s. slice_index images s) self.cards }
        ensures found { OneToOne 12 (λ s. slice_index images s) → Found (λ s. slice_index images s) self.cards result.cards }
    {
        let mut after = self.cards;
        for (card, to) in self.cards.iter().zip(images.iter()) {
            if *to < 12 {
                after[usize::from(*to)] = *card;
            }
        }
        Row { cards: after }
    }

    // The sequence number of the first n cards: base 16, place 1 highest. Where n is above 12, of all twelve.
    pub fn pack(self, n: u8) -> u64
        ensures value { result ≡ packed n self.cards }
        ensures back { n ≤ 12 → Dealt n self.cards → unpacked n result ≡ self.cards }
    {
        let mut number = 0u64;
        for card in &self.cards[..usize::from(n.min(12))] {
            number = number * 16 + u64::from(*card);
        }
        number
    }

    // The row of n cards with the sequence number: its n lowest digits of base 16, and card 0 beyond place n. Where n is
    // above 12, all twelve.
    pub fn unpack(n: u8, number: u64) -> Row
        ensures value { result.cards ≡ unpacked (min n 12) number }
        ensures dealt { Dealt (min n 12) result.cards }
        ensures back { n ≤ 12 → number < 16 ^ n → packed n result.cards ≡ number }
    {
        Row {
            cards: digits(number, usize::from(n.min(12))),
        }
    }
}
