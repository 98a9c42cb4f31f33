// The marks that cards show, and their order.
ghost use Rattle.std.specs.Prelude.{◌≡◌, ◌-◌, ◌≤◌, length, take, drop, replicate};
ghost use Rattle.std.specs.List.{AllByRecursion};
ghost use Rattle.protocol.specs.Machine.{card_at, marks_at};
ghost use Rattle.protocol.specs.States.{before};

use cards::place::Place;

// The card at a place. A card shows itself as its mark.
pub fn card_at(row: [u8; 12], place: Place) -> u8
    ensures { result ≡ card_at row place.number }
{
    row[usize::from(place.slot().number())]
}

// The marks of the cards at the places, in their order; past them 0. An array by value, which is `Copy`: the least marks
// so far are kept and compared in the innermost loop.
pub fn marks_at(row: [u8; 12], places: &[u8]) -> [u8; 12]
    requires few { length places.now ≤ 12 }
    requires places { AllByRecursion (λ p. (1 ≤ p) × (p ≤ 12)) places.now }
    ensures shown { take (length places.now) result ≡ marks_at places.now row }
    ensures past { drop (length places.now) result ≡ replicate (12 - length places.now) 0 }
{
    let mut marks = [0u8; 12];
    for (i, place) in places.iter().enumerate() {
        marks[i] = card_at(row, Place::at(*place));
    }
    marks
}

// Whether the first list of marks comes before the second in dictionary order.
// Kept by hand: with `a < b`, or with `find` over the zipped lists, `next_marks` takes half as long again.
pub fn before(a: &[u8], b: &[u8]) -> bool
    ensures { result ≡ before a.now b.now }
{
    for (x, y) in a.iter().zip(b) {
        if *x < *y {
            return true;
        }
        if *y < *x {
            return false;
        }
    }
    a.len() < b.len()
}
