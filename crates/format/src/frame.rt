// Frames of line 2 or later.

// A frame with its parts, which are lent from the sheet.
#[derive(Clone, Copy)]
pub enum Frame<'a> {
    // Byte p of `places` is where the card at place p goes.
    Permute {
        places: &'a [u8],
    },
    // A cut of `slots` under piles of `piles` under the listed places.
    Cut {
        piles: u8,
        slots: u8,
        places: &'a [u8],
    },
    // A shuffle by entries, each a weight and the images of the slots, under piles under the listed places.
    Explicit {
        piles: u8,
        slots: u8,
        places: &'a [u8],
        entries: &'a [u8],
    },
    // The cards at `places` are turned; each branch has a mark for each of them and the line that it goes to.
    Turn {
        places: &'a [u8],
        branches: &'a [u8],
    },
    // The result is what the pair of cards at the two places reads.
    Committed {
        left: u8,
        right: u8,
    },
    // The result is this bit.
    Open {
        value: u8,
    },
}

// What a shuffle's frame has before what belongs to its kind: the piles, the slots and the places.
#[derive(Clone, Copy)]
pub struct Piled<'a> {
    pub piles: u8,
    pub slots: u8,
    pub places: &'a [u8],
}
