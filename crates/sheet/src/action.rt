// What a line of a script does, with its parts lent from the sheet. The cases are those of the model, which has one for
// nothing too: an `Option` around the others would only add a level to every match. Nor is it the frame: a shuffle is
// known here by its total alone.
#[derive(Clone, Copy)]
pub enum Action<'a> {
    // Byte p of `places` is where the card at place p goes; the line goes on to `next`.
    Permute {
        places: &'a [u8],
        next: u8,
    },
    // One of `total` draws; the line goes on to `next`.
    Shuffle {
        total: u16,
        next: u8,
    },
    // The cards at `places` are turned; each branch has a mark for each of them and the line that it goes to.
    Turn {
        places: &'a [u8],
        branches: &'a [u8],
    },
    // The result is what the pair of cards at the two places reads.
    Committed {
        left: u8,
        right: u8,
    },
    // The result is this bit.
    Open {
        value: u8,
    },
    // Nothing: the head, the layout, or no line of the script.
    Nothing,
}
