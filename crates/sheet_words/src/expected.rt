// What a refusal expected, in plain words. They are fixed texts: there is nothing to format.
use heads::fault::SheetFault;
use heads::kind::Kind;
use sheet::lines::frame_at;

fn expected_in_head(index: u8) -> &'static str {
    match index {
        0 => "the kind 01",
        1 => "the deck, 00 or 01",
        2 => "the number of cards, 2 to 12",
        3 => "the number of players, 1 to 3, with two cards for each",
        4 => "a function of as many bits as there are players",
        5 => "the output, 00 or 01",
        _ => "the end of the frame",
    }
}

// In a frame of so many piles and slots, past these.
fn expected_in_shuffle(kind: Kind, piles: u8, slots: u8, index: u8) -> &'static str {
    let end = 3 + u16::from(piles) * u16::from(slots);
    let at = u16::from(index);
    if at < end {
        "a place of the row that is not yet named"
    } else if at > end {
        "a weight of 1 or more, a slot that is not yet named, or the end of the frame"
    } else if kind == Kind::Cut {
        "the end of the frame"
    } else {
        "the number of entries, 1 to 8"
    }
}

// In a frame that turns so many places, past their number.
fn expected_in_turn(turned: u8, index: u8) -> &'static str {
    let end = 2 + u16::from(turned);
    let at = u16::from(index);
    if at < end {
        "a place of the row above the one before it"
    } else if at == end {
        "the number of branches, 1 or more"
    } else {
        "a mark of the deck, in ascending branches, a later line as target, or the end of the frame"
    }
}

fn expected_in_frame(frame: &[u8], index: u8) -> &'static str {
    let kind = frame.first().and_then(|kind| Kind::try_from(*kind).ok());
    match (kind, index, frame) {
        (_, 0, _) => "a kind: 10, 11, 13, 20, 30 or 31",
        (Some(Kind::Permute), _, _) =>
            "a place of the row that is not yet named, or the end of the frame",
        (Some(Kind::Turn), 1, _) => "how many places are turned, at most all",
        (Some(Kind::Turn), _, [_, turned, ..]) => expected_in_turn(*turned, index),
        (Some(Kind::Committed), 1, _) => "a place of the row",
        (Some(Kind::Committed), 2, _) => "another place of the row",
        (Some(Kind::Open), 1, _) => "the bit 00 or 01",
        (Some(Kind::Cut | Kind::Explicit), 1, _) => "the size of the piles, 1 to 12",
        (Some(Kind::Cut | Kind::Explicit), 2, _) =>
            "the number of slots, 2 to 12, whose piles fit into the row",
        (Some(kind @ (Kind::Cut | Kind::Explicit)), _, [_, piles, slots, ..]) =>
            expected_in_shuffle(kind, *piles, *slots, index),
        _ => "the end of the frame",
    }
}

// What was expected where the sheet is refused.
pub fn expected(sheet: &[u8], fault: &SheetFault) -> &'static str {
    match fault {
        SheetFault::Length { .. } =>
            "a length from 1 to 128 that ends within the sheet, and at most 64 lines",
        SheetFault::FewLines { .. } => "at least three lines",
        SheetFault::Byte { line: 0, index } => expected_in_head(*index),
        SheetFault::Byte { line: 1, index: 0 } => "the kind 02",
        SheetFault::Byte { line: 1, .. } =>
            "a code that may lie, or lie once more, or the end of the frame",
        SheetFault::Byte { line, index } => expected_in_frame(frame_at(sheet, *line), *index),
        SheetFault::PlayerCode { .. } => "this code of a player in the layout",
        SheetFault::ResultKind { .. } => "a result of the kind that the head's output asks for",
        SheetFault::LastLine { .. } => "a result at the last line",
        SheetFault::Product { .. } => "products of totals of at most 2^40 along every path",
    }
}
