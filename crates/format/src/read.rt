// How the frames of a sheet are read from their bytes, byte by byte from the left.
ghost use Rattle.std.specs.Prelude.{◌≡◌, suc, ◌-◌, ◌*◌, ◌^◌, ◌≤◌, ◌&&◌, length, drop, None, MatchResult, nat_le, nat_lt};
ghost use Rattle.format.specs.Form.{wrong};
ghost use Rattle.heads.specs.Heads.{head_of};
ghost use Rattle.format.specs.Kinds.{from_to, head_form, layout_form, permute_form, piled_form, cut_form, explicit_form, turn_form, committed_form, open_form, form_at};
ghost use Rattle.format.specs.Parts.{permute, cut_parts, explicit_parts, turn_parts, committed_parts, open_parts};
ghost use Rattle.format.specs.Taking.{Broken, Faulty, FaultyFrom};
ghost use Rattle.format.specs.Views.{Read, PiledRead, FrameRead};

use crate::cursor::Cursor;
use crate::frame::{Frame, Piled};
use crate::parts::Turning;
use crate::rule::{Ascending, Codes, Distinct, function_fits};
use heads::fault::SheetFault;
use heads::head::{DeckKind, Head, Output};
use heads::kind::Kind;

// Whether so many slots may stand after so many piles.
fn slots_fit(cards: u8, piles: u8, slots: u8) -> bool
    ensures { result ≡ (from_to 2 12 slots && nat_le (slots * piles) cards) }
{
    (2..=12).contains(&slots) && u16::from(slots) * u16::from(piles) <= u16::from(cards)
}

// The head, from the frame of line 0.
pub fn read_head(bytes: &[u8]) -> Result<Head, SheetFault>
    requires { length bytes.now ≤ 128 }
    ensures { MatchResult result (λ h. (wrong 0 head_form bytes.now ≡ None) × (h ≡ head_of bytes.now)) (λ e. Faulty head_form 0 bytes.now 0 e) }
{
    let mut cursor = Cursor::new(0, bytes);
    cursor.byte(|b| b == Kind::Head.byte())?;
    let deck = cursor.byte(|b| b <= 1)?;
    let cards = cursor.byte(|b| (2..=12).contains(&b))?;
    let players = cursor.byte(|b| (1..=3).contains(&b) && 2 * b <= cards)?;
    let function = cursor.byte(|b| function_fits(players, b))?;
    let output = cursor.byte(|b| b <= 1)?;
    cursor.end()?;
    Ok(Head {
        deck: DeckKind::from(deck),
        cards,
        players,
        function,
        output: Output::from(output),
    })
}

// The codes, from the frame of line 1.
pub fn read_layout<'a>(head: &Head, bytes: &'a [u8]) -> Result<&'a [u8], SheetFault>
    requires { length bytes.now ≤ 128 }
    ensures { MatchResult result (λ codes. (wrong 0 (layout_form head.now) bytes.now ≡ None) × (codes.now ≡ drop 1 bytes.now)) (λ e. Faulty (layout_form head.now) 0 bytes.now 1 e) }
{
    let mut cursor = Cursor::new(1, bytes);
    cursor.byte(|b| b == Kind::Layout.byte())?;
    let rule = Codes {
        deck: head.deck,
        players: head.players,
    };
    let codes = cursor.list(usize::from(head.cards), &rule)?;
    cursor.end()?;
    Ok(codes)
}

// Each of these reads what follows the byte of its kind. By a rule of the project the frames of shuffles and turns are
// taken apart by slice patterns.
impl<'a> Cursor<'a> {
    fn permute(&mut self, cards: u8) -> Result<Frame<'a>, SheetFault>
        ensures { MatchResult result (λ f. Read (permute_form cards) self.old permute f) (λ e. FaultyFrom (permute_form cards) self.old e) }
    {
        let rule = Distinct {
            low: 1,
            high: cards,
        };
        let places = self.list(usize::from(cards), &rule)?;
        self.end()?;
        Ok(Frame::Permute { places })
    }

    // m, q and the places.
    fn piled(&mut self, cards: u8) -> Result<Piled<'a>, SheetFault>
        ensures { MatchResult result (λ p. PiledRead cards self.old p self.new) (λ e. Broken (piled_form cards) self.old e) }
    {
        match self.rest {
            [piles, slots, rest @ ..]
                if (1..=12).contains(piles) && slots_fit(cards, *piles, *slots) => {
                self.skip(2, rest);
                let rule = Distinct {
                    low: 1,
                    high: cards,
                };
                let places = self.list(usize::from(*slots) * usize::from(*piles), &rule)?;
                Ok(Piled {
                    piles: *piles,
                    slots: *slots,
                    places,
                })
            }
            [piles, ..] if (1..=12).contains(piles) => Err(SheetFault::Byte {
                line: self.line,
                index: self.at + 1,
            }),
            _ => Err(self.fault()),
        }
    }

    fn cut(&mut self, cards: u8) -> Result<Frame<'a>, SheetFault>
        ensures { MatchResult result (λ f. Read (cut_form cards) self.old cut_parts f) (λ e. FaultyFrom (cut_form cards) self.old e) }
    {
        let Piled {
            piles,
            slots,
            places,
        } = self.piled(cards)?;
        self.end()?;
        Ok(Frame::Cut {
            piles,
            slots,
            places,
        })
    }

    fn explicit(&mut self, cards: u8) -> Result<Frame<'a>, SheetFault>
        ensures { MatchResult result (λ f. Read (explicit_form cards) self.old explicit_parts f) (λ e. FaultyFrom (explicit_form cards) self.old e) }
    {
        let Piled {
            piles,
            slots,
            places,
        } = self.piled(cards)?;
        match self.rest {
            [count, entries @ ..] if (1..=8).contains(count) => {
                self.skip(1, entries);
                self.entries(*count, slots)?;
                Ok(Frame::Explicit {
                    piles,
                    slots,
                    places,
                    entries,
                })
            }
            _ => Err(self.fault()),
        }
    }

    fn turn(&mut self, head: &Head, lines: u8) -> Result<Frame<'a>, SheetFault>
        requires { 1 ≤ lines }
        ensures { MatchResult result (λ f. Read (turn_form head.now.deck head.now.cards (suc self.old.line) (lines - 1)) self.old turn_parts f) (λ e. FaultyFrom (turn_form head.now.deck head.now.cards (suc self.old.line) (lines - 1)) self.old e) }
    {
        let turned = match self.rest {
            [turned, rest @ ..] if (1..=head.cards).contains(turned) => {
                self.skip(1, rest);
                *turned
            }
            _ => return Err(self.fault()),
        };
        let places = self.list(usize::from(turned), &Ascending { high: head.cards })?;
        match self.rest {
            [count, branches @ ..] if *count >= 1 => {
                self.skip(1, branches);
                let turning = Turning {
                    deck: head.deck,
                    turned,
                    last: lines - 1,
                };
                self.branches(&turning, *count)?;
                Ok(Frame::Turn { places, branches })
            }
            _ => Err(self.fault()),
        }
    }

    fn committed(&mut self, cards: u8) -> Result<Frame<'a>, SheetFault>
        ensures { MatchResult result (λ f. Read (committed_form cards) self.old committed_parts f) (λ e. FaultyFrom (committed_form cards) self.old e) }
    {
        let left = self.byte(|b| (1..=cards).contains(&b))?;
        let right = self.byte(|b| (1..=cards).contains(&b) && b != left)?;
        self.end()?;
        Ok(Frame::Committed { left, right })
    }

    fn open(&mut self) -> Result<Frame<'a>, SheetFault>
        ensures { MatchResult result (λ f. Read open_form self.old open_parts f) (λ e. FaultyFrom open_form self.old e) }
    {
        let value = self.byte(|b| b <= 1)?;
        self.end()?;
        Ok(Frame::Open { value })
    }
}

// The frame of a line from 2 on, in a script of so many lines.
pub fn read_frame<'a>(
    head: &Head,
    lines: u8,
    line: u8,
    bytes: &'a [u8],
) -> Result<Frame<'a>, SheetFault>
    requires { (length bytes.now ≤ 128) × ((1 ≤ lines) × (2 ≤ line)) }
    ensures { MatchResult result (λ f. FrameRead head.now lines line bytes.now f) (λ e. Faulty (form_at head.now lines line) 0 bytes.now line e) }
{
    let mut cursor = Cursor::new(line, bytes);
    let fault = cursor.fault();
    let [kind, rest @ ..] = bytes else {
        return Err(fault);
    };
    cursor.skip(1, rest);
    match Kind::try_from(*kind).map_err(|_| fault)? {
        Kind::Head | Kind::Layout => Err(fault),
        Kind::Permute => cursor.permute(head.cards),
        Kind::Cut => cursor.cut(head.cards),
        Kind::Explicit => cursor.explicit(head.cards),
        Kind::Turn => cursor.turn(head, lines),
        Kind::Committed => cursor.committed(head.cards),
        Kind::Open => cursor.open(),
    }
}
