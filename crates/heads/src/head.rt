// What a sheet's head names.
ghost use Rattle.std.specs.Prelude.{◌≡◌, ◌≤◌, length};
ghost use Rattle.heads.specs.Heads.{deck_meaning, deck_of_byte, output_of_byte, head_of, lowest_mark, highest_mark};
ghost use Rattle.std.proofs.Common.{rules};

use cards::deck::{Deck, Standard, TwoColour};
use cards::reading::Reading;
use std::fmt;

// The deck that is dealt.
#[derive(Clone, Copy, PartialEq, Eq, Debug)]
pub enum DeckKind {
    TwoColour = 0,
    Standard = 1,
}

// How the result comes out: as a pair of cards face down, or openly.
#[derive(Clone, Copy, PartialEq, Eq, Debug)]
pub enum Output {
    Committed = 0,
    Open = 1,
}

// The deck, the cards in the row, the players, the function (bit b is its value at input b) and the output.
#[derive(Clone, Copy, PartialEq, Eq, Debug)]
pub struct Head {
    pub deck: DeckKind,
    pub cards: u8,
    pub players: u8,
    pub function: u8,
    pub output: Output,
}

// What the six bytes of a head say: kind, deck, cards, players, function, output.
pub fn head_from(bytes: &[u8]) -> Head
    requires { 6 ≤ length bytes.now }
    ensures { result ≡ head_of bytes.now }
{
    Head {
        deck: DeckKind::from(bytes[1]),
        cards: bytes[2],
        players: bytes[3],
        function: bytes[4],
        output: Output::from(bytes[5]),
    }
}

// The output that a head's byte names: 0 is committed, and any other byte counts as open.
impl From<u8> for Output {
    ghost from_gives = { λ b output. output ≡ output_of_byte b };

    fn from(b: u8) -> Output {
        if b == 0 {
            Output::Committed
        } else {
            Output::Open
        }
    }
}

impl fmt::Display for Output {
    fn fmt<W: fmt::Write>(&self, f: &mut fmt::Formatter<W>) -> fmt::Result {
        f.write_str(match self {
            Output::Committed => "committed output",
            Output::Open => "open output",
        })
    }
}

// The deck that a head's byte names: 0 is two-colour, and any other byte counts as standard.
impl From<u8> for DeckKind {
    ghost from_gives = { λ b deck. deck ≡ deck_of_byte b };

    fn from(b: u8) -> DeckKind {
        match b {
            0 => DeckKind::TwoColour,
            _ => DeckKind::Standard,
        }
    }
}

impl fmt::Display for DeckKind {
    fn fmt<W: fmt::Write>(&self, f: &mut fmt::Formatter<W>) -> fmt::Result {
        f.write_str(match self {
            DeckKind::TwoColour => "two-colour deck",
            DeckKind::Standard => "standard deck",
        })
    }
}

// A head in words.
impl fmt::Display for Head {
    fn fmt<W: fmt::Write>(&self, f: &mut fmt::Formatter<W>) -> fmt::Result {
        let Head {
            deck,
            cards,
            players,
            function,
            output,
        } = self;
        write!(
            f,
            "{deck}, {cards} cards, {players} players, function {function:02X}, {output}"
        )
    }
}

impl DeckKind {
    // The lowest mark that a card of the deck may show.
    pub fn lowest_mark(&self) -> u8
        ensures { result ≡ lowest_mark self.now }
    {
        match self {
            DeckKind::TwoColour => 0,
            DeckKind::Standard => 1,
        }
    }

    // The highest mark that a card of the deck may show.
    pub fn highest_mark(&self) -> u8
        ensures { result ≡ highest_mark self.now }
    {
        match self {
            DeckKind::TwoColour => 1,
            DeckKind::Standard => 12,
        }
    }
}

// The deck that a head names. Each call asks the deck of that name: behind a `dyn Deck` what it means would not be known.
impl Deck for DeckKind {
    ghost means = { deck_meaning };

    ghost lawful = { Prim.search rules };

    fn may_lie(&self, players: u8, code: u8) -> bool {
        match self {
            DeckKind::TwoColour => TwoColour.may_lie(players, code),
            DeckKind::Standard => Standard.may_lie(players, code),
        }
    }

    fn may_repeat(&self, players: u8, code: u8) -> bool {
        match self {
            DeckKind::TwoColour => TwoColour.may_repeat(players, code),
            DeckKind::Standard => Standard.may_repeat(players, code),
        }
    }

    fn card(&self, code: u8, input: u8) -> u8 {
        match self {
            DeckKind::TwoColour => TwoColour.card(code, input),
            DeckKind::Standard => Standard.card(code, input),
        }
    }

    fn read(&self, left: u8, right: u8) -> Reading {
        match self {
            DeckKind::TwoColour => TwoColour.read(left, right),
            DeckKind::Standard => Standard.read(left, right),
        }
    }
}
