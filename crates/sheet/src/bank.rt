// The bank that a checked script's own frames mean: at a shuffle line, a cut or a shuffle by entries, under piles,
// under the listed places.
ghost use Rattle.std.specs.Prelude.{◌≡◌};
ghost use Rattle.format.specs.Parts.{parts};
ghost use Rattle.format.specs.Views.{view};
ghost use Rattle.sheet.specs.Lines;
ghost use Rattle.sheet.specs.Meaning.{meaning, lawful_meaning};
ghost use Rattle.sheet.specs.OwnShuffles.{shuffle_of, own_shuffle};
ghost use Rattle.sheet.specs.Owning.{lawful_own};
ghost use Rattle.sheet.specs.Scripts;
ghost use Rattle.sheet.specs.Sheets.{script_bytes};

use crate::states::CheckedScript;
use cards::place::Slot;
use format::frame::Frame;
use shuffles::bank::Bank;
use shuffles::cut::Cut;
use shuffles::explicit::Explicit;
use shuffles::piles::Piles;
use shuffles::places::Places;
use shuffles::shuffle::Shuffle;

// The shuffle that a frame means on a row of cards. A frame that is no shuffle has the shuffle of one slot.
#[derive(Clone, Copy)]
enum OwnShuffle<'a> {
    Cut(Places<&'a [u8], Piles<Cut>>),
    Explicit(Places<&'a [u8], Piles<Explicit<&'a [u8]>>>),
    Still,
}

impl<'a> OwnShuffle<'a> {
    fn new(cards: u8, frame: Frame<'a>) -> OwnShuffle<'a>
        ensures { meaning result ≡ shuffle_of cards (view frame.entry) }
    {
        match frame {
            Frame::Cut {
                piles,
                slots,
                places,
            } => OwnShuffle::Cut(Places {
                cards,
                places,
                below: Piles {
                    size: piles,
                    below: Cut { slots },
                },
            }),
            Frame::Explicit {
                piles,
                slots,
                places,
                entries,
            } => OwnShuffle::Explicit(Places {
                cards,
                places,
                below: Piles {
                    size: piles,
                    below: Explicit { slots, entries },
                },
            }),
            _ => OwnShuffle::Still,
        }
    }
}

// Each question goes to the shuffle of the case: behind a `dyn Shuffle` what it means would not be known.
impl<'a> Shuffle for OwnShuffle<'a> {
    ghost means = { meaning };

    ghost lawful = { lawful_meaning };

    fn width(&self) -> u8 {
        match self {
            OwnShuffle::Cut(shuffle) => shuffle.width(),
            OwnShuffle::Explicit(shuffle) => shuffle.width(),
            OwnShuffle::Still => 1,
        }
    }

    fn total(&self) -> u16 {
        match self {
            OwnShuffle::Cut(shuffle) => shuffle.total(),
            OwnShuffle::Explicit(shuffle) => shuffle.total(),
            OwnShuffle::Still => 1,
        }
    }

    fn image(&self, draw: u16, slot: Slot) -> Slot {
        match self {
            OwnShuffle::Cut(shuffle) => shuffle.image(draw, slot),
            OwnShuffle::Explicit(shuffle) => shuffle.image(draw, slot),
            OwnShuffle::Still => slot,
        }
    }
}

impl CheckedScript {
    // The shuffle of a line's frame. The head, the layout and what is no line of the script have the shuffle of one slot.
    fn own_shuffle(&self, line: u8) -> OwnShuffle<'_>
        ensures { meaning result ≡ own_shuffle (script_bytes self.now) line }
    {
        let sheet = self.read();
        match sheet.frame(line) {
            Some(frame) => OwnShuffle::new(sheet.head.cards, frame),
            None => OwnShuffle::Still,
        }
    }
}

impl Bank for CheckedScript {
    ghost at = { λ s line. own_shuffle (script_bytes s) line };

    ghost lawful = { λ s line. lawful_own (Scripts.head (script_bytes s)).cards (parts (Lines.frame (script_bytes s) line)) };

    fn width(&self, line: u8) -> u8 {
        self.own_shuffle(line).width()
    }

    fn total(&self, line: u8) -> u16 {
        self.own_shuffle(line).total()
    }

    fn image(&self, line: u8, draw: u16, slot: Slot) -> Slot {
        self.own_shuffle(line).image(draw, slot)
    }

    // The frame is read once for all twelve slots.
    fn images(&self, line: u8, draw: u16) -> [u8; 12] {
        self.own_shuffle(line).images(draw)
    }
}
