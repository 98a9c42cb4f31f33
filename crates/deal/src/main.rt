// Deals a row of cards through a shuffle, draw by draw. Standard input names the shuffle by its layers, and the row.
#![tactic(auto)]

ghost use Rattle.std.specs.Prelude.{◌≡◌, ◌≤◌, true, is_some, IfOk};

use cards::row::Row;
use request::text::{Base, Request, TextFault};
use shuffles::bank::{Bank, Everywhere, deal};
use shuffles::cut::Cut;
use shuffles::explicit::Explicit;
use shuffles::piles::Piles;
use shuffles::places::Places;
use shuffles::shuffle::Shuffle;
use spaced::Spaced;
use std::{array, fmt, io};
use thiserror::Error;

// Where the cards of a row go: the image of each slot, in words.
#[derive(Clone, Copy)]
struct Moves<'a>(&'a [u8]);

impl fmt::Display for Moves<'_> {
    fn fmt<W: fmt::Write>(&self, f: &mut fmt::Formatter<W>) -> fmt::Result {
        let mut moves = (1u16..=12)
            .zip(self.0.iter().map(|to| u16::from(*to) + 1))
            .filter(|(from, to)| from != to)
            .peekable();
        if moves.peek().is_none() {
            return write!(f, " nothing moves;");
        }
        for (from, to) in moves {
            write!(f, " the card at place {from} goes to place {to};")?;
        }
        Ok(())
    }
}

// Prints each draw of the shuffle, with the first n cards of the row.
fn print_draws<B: Bank>(rt: &HostRuntime, bank: &B, row: Row, n: usize) -> io::Result<()>
    requires { n ≤ 12 }
{
    let total = bank.total(0);
    let before = Spaced(&row.cards[..n]);
    println!(rt; "The row:{before}")?;
    for draw in 0..total {
        let images = bank.images(0, draw);
        let moves = Moves(&images[..n]);
        let dealt = deal(bank, 0, draw, row);
        let after = Spaced(&dealt.cards[..n]);
        println!(rt; "Draw {draw}:{moves} the row is{after}")?;
    }
    match total {
        1 => println!(rt; "1 draw in all."),
        _ => println!(rt; "{total} draws in all."),
    }
}

// Puts the layers over the base, says which do not fit, and prints the draws. Without piles each has one card, and
// without places the first of the row are shuffled.
fn over<S: Shuffle + Drop>(
    rt: &HostRuntime,
    base: S,
    piles: Option<u8>,
    places: Vec<u8>,
    row: &[u8],
) -> anyhow::Result<()> {
    let cards = row.len().min(12) as u8;
    let piles = Piles {
        size: piles.unwrap_or(1),
        below: base,
    };
    if !piles.fits() {
        println!(rt; "The piles do not fit in a row of twelve: they move nothing.")?;
    }
    let width = piles.width();
    let places = if places.is_empty() {
        (1..=width.min(12)).collect(rt.alloc())?
    } else {
        places
    };
    let shuffle = Places {
        cards,
        places,
        below: piles,
    };
    if !shuffle.fits() {
        println!(rt;
            "The places do not fit: {width} different places from 1 to {cards} are wanted. Nothing moves."
        )?;
    }
    let row = Row {
        cards: array::from_fn(|s| row.get(s).copied().unwrap_or(0)),
    };
    print_draws(rt, &Everywhere { shuffle }, row, usize::from(cards))?;
    Ok(())
}

// Does what the request asks.
fn run(rt: &HostRuntime, request: Request) -> anyhow::Result<()>
    requires { is_some request.base ≡ true }
{
    let Request {
        base,
        piles,
        places,
        row,
    } = request;
    match base {
        Some(Base::Cut { slots }) => {
            let base = Cut { slots };
            if !base.fits() {
                println!(rt; "A cut has 1 to 12 slots: this one moves nothing.")?;
            }
            over(rt, base, piles, places, row.as_slice())
        }
        Some(Base::Explicit { slots, entries }) => {
            let base = Explicit { slots, entries };
            if base.draws().is_none() {
                println!(rt;
                    "The entries do not fit: each is a weight of 1 or more and then the {slots} slots in some order."
                )?;
            }
            over(rt, base, piles, places, row.as_slice())
        }
        None => unreachable!(),
    }
}

// Why no request is read: its text is wrong, or the input fails.
#[derive(Debug, Drop, Error)]
enum ReadFault {
    #[error(transparent)]
    Text(#[from] TextFault),
    #[error(transparent)]
    Input(#[from] io::Error),
}

// Reads the request, line by line.
fn read(rt: &HostRuntime) -> Result<Request, ReadFault>
    ensures { IfOk result (λ request. is_some request.base ≡ true) }
{
    let heap = rt.alloc();
    let mut request = Request::new(heap);
    for (row, line) in (1usize..).zip(rt.lines(heap)) {
        let line = line?;
        request.read_line(heap, row, line.as_str())?;
    }
    request.finished()?;
    Ok(request)
}

fn main(rt: HostRuntime) -> anyhow::Result<()> {
    match read(&rt) {
        Ok(request) => run(&rt, request),
        Err(ReadFault::Text(fault)) => {
            println!(rt; "Not understood: {fault}.")?;
            Ok(())
        }
        Err(ReadFault::Input(fault)) => Err(fault.into()),
    }
}
