// A table: a certified script and where its run stands.
ghost use Rattle.std.specs.Prelude.{◌≡◌, replicate};
ghost use Rattle.protocol.specs.Table.{empty_table};
ghost use Rattle.table.specs.Faults.{not_fit};
ghost use Rattle.table.specs.Views.{table_of, Laid, Stepped, Turned, Finished, Stands, Stays};

use crate::commitment::Commitment;
use crate::fault::TableFault;
use crate::laying::lay_cards;
use crate::moves::{permute_row, shuffle_row};
use crate::phase::Phase;
use cards::deck::Deck;
use cards::place::Place;
use cards::reading::Reading;
use cards::row::Row;
use certifier::certified::CertifiedScript;
use line_parts::branch::target_of;
use line_parts::marks::write_marks;
use rows::marks::{card_at, marks_at};
use sheet::action::Action;
use shuffles::bank::Bank;

// Where a table stands: its phase, the line, which is 0 while it is empty as in the model, and how many bytes of the
// record are written.
#[derive(Clone, Copy, PartialEq, Eq, Debug)]
pub struct Whereabouts {
    pub phase: Phase,
    pub line: u8,
    pub written: usize,
}

impl Whereabouts {
    // Why the line's action is not for a call that is made now.
    fn misfit(self) -> TableFault
        ensures { result ≡ not_fit self.phase self.line }
    {
        let line = self.line;
        match self.phase {
            Phase::Empty => TableFault::NotLaid { line },
            Phase::Running => TableFault::OtherKind { line },
            Phase::Ended => TableFault::Ended { line },
        }
    }
}

// The script, where its run stands, and the cards that lie.
#[derive(Drop)]
pub struct Table {
    script: CertifiedScript,
    at: Whereabouts,
    cards: Row,
}

impl Table {
    // An empty table.
    pub fn open(script: CertifiedScript) -> Table
        ensures state { table_of result ≡ empty_table }
        ensures blank { result.cards.cards ≡ replicate 12 0 }
        ensures kept { result.script ≡ script }
    {
        Table {
            script,
            at: Whereabouts {
                phase: Phase::Empty,
                line: 0,
                written: 0,
            },
            cards: Row { cards: [0; 12] },
        }
    }

    // Lays the cards for the number committed to, and answers line 2.
    pub fn lay<D: Deck>(&mut self, deck: &D, commitment: Commitment) -> Result<u8, TableFault>
        ensures reply { Laid self.old (D.Deck.means deck.now) commitment.number result self.new }
        ensures kept { self.new.script ≡ self.old.script }
        ensures stays { Stays result self.old self.new }
    {
        let Table { script, at, cards } = self;
        let line = at.line;
        match (at.phase, script.script().action(line)) {
            (Phase::Empty, _) => {
                *cards = lay_cards(script.script(), deck, commitment.spent()).ok_or(
                    TableFault::NoInput { line },
                )?;
                at.phase = Phase::Running;
                at.line = 2;
                Ok(2)
            }
            _ => Err(TableFault::NotEmpty { line }),
        }
    }

    // Does the permute or the shuffle at the line with the draw, and answers the next line.
    pub fn step<B: Bank>(&mut self, bank: &B, draw: u16) -> Result<u8, TableFault>
        ensures reply { Stepped self.old (B.Bank.at bank.now) draw result self.new }
        ensures kept { self.new.script ≡ self.old.script }
        ensures stays { Stays result self.old self.new }
    {
        let Table { script, at, cards } = self;
        let line = at.line;
        let (row, next) = match (at.phase, script.script().action(line)) {
            (Phase::Running, Action::Permute { places, next }) => {
                if draw >= 1 {
                    return Err(TableFault::Draw { line });
                }
                (permute_row(places, *cards), next)
            }
            (Phase::Running, Action::Shuffle { total, next }) => {
                if draw >= total {
                    return Err(TableFault::Draw { line });
                }
                let head = script.script().head();
                (
                    shuffle_row(bank, line, head.cards, total, draw, *cards),
                    next,
                )
            }
            _ => return Err(at.misfit()),
        };
        *cards = row;
        at.line = next;
        Ok(next)
    }

    // Turns the cards that the line names, appends their marks to the record, and answers the target line and the bytes
    // written so far.
    pub fn turn(&mut self, record: &mut [u8]) -> Result<(u8, usize), TableFault>
        ensures reply { Turned self.old «record».old result self.new «record».new }
        ensures kept { self.new.script ≡ self.old.script }
        ensures stays { Stays result self.old self.new }
    {
        let Table { script, at, cards } = self;
        let line = at.line;
        match (at.phase, script.script().action(line)) {
            (Phase::Running, Action::Turn { places, branches }) => {
                let turned = places.len();
                if record.len().saturating_sub(at.written) < turned {
                    return Err(TableFault::RecordFull { line });
                }
                let marks = marks_at(cards.cards, places);
                let marks = &marks[0..turned];
                let target = target_of(turned, branches, marks).ok_or(TableFault::Unread { line })?;
                write_marks(record, at.written, marks);
                at.line = target;
                at.written += turned;
                Ok((target, at.written))
            }
            _ => Err(at.misfit()),
        }
    }

    // Reads the result, answers the output bit and ends the run. The line stays.
    pub fn finish<D: Deck>(&mut self, deck: &D) -> Result<u8, TableFault>
        ensures reply { Finished self.old (D.Deck.means deck.now) result self.new }
        ensures kept { self.new.script ≡ self.old.script }
        ensures stays { Stays result self.old self.new }
    {
        let Table { script, at, cards } = self;
        let line = at.line;
        let reading = match (at.phase, script.script().action(line)) {
            (Phase::Running, Action::Committed { left, right }) => {
                let left = card_at(cards.cards, Place::at(left));
                let right = card_at(cards.cards, Place::at(right));
                deck.read(left, right)
            }
            (Phase::Running, Action::Open { value }) => Reading::of_bit(value),
            _ => return Err(at.misfit()),
        };
        let output = reading.bit().ok_or(TableFault::Unread { line })?;
        at.phase = Phase::Ended;
        Ok(output)
    }

    // Where the table stands. This is never refused.
    pub fn whereabouts(&self) -> Whereabouts
        ensures { Stands self.now result }
    {
        self.at
    }
}
