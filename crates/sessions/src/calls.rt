// Calls made on a table, one after the other.
ghost use Rattle.std.specs.Prelude.{◌≡◌, ◌≤◌, [], length, vec_len, vec_capacity};
ghost use Rattle.sessions.specs.Calls.{CallMade, CallsMade};

use crate::call::{Answer, Call, Reply};
use cards::deck::Deck;
use shuffles::bank::Bank;
use table::commitment::commit;
use table::table::Table;

// Makes the call through the table's own method. Deck, bank and record stay apart: by a rule of the project they are lent
// to the calls that need them.
fn make_call<D: Deck, B: Bank>(
    table: &mut Table,
    deck: &D,
    bank: &B,
    record: &mut [u8],
    call: Call,
) -> Answer
    ensures made { CallMade (D.Deck.means deck.now) (B.Bank.at bank.now) table.old «record».old call result table.new «record».new }
    ensures kept { table.new.script ≡ table.old.script }
{
    Ok(match call {
        Call::Lay { number } => Reply::Began {
            line: table.lay(deck, commit(number))?,
        },
        Call::Step { draw } => Reply::Stepped {
            line: table.step(bank, draw)?,
        },
        Call::Turn => {
            let (line, written) = table.turn(record)?;
            Reply::Turned { line, written }
        }
        Call::Finish => Reply::Finished {
            output: table.finish(deck)?,
        },
        Call::Where => Reply::Stands {
            at: table.whereabouts(),
        },
    })
}

// Makes the calls and pushes each answer; there is room for as many.
pub(crate) fn make_calls<D: Deck, B: Bank>(
    table: &mut Table,
    deck: &D,
    bank: &B,
    record: &mut [u8],
    calls: &[Call],
    answers: &mut Vec<Answer>,
)
    requires none { (answers.old.items ≡ []) × (vec_len answers.old ≡ 0) }
    requires room { length calls.now ≤ vec_capacity answers.old }
    ensures { CallsMade (D.Deck.means deck.now) (B.Bank.at bank.now) table.old «record».old calls.now answers.new.items «record».new }
{
    for call in calls {
        answers.push_reserved(make_call(table, deck, bank, record, *call));
    }
}
