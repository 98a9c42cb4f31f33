// A list of calls, from a checked script to the last answer.
ghost use Rattle.std.specs.Prelude.{◌≡◌, map, length, replicate};
ghost use Rattle.certifier.specs.Promise.{WholePromise};
ghost use Rattle.rows.specs.Views.{zero_row};
ghost use Rattle.tree.specs.Walks.{playing};
ghost use Rattle.sessions.specs.Calls.{call_of};
ghost use Rattle.sessions.specs.Outcomes.{Outcome};

use crate::call::Call;
use crate::calls::make_calls;
use crate::fault::PlayFault;
use crate::played::Played;
use cards::deck::Deck;
use certifier::certifying::certify;
use certifier::making::into_certified;
use rows::row::Row;
use sheet::states::CheckedScript;
use shuffles::bank::Bank;
use std::alloc::Global;
use table::table::Table;

// Certifies the script with this deck and these shuffles; where it is certified, opens a table on it and makes the
// calls. Answers an answer for each call, or why none was made. The record is written by the turns alone, and every row
// of the bench is zero afterwards. All that is promised of the script with this deck and these shuffles stands in
// `WholePromise`.
pub fn play<D: Deck, B: Bank>(
    heap: Global,
    script: CheckedScript,
    deck: &D,
    bank: &B,
    bench: &mut [Row],
    record: &mut [u8],
    calls: &[Call],
) -> Result<Played, PlayFault>
    ensures outcome { Outcome (playing script (D.Deck.means deck.now) (B.Bank.at bank.now)) (length bench.old) «record».old (map call_of calls.now) result «record».new }
    ensures zeroed { bench.new ≡ replicate (length bench.old) zero_row }
    ensures promise { WholePromise (playing script (D.Deck.means deck.now) (B.Bank.at bank.now)) }
{
    let certificate = certify(&script, deck, bank, bench)?;
    if !certificate.is_faultless() {
        return Err(PlayFault::Uncertified { certificate });
    }
    let mut answers = Vec::with_capacity(heap, calls.len())?;
    let mut table = Table::open(into_certified(script, deck, bank, &certificate));
    make_calls(&mut table, deck, bank, record, calls, &mut answers);
    Ok(Played {
        certificate,
        answers,
    })
}
