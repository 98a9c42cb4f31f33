// The certificate of a checked script.
ghost use Rattle.std.specs.Prelude.{◌≡◌, length, replicate};
ghost use Rattle.protocol.specs.Machine.{inputs};
ghost use Rattle.protocol.specs.Tree.{certify};
ghost use Rattle.rows.specs.Views.{zero_row};
ghost use Rattle.tree.specs.Walks.{playing, answer_view};
ghost use Rattle.certifier.specs.Certification.{Certification};
ghost use Rattle.certifier.specs.Promise.{WholePromise};

use cards::deck::Deck;
use rows::row::Row;
use sheet::states::CheckedScript;
use shuffles::bank::Bank;
use tree::certificate::Certificate;
use tree::certifying::certify_rows;
use tree::fault::TreeFault;

// The certificate of the script with this deck and these shuffles, or why its tree is not built on a bench of so many
// rows. It only reads the script, and every row of the bench is zero afterwards. What the certificate says of the
// machine's runs stands in `Certification`, and all that is promised of the script with this deck and these shuffles,
// lists of calls on a table included, in `WholePromise`.
pub fn certify<D: Deck, B: Bank>(
    script: &CheckedScript,
    deck: &D,
    bank: &B,
    bench: &mut [Row],
) -> Result<Certificate, TreeFault>
    ensures answer { answer_view (inputs (playing script.now (D.Deck.means deck.now) (B.Bank.at bank.now))) result ≡ certify (playing script.now (D.Deck.means deck.now) (B.Bank.at bank.now)) (length bench.old) }
    ensures zeroed { bench.new ≡ replicate (length bench.old) zero_row }
    ensures certification { Certification (playing script.now (D.Deck.means deck.now) (B.Bank.at bank.now)) (length bench.old) }
    ensures promise { WholePromise (playing script.now (D.Deck.means deck.now) (B.Bank.at bank.now)) }
{
    certify_rows(script, deck, bank, bench)
}
