// The certificate of a checked script with a deck and a bank of shuffles, on lent rows.
ghost use Rattle.std.specs.Prelude.{◌≡◌, length, replicate};
ghost use Rattle.protocol.specs.Machine.{inputs};
ghost use Rattle.protocol.specs.Tree.{certify};
ghost use Rattle.rows.specs.Views.{zero_row};
ghost use Rattle.tree.specs.Walks.{playing, answer_view};

use crate::certificate::Certificate;
use crate::fault::TreeFault;
use crate::walk::walk_rows;
use cards::deck::Deck;
use rows::row::Row;
use sheet::states::CheckedScript;
use shuffles::bank::Bank;

// The certificate, or why the tree is not built. Every row of the bench is zero then. The call that users make, with the
// theorems on its contract, is that of the crate above.
pub fn certify_rows<D: Deck, B: Bank>(
    script: &CheckedScript,
    deck: &D,
    bank: &B,
    bench: &mut [Row],
) -> Result<Certificate, TreeFault>
    ensures answer { answer_view (inputs (playing script.now (D.Deck.means deck.now) (B.Bank.at bank.now))) result ≡ certify (playing script.now (D.Deck.means deck.now) (B.Bank.at bank.now)) (length bench.old) }
    ensures zeroed { bench.new ≡ replicate (length bench.old) zero_row }
{
    let mut certificate = Certificate::blank();
    walk_rows(script, deck, bank, bench, &mut certificate)?;
    Ok(certificate)
}
