// The making of a certified script.
ghost use Rattle.std.specs.Prelude.{◌≡◌, ℕ};
ghost use Rattle.protocol.specs.Machine.{inputs};
ghost use Rattle.protocol.specs.Tree.{Certified};
ghost use Rattle.tree.specs.Certificates.{view};
ghost use Rattle.tree.specs.Walks.{playing};

use crate::certified::CertifiedScript;
use cards::deck::Deck;
use sheet::states::CheckedScript;
use shuffles::bank::Bank;
use tree::certificate::Certificate;

// The certified script of a checked one whose certificate, with this deck and these shuffles, has no wrong and no
// leaking node. It cannot be refused.
pub fn into_certified<D: Deck, B: Bank>(
    script: CheckedScript,
    deck: &D,
    bank: &B,
    certificate: &Certificate,
) -> CertifiedScript
    requires { (bench : ℕ) × Certified (playing script (D.Deck.means deck.now) (B.Bank.at bank.now)) bench (view (inputs (playing script (D.Deck.means deck.now) (B.Bank.at bank.now))) certificate.now) }
    ensures { result.script ≡ script }
{
    CertifiedScript::new(script)
}
