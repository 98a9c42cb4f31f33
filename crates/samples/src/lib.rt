// Worked protocols at which the promises hold.
#![tactic(auto)]

ghost use Rattle.std.specs.Prelude.{◌≡◌};
ghost use Rattle.samples.specs.Applied.{PromisesApply, trick_certificate};

// Exclusive or with four cards and the five-card trick are lawful and certified, and what is promised holds of them; the
// number of nodes of the trick.
pub fn promises_apply() -> u8
    ensures theorem { PromisesApply }
    ensures nodes { result ≡ trick_certificate.count }
{
    12
}
