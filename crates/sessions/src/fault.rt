// Why no call is made on a table.
ghost use Rattle.std.specs.Prelude.{◌≡◌};
ghost use Rattle.sessions.specs.declared.fault.PlayFault.TheVariants.{Memory, Unbuilt};

use std::alloc::AllocError;
use tree::certificate::Certificate;
use tree::fault::TreeFault;

#[derive(Clone, Copy, PartialEq, Eq, Debug)]
pub enum PlayFault {
    // There is no memory for the answers.
    Memory,
    // The tree is not built.
    Unbuilt { fault: TreeFault },
    // The tree is built, and a node is wrong or leaks.
    Uncertified { certificate: Certificate },
}

// Both conversions are written out, since the contract of `play` names what they give.
impl From<AllocError> for PlayFault {
    ghost from_gives = { λ _ r. r ≡ Memory };

    fn from(_e: AllocError) -> PlayFault {
        PlayFault::Memory
    }
}

impl From<TreeFault> for PlayFault {
    ghost from_gives = { λ f r. r ≡ Unbuilt f };

    fn from(fault: TreeFault) -> PlayFault {
        PlayFault::Unbuilt { fault }
    }
}
