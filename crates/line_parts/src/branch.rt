// The branch of a turn with given marks.
ghost use Rattle.std.specs.Prelude.{◌≡◌};
ghost use Rattle.protocol.specs.Machine.{target};
ghost use Rattle.sheet.specs.Scripts.{branches_of};

use sheet::branches::Branches;

// The target of the branch with these marks. Of each branch there are so many marks, and then its target.
pub fn target_of(turned: usize, branches: &[u8], marks: &[u8]) -> Option<u8>
    ensures { result ≡ target marks.now (branches_of turned branches.now) }
{
    Branches::new(turned, branches)
        .find(|branch| branch.marks == marks)
        .map(|branch| branch.target)
}
