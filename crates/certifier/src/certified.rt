// A script that is certified. A table is opened on no other.
ghost use Rattle.std.specs.Prelude.{◌≡◌};
ghost use Rattle.certifier.specs.Certification.{IsCertified};

use sheet::states::CheckedScript;

// With some deck and some bank of shuffles that keep their laws, its tree is built and no node of it is wrong or leaks.
#[derive(Drop)]
pub struct CertifiedScript {
    script: CheckedScript,
    ghost certified: { IsCertified script },
}

impl CertifiedScript {
    pub(crate) fn new(script: CheckedScript) -> CertifiedScript
        requires { IsCertified script }
        ensures { result.script ≡ script }
    {
        CertifiedScript { script }
    }

    pub fn script(&self) -> &CheckedScript
        ensures { result.now ≡ self.now.script }
    {
        &self.script
    }
}
