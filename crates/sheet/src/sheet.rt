// The check of a sheet, and the making of a checked script.
ghost use Rattle.std.specs.Prelude.{◌≡◌, None};
ghost use Rattle.sheet.specs.Counting.{Outcome};
ghost use Rattle.script.specs.Model.{LawfulScript};
ghost use Rattle.sheet.specs.Laws.{SmallProducts};
ghost use Rattle.sheet.specs.Sheets.{sheet_bytes, script_bytes, script};
ghost use Rattle.sheet.specs.Verdicts.{verdict};

use crate::check::check_bytes;
use crate::states::{CheckedScript, Sheet};
use heads::fault::SheetFault;

impl Sheet {
    // Reads only, and answers pass or the refusal that comes first.
    pub fn check(&self) -> Result<(), SheetFault>
        ensures { Outcome result (verdict (sheet_bytes self.now)) }
    {
        check_bytes(self.written())
    }

    // The checked script of a sheet that passes. It cannot be refused.
    pub fn into_checked(self) -> CheckedScript
        requires { verdict (sheet_bytes self) ≡ None }
        ensures same { script_bytes result ≡ sheet_bytes self }
        ensures lawful { LawfulScript (script result) }
        ensures small { SmallProducts (script result) }
    {
        CheckedScript { sheet: self }
    }
}
