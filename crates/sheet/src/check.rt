// The check of a sheet's bytes: it reads only, and answers pass or the refusal that comes first.
ghost use Rattle.sheet.specs.Counting.{Outcome};
ghost use Rattle.sheet.specs.Verdicts.{verdict};

use crate::read::ReadSheet;
use heads::fault::SheetFault;

pub fn check_bytes(bytes: &[u8]) -> Result<(), SheetFault>
    ensures { Outcome result (verdict bytes.now) }
{
    let sheet = ReadSheet::read(bytes)?;
    sheet.check_results()?;
    sheet.check_last()?;
    sheet.check_products()
}
