// A sheet, and the checked script that it is made into. The bytes are moved on, and stay as they are.
ghost use Rattle.std.specs.Prelude.{◌≡◌, false, is_some, IfOk};
ghost use Rattle.sheet.specs.Verdicts.{verdict};

use std::alloc::{AllocError, Global};

// Bytes that are not checked.
#[derive(Drop)]
pub struct Sheet {
    bytes: Vec<u8>,
}

// A sheet that passes, for as long as it exists.
#[derive(Drop)]
pub struct CheckedScript {
    pub(crate) sheet: Sheet,
    ghost passes: { is_some (verdict sheet.bytes.items) ≡ false },
}

impl Sheet {
    pub fn new(bytes: Vec<u8>) -> Sheet
        ensures { result.bytes ≡ bytes }
    {
        Sheet { bytes }
    }

    pub(crate) fn written(&self) -> &[u8]
        ensures { result.now ≡ self.now.bytes.items }
    {
        self.bytes.as_slice()
    }
}

impl CheckedScript {
    // A second script with the same bytes.
    pub fn copied(&self, heap: Global) -> Result<CheckedScript, AllocError>
        ensures { IfOk result (λ s. s.sheet.bytes.items ≡ self.now.sheet.bytes.items) }
    {
        let bytes = Vec::from_slice(heap, self.sheet.written())?;
        Ok(CheckedScript {
            sheet: Sheet::new(bytes),
        })
    }
}
