// The laws of a whole sheet: it passes exactly when its bytes are the writing of a script that keeps every rule; what is
// read from such a writing is what it names; its own shuffles fit; and what refusal 19 says of the paths.
#![tactic(auto)]

ghost use Rattle.sheet_law.specs.Whole.{SheetLaw};
ghost use Rattle.sheet_law.specs.Exceeding.{ExceedingLaw};
ghost use Rattle.sheet_law.specs.Named.{NamingLaw};
ghost use Rattle.sheet_law.specs.Owned.{OwnShufflesFit};

// The law.
pub fn sheet_law() -> bool
    ensures { SheetLaw }
{
    true
}

// Refusal 19 names the lowest shuffle line to which a path comes so that the product of its totals is above the limit.
pub fn exceeding_law() -> bool
    ensures { ExceedingLaw }
{
    true
}

// The shuffles that a sheet's own lines mean fit the row and have the totals that the lines name.
pub fn own_shuffles_fit() -> bool
    ensures { OwnShufflesFit }
{
    true
}

// What is read from the bytes of a writing that keeps every rule is what the writing names: its script and its shuffles.
pub fn naming_law() -> bool
    ensures { NamingLaw }
{
    true
}
