// Worked sheets: what check, the certificate and a table say of them, from their bytes, by the definitions alone.
#![tactic(auto)]

ghost use Rattle.std.specs.Prelude.{◌≡◌};
ghost use Rattle.worked_sheets.specs.WorkedSheets.{WorkedSheets, nodes_of, trick};

// The worked sheets are as stated; how many nodes the five-card trick has.
pub fn worked_sheets() -> u8
    ensures samples { WorkedSheets }
    ensures nodes { result ≡ nodes_of trick }
{
    12
}
