// Laws of the tree and the table.
#![tactic(auto)]

ghost use Rattle.std.specs.Prelude.{◌≡◌};
ghost use Rattle.protocol.specs.Samples.{xor, output_of};
ghost use Rattle.table_law.specs.Record.{UntouchedWithoutLay, byte_without_lay};
ghost use Rattle.table_law.specs.Rows.{RowsInBounds, highest_start};
ghost use Rattle.table_law.specs.Refusals.{NoRefusal31};

const BYTE_WITHOUT_LAY: u8 = 9;

const HIGHEST_SEQUENCE_OF_XOR: u16 = 0x1010;

const OUTPUT_OF_XOR_AT_TWO: u8 = 1;

// Without a granted lay the table and the record stay as they were; a byte of a record after calls without a lay.
pub fn untouched_without_lay() -> u8
    ensures theorem { UntouchedWithoutLay }
    ensures byte { result ≡ byte_without_lay }
{
    BYTE_WITHOUT_LAY
}

// Every row in a tree has a sequence number below 16^n, and no weight under a number that is no input; the highest
// sequence number at the start of exclusive or, whose cards are 1 0 1 0.
pub fn rows_in_bounds() -> u16
    ensures theorem { RowsInBounds }
    ensures sequence { result ≡ highest_start }
{
    HIGHEST_SEQUENCE_OF_XOR
}

// On the table of a certified protocol refusal 31 does not come; what a finish gives on a table of exclusive or, for
// input 2 and draw 1.
pub fn no_refusal_31() -> u8
    ensures theorem { NoRefusal31 }
    ensures output { result ≡ output_of xor 2 1 }
{
    OUTPUT_OF_XOR_AT_TWO
}
