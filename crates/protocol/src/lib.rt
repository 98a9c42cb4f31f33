// What a card protocol means: the machine, the tree of states, the certificate and the table, by definitions alone. Each
// function here carries a theorem on them, and gives a number of a worked protocol.
#![tactic(auto)]

ghost use Rattle.std.specs.Prelude.{◌≡◌};
ghost use Rattle.protocol.specs.Promises.{DrawsCounted, OneState, StatesOfLines, AlwaysReadOff, NodeByNode, Classes, CertifiedExactly, TableAndMachine, Kept};
ghost use Rattle.protocol.specs.Samples.{Worked, xor, short_xor, wrong_xor, trick, nodes_of, rows_at, class_in, refusal_of, wrong_in, output_of};

const LINES_OF_XOR: u8 = 6;

const ROWS_AT_LEAF_OF_XOR: u8 = 2;

const ROWS_AFTER_CUT_OF_TRICK: u8 = 10;

const WRONG_NODE_OF_XOR: u8 = 3;

const NODES_OF_XOR: u8 = 4;

const CLASS_OF_THREE_IN_TRICK: u8 = 3;

const NODES_OF_TRICK: u8 = 12;

const OUTPUT_OF_XOR_AT_ONE: u8 = 1;

const OUTPUT_OF_XOR_AT_THREE: u8 = 0;

const REFUSAL_OF_SHORT_XOR: u8 = 20;

// What the counts of draw lists count; the number of lines of exclusive or with four cards.
pub fn draws_counted() -> u8
    ensures theorem { DrawsCounted }
    ensures lines { result ≡ xor.script.lines }
{
    LINES_OF_XOR
}

// A state is known by its weights; the number of rows at the first result of exclusive or.
pub fn one_state() -> u8
    ensures theorem { OneState }
    ensures rows { result ≡ rows_at 2 xor }
{
    ROWS_AT_LEAF_OF_XOR
}

// What each line makes of a state; the number of rows after the cut of the five-card trick.
pub fn states_of_lines() -> u8
    ensures theorem { StatesOfLines }
    ensures rows { result ≡ rows_at 1 trick }
{
    ROWS_AFTER_CUT_OF_TRICK
}

// The certificate is read off the nodes, which are numbered as they are made; the first wrong node of exclusive or
// where its last line does not swap.
pub fn read_off() -> u8
    ensures theorem { AlwaysReadOff }
    ensures wrong { result ≡ wrong_in wrong_xor }
{
    WRONG_NODE_OF_XOR
}

// Weights and totals count draw lists; the number of nodes of exclusive or with four cards.
pub fn node_by_node() -> u8
    ensures theorem { NodeByNode }
    ensures nodes { result ≡ nodes_of xor }
{
    NODES_OF_XOR
}

// One class is one number of dealings for every trace; the class of input 3 in the five-card trick.
pub fn classes_by_dealings() -> u8
    ensures theorem { Classes }
    ensures class { result ≡ class_in trick 3 }
{
    CLASS_OF_THREE_IN_TRICK
}

// What a certificate says, in the machine's own words; the number of nodes of the five-card trick.
pub fn certified_exactly() -> u8
    ensures theorem { CertifiedExactly }
    ensures nodes { result ≡ nodes_of trick }
{
    NODES_OF_TRICK
}

// A table follows the machine's run; what a finish gives on a table of exclusive or, for input 1 and draw 1.
pub fn table_and_machine() -> u8
    ensures theorem { TableAndMachine }
    ensures output { result ≡ output_of xor 1 1 }
{
    OUTPUT_OF_XOR_AT_ONE
}

// The whole promise of a certified protocol; what a finish gives on a table of exclusive or, for input 3 and draw 0.
pub fn promise_kept() -> u8
    ensures theorem { Kept }
    ensures output { result ≡ output_of xor 3 0 }
{
    OUTPUT_OF_XOR_AT_THREE
}

// The worked protocols have the certificates and the table's answers that are stated; the number of the refusal where a
// branch is missing.
pub fn worked() -> u8
    ensures samples { Worked }
    ensures refusal { result ≡ refusal_of short_xor }
{
    REFUSAL_OF_SHORT_XOR
}
