// The certificate as a visitor: it notes each node.
ghost use Rattle.std.specs.Prelude.{◌≡◌, ℕ, ◌<◌, false, is_some, MatchOption};
ghost use Rattle.cards.specs.Lists.{table};
ghost use Rattle.cards.specs.Shuffles.{ShuffleMeaning};
ghost use Rattle.protocol.specs.Machine.{is_result};
ghost use Rattle.protocol.specs.States.{wrongness};
ghost use Rattle.protocol.specs.Tree.{first_from};
ghost use Rattle.rows.specs.Nodes.{action_of};
ghost use Rattle.rows.specs.Views.{rows_view};
ghost use Rattle.sheet.specs.Sheets.{script as script_in};
ghost use Rattle.tree.specs.Certificates.{class_list};
ghost use Rattle.tree.specs.Walks.{playing, together, Standing, Divided, notes};

use crate::certificate::{Certificate, Classes};
use crate::visitor::{Visit, Visitor};
use cards::deck::Deck;
use cards::place::Place;
use rows::node::{first_wrong, leaks};
use rows::outcome::Outcome;
use rows::row::Row;
use sheet::action::Action;
use sheet::states::CheckedScript;

// Whether input c has the class and the total of input b.
fn are_together(classes: &Classes, sums: &[u64; 8], b: u8, c: u8) -> bool
    requires { (b < 8) × (c < 8) }
    ensures { result ≡ together (class_list classes.now) sums.now b c }
{
    classes.of(c) == classes.of(b) && sums[usize::from(c)] == sums[usize::from(b)]
}

// The least input of the same class and total as b.
fn class_of(classes: &Classes, sums: &[u64; 8], b: u8) -> u8
    requires { b < 8 }
    ensures { result ≡ first_from b 0 (together (class_list classes.now) sums.now b) }
{
    (0..b)
        .find(|c| are_together(classes, sums, b, *c))
        .unwrap_or(b)
}

// The classes divided by the totals.
fn divide(classes: &Classes, sums: &[u64; 8]) -> Classes
    ensures { class_list result ≡ table 8 (λ b. first_from b 0 (together (class_list classes.now) sums.now b)) }
{
    // Kept as eight calls: a chain would make an array, only to take it apart into the eight fields.
    Classes {
        input0: class_of(classes, sums, 0),
        input1: class_of(classes, sums, 1),
        input2: class_of(classes, sums, 2),
        input3: class_of(classes, sums, 3),
        input4: class_of(classes, sums, 4),
        input5: class_of(classes, sums, 5),
        input6: class_of(classes, sums, 6),
        input7: class_of(classes, sums, 7),
    }
}

// What the line gives where it is a result.
fn outcome_at(script: &CheckedScript, line: u8) -> Option<Outcome>
    requires { Standing script.now line }
    ensures { MatchOption result (is_result ((script_in script.now).action line) ≡ false) (λ o. action_of o ≡ (script_in script.now).action line) }
{
    match script.action(line) {
        Action::Committed { left, right } => Some(Outcome::Committed {
            left: Place::at(left),
            right: Place::at(right),
        }),
        Action::Open { value } => Some(Outcome::Opened { value }),
        _ => None,
    }
}

// The classes after a node at the line: divided by its totals where the line is a result.
fn classes_at(script: &CheckedScript, line: u8, classes: Classes, sums: &[u64; 8]) -> Classes
    requires { Standing script.now line }
    ensures { Divided script.now line sums.now classes result }
{
    if outcome_at(script, line).is_some() {
        divide(&classes, sums)
    } else {
        classes
    }
}

// Whether a node at the line is wrong.
fn wrong_at<D: Deck>(script: &CheckedScript, deck: &D, line: u8, rows: &[Row]) -> bool
    requires { Standing script.now line }
    ensures { (bank : ℕ → ShuffleMeaning) → result ≡ is_some (wrongness (playing script.now (D.Deck.means deck.now) bank) line (rows_view rows.now)) }
{
    let head = script.head();
    // Kept as a match: after `is_some_and` the proof does not know what the closure's call ensured.
    match outcome_at(script, line) {
        Some(outcome) => first_wrong(deck, &head, outcome, rows).is_some(),
        None => false,
    }
}

impl Visitor for Certificate {
    ghost visits = { notes };

    fn visit<D: Deck>(&mut self, script: &CheckedScript, deck: &D, node: Visit<'_>) {
        let head = script.head();
        let leaking = leaks(&head, node.sums);
        let wrong = wrong_at(script, deck, node.line, node.rows);
        self.nodes = node.number + 1;
        self.wrong = self.wrong.or(wrong.then_some(node.number));
        self.leaking = self.leaking.or(leaking.then_some(node.number));
        self.classes = classes_at(script, node.line, self.classes, node.sums);
    }
}
