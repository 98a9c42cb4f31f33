// The walk over the nodes of a tree, which hands each to a visitor: a node before what is below it, and a child's whole
// subtree before the next child. A node's number is the count of nodes before it. The rows of a child are written into
// the rest of the bench, and what is left after them is the rest for all below it. The marks that a turn shows are
// added to the trace for the child that is walked then, and taken off it again.
ghost use Rattle.std.specs.Prelude.{◌≡◌, pred, ◌+◌, ◌-◌, ◌*◌, ◌<◌, ◌≤◌, List, ◌++◌, map, length, take, replicate};
ghost use Rattle.protocol.specs.States.{Row as StateRow};
ghost use Rattle.protocol.specs.Tree.{events};
ghost use Rattle.rows.specs.Turns.{child_of};
ghost use Rattle.rows.specs.Views.{rows_view, zero_row};
ghost use Rattle.script.specs.Model.{permute, shuffle, turn};
ghost use Rattle.sheet.specs.Scripts.{branches_of};
ghost use Rattle.sheet.specs.Sheets.{script as script_in};
ghost use Rattle.tree.specs.Walks.{playing, Arrived, Entered, Held, Walked, faulted, counted, Visited, Reached, Kept, Grown, Made, Below};

use crate::fault::TreeFault;
use crate::visitor::{Visit, Visitor};
use arrayvec::ArrayVec;
use cards::deck::Deck;
use line_parts::branch::target_of;
use line_parts::images::images_of;
use rows::guard::Guard;
use rows::node::totals;
use rows::row::Row;
use rows::start::start;
use rows::state::State;
use rows::turn::Turned;
use sheet::action::Action;
use sheet::states::CheckedScript;
use shuffles::bank::Bank;

// So many rows of a bench count.
const MOST: usize = 65535;

// A trace has at most twelve marks for each of the 62 lines from line 2 on.
const TRACE: usize = 744;

// A walk as it goes on: the script that is walked with its deck and its bank, the visitor, the marks that the turns on
// the way have shown, for which there is always room, and how many nodes there are so far.
#[derive(Drop)]
struct Walk<'a, V, D, B> {
    script: &'a CheckedScript,
    deck: &'a D,
    bank: &'a B,
    visitor: &'a mut V,
    trace: ArrayVec<u8, TRACE>,
    nodes: u16,
}

impl<'a, V: Visitor, D: Deck, B: Bank> Walk<'a, V, D, B> {
    // Hands a node to the visitor and counts it.
    fn hand_on(&mut self, line: u8, rows: &[Row])
        requires arrived { Arrived self.old.script.now line (rows_view rows.now) }
        requires few { self.old.nodes < 512 }
        ensures visited { Visited V.Visitor.visits self.old.script.now (D.Deck.means self.old.deck.now) self.old.nodes line (rows_view rows.now) self.old.trace.items self.old.visitor.now self.new.visitor.now }
        ensures counted { self.new.nodes ≡ self.old.nodes + 1 }
        ensures kept { Kept self.old self.new }
    {
        let sums = totals(rows);
        let visitor = &mut *self.visitor;
        let node = Visit {
            number: self.nodes,
            line,
            rows,
            sums: &sums,
            trace: self.trace.as_slice(),
        };
        visitor.visit(self.script, self.deck, node);
        self.nodes += 1;
    }

    // The child of a turn's node with these marks, at its line.
    #[cycle(tree)]
    fn below_marks(
        &mut self,
        line: u8,
        turned: Turned<'_>,
        marks: [u8; 12],
        rest: &mut [Row],
    ) -> Result<(), TreeFault>
        requires reached { Reached self.old.script.now line (rows_view turned.state.rows.now) }
        requires cards { turned.state.cards ≡ (script_in self.old.script.now).cards }
        requires long { (length self.old.trace.items + length turned.places.now) + 12 * (64 - line) ≤ TRACE }
        ensures walked { Made V.Visitor.visits (playing self.old.script.now (D.Deck.means self.old.deck.now) (B.Bank.at self.old.bank.now)) line (child_of (script_in self.old.script.now).cards turned.entry.places.now (take (length turned.entry.places.now) marks) (rows_view turned.entry.state.rows.now)).rows (length rest.old) (self.old.trace.items ++ take (length turned.entry.places.now) marks) self.old.nodes self.old.visitor.now self.new.visitor.now (counted self.new.nodes result) }
        ensures kept { Kept self.old self.new }
    {
        let made = turned.gather(marks, rest);
        let shown = self.trace.len();
        let added = self
            .trace
            .try_extend_from_slice(&marks[..turned.places.len()]);
        prove!(added.is_ok());
        let walked = self.enter(line, made, rest);
        self.trace.truncate(shown);
        walked
    }

    // The children of a turn's node, in the order of their marks.
    #[cycle(tree)]
    fn below_turn<'r>(
        &mut self,
        line: u8,
        places: &'r [u8],
        branches: &[u8],
        rows: &'r [Row],
        rest: &mut [Row],
    ) -> Result<(), TreeFault>
        requires arrived { Arrived self.old.script.now line (rows_view rows.now) }
        requires long { length self.old.trace.items + 12 * (64 - line) ≤ TRACE }
        requires action { turn places.now (branches_of (length places.now) branches.now) ≡ (script_in self.old.script.now).action line }
        requires some { 1 ≤ self.old.nodes }
        ensures walked { Below V.Visitor.visits (playing self.old.script.now (D.Deck.means self.old.deck.now) (B.Bank.at self.old.bank.now)) line (rows_view rows.now) (length rest.old) self.old.trace.items self.old.nodes self.old.visitor.now self.new.visitor.now (counted self.new.nodes result) }
        ensures kept { Kept self.old self.new }
    {
        let cards = self.script.head().cards;
        let turned = Turned {
            state: State { cards, rows },
            places,
        };
        let node = self.nodes - 1;
        let mut last: Option<[u8; 12]> = None;
        while let Some(marks) = turned.next_marks(last) {
            let next = target_of(places.len(), branches, &marks[..places.len()]).ok_or(
                TreeFault::NoBranch { line, node },
            )?;
            self.below_marks(next, turned, marks, rest)?;
            last = Some(marks);
        }
        Ok(())
    }

    // All below a node, which is the last one counted. Line, rows and rest stay apart, here and below: the rest of the
    // bench is lent anew to each child.
    #[cycle(tree)]
    fn below(&mut self, line: u8, rows: &[Row], rest: &mut [Row]) -> Result<(), TreeFault>
        requires arrived { Arrived self.old.script.now line (rows_view rows.now) }
        requires long { length self.old.trace.items + 12 * (64 - line) ≤ TRACE }
        requires some { 1 ≤ self.old.nodes }
        ensures walked { Below V.Visitor.visits (playing self.old.script.now (D.Deck.means self.old.deck.now) (B.Bank.at self.old.bank.now)) line (rows_view rows.now) (length rest.old) self.old.trace.items self.old.nodes self.old.visitor.now self.new.visitor.now (counted self.new.nodes result) }
        ensures kept { Kept self.old self.new }
    {
        match self.script.action(line) {
            Action::Permute { places, next } => {
                let cards = self.script.head().cards;
                let images = images_of(places);
                let made = State { cards, rows }.permute(images, rest);
                self.enter(next, made, rest)
            }
            Action::Shuffle { total, next } => {
                let cards = self.script.head().cards;
                let made = State { cards, rows }.shuffle(self.bank, line, total, rest);
                self.enter(next, made, rest)
            }
            Action::Turn { places, branches } => {
                self.below_turn(line, places, branches, rows, rest)
            }
            Action::Committed { .. } | Action::Open { .. } | Action::Nothing => Ok(()),
        }
    }

    // The node whose rows stand first in the room, as many as were made; it is refused where they have no room, or where
    // it is one too many.
    #[cycle(tree)]
    fn enter(&mut self, line: u8, made: Option<usize>, room: &mut [Row]) -> Result<(), TreeFault>
        requires entered { Entered self.old.script.now line made room.old }
        requires long { length self.old.trace.items + 12 * (64 - line) ≤ TRACE }
        ensures walked { (state : List StateRow) → Held made state room.old → Made V.Visitor.visits (playing self.old.script.now (D.Deck.means self.old.deck.now) (B.Bank.at self.old.bank.now)) line state (length room.old) self.old.trace.items self.old.nodes self.old.visitor.now self.new.visitor.now (counted self.new.nodes result) }
        ensures kept { Kept self.old self.new }
    {
        if self.nodes >= 512 {
            return Err(TreeFault::Nodes { line });
        }
        let node = self.nodes;
        let len = made.ok_or(TreeFault::Bench { line, node })?;
        let (rows, rest) = room.split_at_mut(len);
        self.grow(line, rows, rest)
    }

    // A node and all below it.
    #[cycle(tree)]
    fn grow(&mut self, line: u8, rows: &[Row], rest: &mut [Row]) -> Result<(), TreeFault>
        requires arrived { Arrived self.old.script.now line (rows_view rows.now) }
        requires long { length self.old.trace.items + 12 * (64 - line) ≤ TRACE }
        requires few { self.old.nodes < 512 }
        ensures walked { Grown V.Visitor.visits (playing self.old.script.now (D.Deck.means self.old.deck.now) (B.Bank.at self.old.bank.now)) line (rows_view rows.now) (length rest.old) self.old.trace.items self.old.nodes self.old.visitor.now self.new.visitor.now (counted self.new.nodes result) }
        ensures kept { Kept self.old self.new }
    {
        self.hand_on(line, rows);
        self.below(line, rows, rest)
    }
}

// Hands the nodes of the tree to the visitor, one after the other as they are made, and answers how many there are, or
// why the tree is not built. Every row of the bench is zero then.
pub fn walk_rows<'a, V: Visitor, D: Deck, B: Bank>(
    script: &'a CheckedScript,
    deck: &'a D,
    bank: &'a B,
    bench: &mut [Row],
    visitor: &mut V,
) -> Result<u16, TreeFault>
    ensures walked { Walked (V.Visitor.visits (playing script.now (D.Deck.means deck.now) (B.Bank.at bank.now))) (length bench.old) (events (playing script.now (D.Deck.means deck.now) (B.Bank.at bank.now))) 0 visitor.old visitor.new (faulted result) }
    ensures zeroed { bench.new ≡ replicate (length bench.old) zero_row }
{
    let guard = Guard { rows: bench };
    let len = guard.rows.len().min(MOST);
    let (room, _) = guard.rows.split_at_mut(len);
    let players = script.head().players;
    let codes = script.codes();
    let made = start(deck, players, codes, room);
    let mut walk = Walk {
        script,
        deck,
        bank,
        visitor,
        trace: ArrayVec::new(),
        nodes: 0,
    };
    walk.enter(2, made, room)?;
    Ok(walk.nodes)
}
