// The sort: the smallest line of a set of transactions that keeps every edge of a table, or a cycle of its edges. It knows tables of
// edges and sets, and no logs. The line is placed here; the cycle is walked and written by `cycles`.
#![tactic(auto)]

ghost use Rattle.sort.specs.Promises.{SortsTable};

mod line;
mod search;

use crate::line::place_all;
use cycles::cycle::write_cycle;
use cycles::waits::Waits;
use sets::{NUMBERS, Set};

// A line or a cycle, and how many members it has. They are in the buffer that was lent.
#[derive(Clone, Copy, Debug, PartialEq, Eq)]
pub enum Sorted {
    Line(usize),
    Cycle(usize),
}

// The smallest line of the set's transactions that keeps every edge, or document 01's cycle where there is none: bit j of number i of the
// table is the edge from i to j. Any table and any set may be given: edges from a transaction to itself, and to or from transactions
// outside the set, are ignored. The members are written to the front of the buffer, a cycle's along the edges from its lowest number; all
// other bytes keep their content, since a line is written only when it is whole.
#[tactic(auto, using(crate::proofs::Waits::found_low))]
pub fn sort(table: &[Set; NUMBERS], set: Set, members: &mut [u8; NUMBERS]) -> Sorted
    ensures { SortsTable table.now set members.old result members.new }
{
    let mut waits = Waits::new();
    let placed = place_all(table, set, &mut waits);
    match placed.left.next_from(0) {
        None => {
            let count = placed.line.len();
            members[..count].copy_from_slice(&placed.line);
            Sorted::Line(count)
        }
        Some(first) => Sorted::Cycle(write_cycle(&waits, first, members)),
    }
}
