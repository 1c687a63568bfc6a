// The line: transactions placed by the rule until none can be placed.
ghost use Rattle.sets.specs.Bits.{has, in_row};
ghost use Rattle.sort.specs.Searched.{Searched};
ghost use Rattle.sort.specs.Promises.{PlacesAll};

use crate::search::lowest_ready;
use arrayvec::ArrayVec;
use cycles::waits::Waits;
use sets::{NUMBERS, Set};

// The line of those that have been placed, and those that are left.
#[derive(Drop)]
pub struct Placed {
    pub line: ArrayVec<u8, NUMBERS>,
    pub left: Set,
}

// Places the transactions of the set in a line, one after the other, until none is ready. Which predecessor each of those left waits for
// is then known.
#[tactic(auto, using(crate::proofs::PlacingLoop::ready_low))]
pub(crate) fn place_all(table: &[Set; NUMBERS], set: Set, waits: &mut Waits) -> Placed
    requires { Searched (in_row table.now) (has set) waits.old }
    ensures { PlacesAll (in_row table.now) (has set) result.line.items (has result.left) waits.new }
{
    let mut line = ArrayVec::new();
    let mut left = set;
    while let Some(t) = lowest_ready(table, left, waits) {
        line.push(t as u8);
        left = left.without(t);
    }
    Placed { line, left }
}
