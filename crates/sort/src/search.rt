// The search for the transaction that is ready for the next place of the line.
ghost use Rattle.sets.specs.Bits.{has, in_row};
ghost use Rattle.sort.specs.Searched.{Searched};
ghost use Rattle.sort.specs.Promises.{FindsReady};

use cycles::waits::Waits;
use sets::{NUMBERS, Set};

// The lowest-numbered transaction of those left whose predecessors all stand already, that is, are not left. The search for a predecessor
// of a transaction goes on from where it last found one, since those left only become fewer. So all the searches for a line look at most
// 64 × 64 times in vain for an edge, and each of them at most once more for each transaction. Where none is ready, the predecessors found
// are the lowest.
#[tactic(auto, using(crate::proofs::Waits::found_after, crate::proofs::Waits::found_low))]
pub(crate) fn lowest_ready(table: &[Set; NUMBERS], left: Set, waits: &mut Waits) -> Option<usize>
    requires { Searched (in_row table.now) (has left) waits.old }
    ensures { FindsReady (in_row table.now) (has left) result waits.new }
{
    let mut tried = 0;
    'search: loop {
        let Some(t) = left.next_from(tried) else {
            break 'search None;
        };
        tried = t + 1;
        let others = left.without(t);
        let mut from = waits.whom(t);
        while let Some(s) = others.next_from(from) {
            if table[s].has(t) {
                waits.wait_for(t, s);
                continue 'search;
            }
            from = s + 1;
        }
        break 'search Some(t);
    }
}
