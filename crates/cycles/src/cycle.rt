// The cycle: the walk back from each transaction to the one that it waits for, and the part of its path that is the cycle.
ghost use Rattle.std.specs.Prelude.{◌≡◌, ◌<◌, ◌≤◌, length};
ghost use Rattle.std.proofs.lemmas.List.Edits.{sets};
ghost use Rattle.sets.specs.Bits.{numbers};
ghost use Rattle.lines.specs.Rule.{to_lowest};
ghost use Rattle.cycles.specs.WaitsFor.{walked};

use crate::part::{place_of, place_of_lowest};
use crate::waits::Waits;
use sets::{NUMBERS, Set};

// Walks back from a transaction, each time to the one that is waited for, until one comes again. The path is put in the buffer from its
// end on, each transaction before the one that it was reached from, since the edges lead that way. The cycle is what stands from the start
// of the path to the one that came again.
fn walk_back<'p>(waits: &Waits, first: usize, path: &'p mut [u8; NUMBERS]) -> &'p [u8]
    requires { first < numbers }
    ensures walked { result.now ≡ walked waits.now first }
    ensures fits { length result.now ≤ numbers }
{
    let mut at = NUMBERS;
    let mut seen = Set::EMPTY;
    let mut again = first;
    while !seen.has(again) {
        at -= 1;
        path[at] = again as u8;
        seen = seen.with(again);
        again = waits.whom(again);
    }
    let path = &path[at..];
    &path[..=place_of(path, again as u8)]
}

// Writes the cycle that the walk back from a transaction leads to, from its lowest number on. The result is how many members it has.
#[tactic(auto, using(crate::proofs::Parts::place_le))]
pub fn write_cycle(waits: &Waits, first: usize, members: &mut [u8; NUMBERS]) -> usize
    requires { first < numbers }
    ensures counted { result ≡ length (to_lowest (walked waits.now first)) }
    ensures written { members.new ≡ sets members.old 0 (to_lowest (walked waits.now first)) }
{
    let mut path = [0u8; NUMBERS];
    let cycle = walk_back(waits, first, &mut path);
    let (end, start) = cycle.split_at(place_of_lowest(cycle));
    members[..start.len()].copy_from_slice(start);
    members[start.len()..cycle.len()].copy_from_slice(end);
    cycle.len()
}
