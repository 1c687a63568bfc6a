// Answer records: the reasons along a cycle, and how the records are written into a buffer that is lent, two bytes each.
#![tactic(auto)]

ghost use Rattle.std.specs.Prelude.{◌<◌, ◌≤◌, ◌≡◌, ◌*◌, length};
ghost use Rattle.std.proofs.lemmas.List.Edits.{sets};
ghost use Rattle.rules.specs.Record.{transactions};
ghost use Rattle.tables.specs.Numbers.{reason_says};
ghost use Rattle.tables.specs.ReasonTables.{lowest_in};
ghost use Rattle.answers.specs.Verdict.{record_size, entry, pairs, round_to};
ghost use Rattle.writing.specs.Kept.{Low, Along};

use format::record::TRANSACTIONS;
use tables::reasons::{Reason, ReasonTables};

// An answer record's bytes: a transaction, and 0 or a reason.
pub const RECORD_SIZE: usize = 2;

// The room that any answer fits into: a record for each transaction.
pub const MOST_ANSWER: usize = TRANSACTIONS * RECORD_SIZE;

// An answer record for each member: the transaction, and its second byte.
#[tactic(auto, using(crate::proofs::Pairs::pairs_none, crate::proofs::Pairs::pairs_more))]
pub fn write_records(members: &[u8], seconds: &[u8], answer: &mut [u8])
    requires second_for_each { length members.now ≤ length seconds.now }
    requires room { length members.now * record_size ≤ length answer.old }
    ensures { answer.new ≡ sets answer.old 0 (pairs (length members.now) (entry members.now) (entry seconds.now)) }
{
    for (k, member) in members.iter().enumerate() {
        answer[k * RECORD_SIZE] = *member;
        answer[k * RECORD_SIZE + 1] = seconds[k];
    }
}

// The second byte of a record in a cycle, and the answer to a question about an edge: the number of the reason, or 0 where there is none.
pub fn reason_byte(reason: Option<Reason>) -> u8
    ensures { result ≡ reason_says reason }
{
    reason.map_or(0, Reason::number)
}

// The place after place k round a cycle of n: the next, and after the last the first.
#[tactic(auto, using(answers::proofs::AnswerRecords::round_next, answers::proofs::AnswerRecords::round_back))]
fn place_after(k: usize, n: usize) -> usize
    requires { k < n }
    ensures on_the_cycle { result < n }
    ensures next { result ≡ round_to n k }
{
    if k + 1 < n { k + 1 } else { 0 }
}

// For each transaction of a cycle the lowest reason of its edge to the next, the last one's to the first; 0 where there is no edge.
#[tactic(auto, using(crate::proofs::Along::along_more))]
pub fn reasons_along(tables: &ReasonTables, cycle: &[u8]) -> [u8; TRANSACTIONS]
    requires fits { length cycle.now ≤ transactions }
    requires low { Low (length cycle.now) cycle.now }
    ensures { Along (lowest_in tables.now.by_conflict tables.now.by_order tables.now.by_read) cycle.now (length cycle.now) (length cycle.now) result }
{
    let mut reasons = [0u8; TRANSACTIONS];
    for (k, member) in cycle.iter().enumerate() {
        let next = cycle[place_after(k, cycle.len())];
        reasons[k] = reason_byte(tables.lowest_reason(*member as usize, next as usize));
    }
    reasons
}
