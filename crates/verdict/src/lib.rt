// The verdict on a log: a serial line, a cycle with its reasons, or a refusal. The two questions stand beside it.
#![tactic(auto)]

ghost use Rattle.std.specs.Prelude.{◌≡◌, length, ◌≤◌};
ghost use Rattle.std.proofs.lemmas.List.Edits.{sets};
ghost use Rattle.rules.specs.Answer.{gives, ◌then◌};
ghost use Rattle.checked_log.specs.Numbers.{passed_says};
ghost use Rattle.answers.specs.Verdict.{most_answer, verdict_check, line_or_cycle, answer_records, how_many};
ghost use Rattle.verdict.specs.Numbers.{verdict_says};
ghost use Rattle.verdict.specs.Promises.{JudgesLog};

pub mod answer;

use crate::answer::Verdict;
use checked_log::check::{content_answer, length_answer};
use checked_log::passed::Passed;
pub use checked_log::source::source_of_record;
pub use edges::graph::edge_between;
use edges::graph::edges_by_reason;
use format::record::TRANSACTIONS;
use refusals::refusal::Refusal;
use sort::{Sorted, sort};
use tables::reasons::ReasonTables;
use writing::{MOST_ANSWER, reasons_along, write_records};

// Numbers 1 to 9 for a log and an answer buffer of so many bytes.
fn checked<'a>(log: &'a [u8], room: usize) -> Result<Passed<'a>, Refusal>
    ensures { passed_says result ≡ (verdict_check log.now room then gives log.now) }
{
    length_answer(log)?;
    if room < MOST_ANSWER {
        return Err(Refusal::ShortBuffer);
    }
    content_answer(log)?;
    Ok(Passed::new(log))
}

// The verdict on a log that passes. The sort works in arrays of its own, so that nothing is written before the answer is whole.
fn ordered(passed: &Passed<'_>, answer: &mut [u8]) -> Verdict
    requires { most_answer ≤ length answer.old }
    ensures says { verdict_says result ≡ how_many (gives (line_or_cycle passed.now)) }
    ensures written { answer.new ≡ sets answer.old 0 (answer_records passed.now (gives (line_or_cycle passed.now))) }
{
    let mut tables = ReasonTables::EMPTY;
    let set = edges_by_reason(passed, &mut tables);
    let table = tables.joined();
    let mut members = [0u8; TRANSACTIONS];
    match sort(&table, set, &mut members) {
        Sorted::Line(n) => {
            write_records(&members[..n], &[0u8; TRANSACTIONS], answer);
            Verdict::Line(n)
        }
        Sorted::Cycle(n) => {
            let cycle = &members[..n];
            let reasons = reasons_along(&tables, cycle);
            write_records(cycle, &reasons, answer);
            Verdict::Cycle(n)
        }
    }
}

// The verdict on any bytes, with any buffer. The first 2n bytes of the buffer are written, n the length of the line or the cycle; all
// others keep their content, and a refusal writes nothing. Four passes over the records, each with a fixed number of steps for a record but
// for the walk back from a read to its source; then the sort. Some 30 KiB are cleared, however short the log.
pub fn verdict(log: &[u8], answer: &mut [u8]) -> Verdict
    ensures { JudgesLog log.now answer.old result answer.new }
{
    match checked(log, answer.len()) {
        Ok(passed) => ordered(&passed, answer),
        Err(why) => Verdict::Refused(why),
    }
}
