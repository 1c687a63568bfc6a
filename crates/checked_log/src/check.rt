// The check of a log: numbers 1, 2 and 4 to 9, in one pass over the records.
ghost use Rattle.std.specs.Prelude.{◌≡◌, ◌<◌};
ghost use Rattle.rules.specs.Record.{records};
ghost use Rattle.rules.specs.Refusals.{record_rows};
ghost use Rattle.rules.specs.Rows.{answer_of};
ghost use Rattle.refusals.specs.Numbers.{checked_says};
ghost use Rattle.checked_log.specs.Promises.{ChecksLength, ChecksContent, ChecksLog};
ghost use Rattle.kept.specs.Kept.{KeptBefore};

use format::record::{MOST_BYTES, RECORD_BYTES, Record, bytes_at, record_count};
use kept::Kept;
use refusals::form::form_answer;
use refusals::refusal::Refusal;

// Numbers 4 to 8 at record k, by what is kept of those before it.
#[tactic(auto, using(rules::proofs::Table::within_formed, crate::proofs::Passing::form_refuses, crate::proofs::Passing::form_passes))]
fn record_answer(log: &[u8], k: usize, kept: &Kept) -> Result<(), Refusal>
    requires there { k < records log.now }
    requires kept { KeptBefore log.now k kept.now }
    ensures { checked_says result ≡ answer_of (record_rows log.now k) }
{
    form_answer(k, bytes_at(log, k))?;
    kept.history_answer(&Record::at(log, k))
}

// Numbers 1 and 2, which look at the length alone.
#[tactic(auto, using(rules::proofs::Lengths::gives_1, rules::proofs::Lengths::gives_2, rules::proofs::Lengths::gives_neither))]
pub fn length_answer(log: &[u8]) -> Result<(), Refusal>
    ensures { ChecksLength log.now result }
{
    let n = log.len();
    if MOST_BYTES < n {
        return Err(Refusal::TooLong);
    }
    if n % RECORD_BYTES != 0 {
        return Err(Refusal::Ragged);
    }
    Ok(())
}

// Numbers 4 to 9: one pass over the records, a fixed number of steps for each, and a look at what is left after the last.
#[tactic(auto, using(rules::proofs::Rows::over_step, rules::proofs::Table::within_passed, rules::proofs::Table::content_refused, rules::proofs::Table::content_ends))]
pub fn content_answer(log: &[u8]) -> Result<(), Refusal>
    ensures { ChecksContent log.now result }
{
    let mut kept = Kept::new();
    for k in 0..record_count(log) {
        record_answer(log, k, &kept)?;
        kept.keep(&Record::at(log, k));
    }
    kept.end_answer()
}

// The first number that applies to the log, with its place; or it has passed. Any bytes may stand in it.
#[tactic(auto, using(rules::proofs::Table::check_length, rules::proofs::Table::check_content))]
pub fn check(log: &[u8]) -> Result<(), Refusal>
    ensures { ChecksLog log.now result }
{
    length_answer(log)?;
    content_answer(log)
}
