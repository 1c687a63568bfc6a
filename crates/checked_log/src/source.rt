// The source of a read, and the question "source of record k".
ghost use Rattle.std.specs.Prelude.{◌≡◌, ◌<◌};
ghost use Rattle.histories.specs.History.{writes_copy};
ghost use Rattle.rules.specs.LogHistory.{history_of};
ghost use Rattle.rules.specs.Record.{records};
ghost use Rattle.checked_log.specs.Promises.{FindsSource, TellsSource};

use crate::passed::Passed;
use format::kind::Kind;
use format::log::Log;
use format::record::Record;
use refusals::refusal::Refusal;

// The source of a read: the transaction, and the place of its write record.
#[derive(Clone, Copy, Debug, PartialEq, Eq)]
pub struct Source {
    pub transaction: u8,
    pub place: usize,
}

// Whether a record is a write of this copy. Few are on it, so that is asked first.
fn writes_copy(r: &Record<'_>, copy: usize) -> bool
    ensures { result ≡ writes_copy (history_of r.now.log) r.now.place copy }
{
    r.copy() == copy && r.is(Kind::Write)
}

// The last write of record k's copy before it; none where k is no read, or where no earlier record writes its copy. Walks back over the
// records between.
pub fn source_record(log: &Log<'_>, k: usize) -> Option<usize>
    requires { k < records log.now }
    ensures { FindsSource log.now k result }
{
    let r = log.record(k);
    if !r.is(Kind::Read) {
        return None;
    }
    let copy = r.copy();
    (0..k).rev().find(|&e| writes_copy(&log.record(e), copy))
}

// The write that record k reads, by its transaction and its place; none for a write or a commit. Any bytes and any number may be asked:
// the log is checked first, and then that it has a record k.
pub fn source_of_record(log: &[u8], k: usize) -> Result<Option<Source>, Refusal>
    ensures { TellsSource log.now k result }
{
    let log = Passed::check(log)?.log();
    if log.records() <= k {
        return Err(Refusal::BadQuestion);
    }
    match source_record(&log, k) {
        Some(e) => Ok(Some(Source {
            transaction: log.record(e).transaction() as u8,
            place: e,
        })),
        None => Ok(None),
    }
}
