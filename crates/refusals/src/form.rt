// Refusals 4 and 5, which look at one record alone.
ghost use Rattle.std.specs.Prelude.{◌≡◌, not, ltb};
ghost use Rattle.rules.specs.Form.{form_rows};
ghost use Rattle.rules.specs.Record.{transactions};
ghost use Rattle.rules.specs.Rows.{row_answer, answer_of};
ghost use Rattle.refusals.specs.Numbers.{checked_says};

use crate::refusal::Refusal;
use format::kind::Kind;
use format::record::{Copy, LAST_TRANSACTION, RecordBytes};

// Number 5 for the transaction, which every kind of record names from the same range.
fn transaction_form(k: usize, transaction: u8) -> Result<(), Refusal>
    ensures { checked_says result ≡ row_answer 5 (not (ltb transaction transactions)) k }
{
    match transaction {
        0..=LAST_TRANSACTION => Ok(()),
        _ => Err(Refusal::OutOfRange(k)),
    }
}

// Numbers 4 and 5 for the record at place k. A read or a write names any copy, a commit item 0 and site 0.
pub fn form_answer(k: usize, bytes: RecordBytes) -> Result<(), Refusal>
    ensures { checked_says result ≡ answer_of (form_rows k bytes.kind bytes.transaction bytes.item bytes.site) }
{
    match bytes.kind {
        Kind::READ | Kind::WRITE => match (bytes.item, bytes.site) {
            (0..=Copy::LAST_ITEM, 0..=Copy::LAST_SITE) => transaction_form(k, bytes.transaction),
            _ => Err(Refusal::OutOfRange(k)),
        },
        Kind::COMMIT => match (bytes.item, bytes.site) {
            (0, 0) => transaction_form(k, bytes.transaction),
            _ => Err(Refusal::OutOfRange(k)),
        },
        _ => Err(Refusal::BadKind(k)),
    }
}
