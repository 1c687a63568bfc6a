// Reasons 2 and 3, which go by the write order of an item.
ghost use Rattle.std.specs.Prelude.{◌≡◌, ◌<◌, ℕ};
ghost use Rattle.sets.specs.Bits.{has, Holds};
ghost use Rattle.histories.specs.Reasons.{gives_write_order, gives_read_before, write_order, read_before};
ghost use Rattle.rules.specs.LogHistory.{history_of};
ghost use Rattle.rules.specs.Record.{records, transactions};
ghost use Rattle.orders.specs.Kept.{KeptOrder};

use crate::order::WriteOrder;
use checked_log::source::source_record;
use format::kind::Kind;
use format::log::Log;
use format::record::{Record, TRANSACTIONS};
use sets::Set;
use tables::add::add_to_row;

// The transactions that a record puts after its own by reason 2.
fn after_by_order(r: &Record<'_>, order: &WriteOrder) -> Set
    requires { KeptOrder r.now.log order.now }
    ensures { (j : ℕ) → has result j ≡ gives_write_order (history_of r.now.log) r.now.place j }
{
    order
        .writers_after(r, r.transaction())
        .only_if(r.is(Kind::Write))
}

// The transactions that record k puts after its own by reason 3: those that write its item after its source.
fn after_by_read(log: &Log<'_>, k: usize, order: &WriteOrder) -> Set
    requires there { k < records log.now }
    requires kept_order { KeptOrder log.now order.now }
    ensures { (j : ℕ) → has result j ≡ gives_read_before (history_of log.now) k j }
{
    match source_record(log, k) {
        Some(e) => order.writers_after(&log.record(k), log.record(e).transaction()),
        None => Set::EMPTY,
    }
}

// The edges of reason 2 and those of reason 3 of a log go into a table each, whatever these held before. They are found in one pass from the log's
// end. Each read costs a walk back to its source, which may be as long as the log.
pub fn order_edges(
    log: &Log<'_>,
    order: &WriteOrder,
    by_order: &mut [Set; TRANSACTIONS],
    by_read: &mut [Set; TRANSACTIONS],
)
    requires { KeptOrder log.now order.now }
    ensures order_holds { Holds transactions (write_order (history_of log.now)) by_order.new }
    ensures read_holds { Holds transactions (read_before (history_of log.now)) by_read.new }
{
    let none = [Set::EMPTY; TRANSACTIONS];
    *by_order = none;
    *by_read = none;
    for k in (0..log.records()).rev() {
        let r = log.record(k);
        add_to_row(&r, after_by_order(&r, order), by_order);
        add_to_row(&r, after_by_read(log, k, order), by_read);
    }
}
