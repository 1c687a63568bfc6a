// The write orders of a log's items: what is kept of them, and the writers of an item that come after a given one.
ghost use Rattle.std.specs.Prelude.{◌≡◌, ℕ, ◌+◌, ◌<◌, List};
ghost use Rattle.sets.specs.Bits.{has};
ghost use Rattle.histories.specs.Order.{writer_after};
ghost use Rattle.rules.specs.LogHistory.{in_log, history_of};
ghost use Rattle.rules.specs.Record.{records, transactions, item};
ghost use Rattle.orders.specs.Kept.{KeptFrom, KeptOrder};

use checked_log::passed::Passed;
use format::kind::Kind;
use format::record::{Copy, Record, TRANSACTIONS};
use sets::Set;
use tables::add::{add_to_row, add_writer};

// For each item the transactions that write it, and for each transaction those that commit after it. The writers of an item come in the
// order of their commits. Beside them stand all that commit: of a whole log these are its transactions. Whoever has a log's write orders from
// elsewhere may put them together: reasons 2 and 3 look at the writers and at who comes after whom.
#[derive(Drop)]
pub struct WriteOrder {
    pub writers: [Set; Copy::ITEMS],
    pub after: [Set; TRANSACTIONS],
    pub committed: Set,
}

impl WriteOrder {
    // The write orders of a log that passes, read from its end.
    pub fn of_log(log: &Passed<'_>) -> WriteOrder
        ensures kept_order { KeptOrder log.now result }
        ensures members { (t : ℕ) → has result.committed t ≡ in_log log.now t }
    {
        let log = log.log();
        let mut order = WriteOrder::new();
        for k in (0..log.records()).rev() {
            order.keep(&log.record(k));
        }
        order
    }

    // What is kept at the end of a log: nothing, whatever the log.
    fn new() -> WriteOrder
        ensures { (log : List ℕ) → KeptFrom log (records log) result }
    {
        WriteOrder {
            writers: [Set::EMPTY; Copy::ITEMS],
            after: [Set::EMPTY; TRANSACTIONS],
            committed: Set::EMPTY,
        }
    }

    // Keeps a record. All that commit later come after the transaction of a commit, and for the records before it, this one commits
    // later too.
    fn keep(&mut self, r: &Record<'_>)
        requires { KeptFrom r.now.log (r.now.place + 1) self.old }
        ensures { KeptFrom r.now.log r.now.place self.new }
    {
        add_writer(r, r.item(), &mut self.writers);
        if r.is(Kind::Commit) {
            add_to_row(r, self.committed, &mut self.after);
            self.committed = self.committed.with(r.transaction());
        }
    }

    // The writers of the record's item that come after s in its write order.
    pub(crate) fn writers_after(&self, r: &Record<'_>, s: usize) -> Set
        requires s_in_range { s < transactions }
        requires kept_order { KeptOrder r.now.log self.now }
        ensures { (j : ℕ) → has result j ≡ writer_after (history_of r.now.log) (item r.now.log r.now.place) s j }
    {
        self.writers[r.item()].common(self.after[s])
    }
}
