// Reason 1: conflicts on a copy.
#![tactic(auto)]

ghost use Rattle.std.specs.Prelude.{◌≡◌, ℕ, ◌+◌, List};
ghost use Rattle.sets.specs.Bits.{has, Holds};
ghost use Rattle.histories.specs.Reasons.{gives_conflict, conflict};
ghost use Rattle.rules.specs.LogHistory.{history_of};
ghost use Rattle.rules.specs.Record.{records, transactions};
ghost use Rattle.conflicts.specs.Kept.{KeptFrom};

use format::kind::Kind;
use format::log::Log;
use format::record::{Copy, Record, TRANSACTIONS};
use sets::Set;
use tables::add::{add_own, add_to_row, add_writer};

// What is kept of the later records: for each copy the transactions that use it, and those that write it.
#[derive(Drop)]
struct Later {
    users: [Set; Copy::COPIES],
    writers: [Set; Copy::COPIES],
}

impl Later {
    // What is kept at the end of a log: nothing, whatever the log.
    fn new() -> Later
        ensures { (log : List ℕ) → KeptFrom log (records log) result }
    {
        Later {
            users: [Set::EMPTY; Copy::COPIES],
            writers: [Set::EMPTY; Copy::COPIES],
        }
    }

    // The transactions with a later record that conflicts with this record: of a read the later writers of its copy, of a write all that
    // use it later.
    fn conflicting(&self, r: &Record<'_>) -> Set
        requires { KeptFrom r.now.log (r.now.place + 1) self.now }
        ensures { (j : ℕ) → has result j ≡ gives_conflict (history_of r.now.log) r.now.place j }
    {
        let c = r.copy();
        let after_read = self.writers[c].only_if(r.is(Kind::Read));
        let after_write = self.users[c].only_if(r.is(Kind::Write));
        after_read.union(after_write)
    }

    // Keeps a record: the transaction of a read or a write is a user of its copy, that of a write a writer too.
    fn keep(&mut self, r: &Record<'_>)
        requires { KeptFrom r.now.log (r.now.place + 1) self.old }
        ensures { KeptFrom r.now.log r.now.place self.new }
    {
        let c = r.copy();
        add_own(r, c, r.is(Kind::Read), &mut self.users);
        add_own(r, c, r.is(Kind::Write), &mut self.users);
        add_writer(r, c, &mut self.writers);
    }
}

// The conflicts of a log go into the table, whatever it held before. They are found in one pass from the log's end, a fixed number of steps for
// each record. Before it 16 KiB are cleared.
pub fn conflicts(log: &Log<'_>, table: &mut [Set; TRANSACTIONS])
    ensures { Holds transactions (conflict (history_of log.now)) table.new }
{
    let none = [Set::EMPTY; TRANSACTIONS];
    *table = none;
    let mut later = Later::new();
    for k in (0..log.records()).rev() {
        // The row is stored last: what was read of the two tables is then still at hand when they are stored.
        let r = log.record(k);
        let conflicting = later.conflicting(&r);
        later.keep(&r);
        add_to_row(&r, conflicting, table);
    }
}
