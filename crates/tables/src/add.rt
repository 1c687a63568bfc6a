// Tables of sets of transactions: how a record of a log is kept in one.
ghost use Rattle.std.specs.Prelude.{◌≡◌, ◌<◌, length};
ghost use Rattle.rules.specs.Record.{transactions};
ghost use Rattle.tables.specs.Kept.{AddedOwn, AddedWriter, AddedToRow};

use format::kind::Kind;
use format::record::{Record, TRANSACTIONS};
use sets::Set;

// The transaction of a record joins the set at c, where the record counts.
pub fn add_own(r: &Record<'_>, c: usize, counts: bool, table: &mut [Set])
    requires row_there { c < length table.old }
    ensures { AddedOwn r.now.log r.now.place c counts table.old table.new }
{
    let own = Set::EMPTY.with(r.transaction());
    table[c] = table[c].union(own.only_if(counts));
}

// The transaction of a write joins the set at c.
pub fn add_writer(r: &Record<'_>, c: usize, table: &mut [Set])
    requires row_there { c < length table.old }
    ensures { AddedWriter r.now.log r.now.place c table.old table.new }
{
    add_own(r, c, r.is(Kind::Write), table);
}

// The set joins the row of the record's transaction.
pub fn add_to_row(r: &Record<'_>, to: Set, table: &mut [Set; TRANSACTIONS])
    requires whole { length table.old ≡ transactions }
    ensures { AddedToRow r.now.log r.now.place to table.old table.new }
{
    let i = r.transaction();
    table[i] = table[i].union(to);
}
