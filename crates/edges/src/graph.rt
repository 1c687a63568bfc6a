// The graph of a log as a table of its edges, and the question "edge from i to j".
ghost use Rattle.std.specs.Prelude.{◌≡◌};
ghost use Rattle.rules.specs.Passes.{Passes};
ghost use Rattle.rules.specs.Questions.{members};
ghost use Rattle.edges.specs.ByReason.{HoldsEdges};
ghost use Rattle.edges.specs.Promises.{GivesGraph, TellsEdge};

use checked_log::passed::Passed;
use conflicts::conflicts;
use format::record::TRANSACTIONS;
use orders::order::WriteOrder;
use orders::reasons::order_edges;
use refusals::refusal::Refusal;
use sets::Set;
use tables::reasons::{Reason, ReasonTables};

// The edges of a log that passes, in the table of each reason, whatever the tables held before. The result is the set of its transactions. Three
// passes and the walks back to sources; some 18 KiB are cleared. The tables are lent all the way, since handing them out would copy them.
pub fn edges_by_reason(passed: &Passed<'_>, tables: &mut ReasonTables) -> Set
    ensures members { result ≡ members passed.now }
    ensures tables_filled { HoldsEdges passed.now tables.new }
    ensures passes { Passes passed.now }
{
    let log = passed.log();
    let order = WriteOrder::of_log(passed);
    conflicts(&log, &mut tables.by_conflict);
    order_edges(&log, &order, &mut tables.by_order, &mut tables.by_read);
    order.committed
}

// The graph of any bytes: the set of its transactions, or a refusal. Its edges are in the table that was lent: bit j of number i is the
// edge from i to j. The log is checked first.
pub fn graph_of_log(log: &[u8], table: &mut [Set; TRANSACTIONS]) -> Result<Set, Refusal>
    ensures { GivesGraph log.now table.old result table.new }
{
    let passed = Passed::check(log)?; // A refusal leaves the table.
    let mut tables = ReasonTables::EMPTY;
    let members = edges_by_reason(&passed, &mut tables);
    *table = tables.joined();
    Ok(members)
}

// The lowest reason of the edge from i to j, if there is one. Any bytes and any numbers may be asked: the log is checked first, and then
// that both are transactions. All edges are looked for, so it costs as much as the graph.
pub fn edge_between(log: &[u8], i: usize, j: usize) -> Result<Option<Reason>, Refusal>
    ensures { TellsEdge log.now i j result }
{
    let passed = Passed::check(log)?;
    if TRANSACTIONS <= i || TRANSACTIONS <= j {
        return Err(Refusal::BadQuestion);
    }
    let mut tables = ReasonTables::EMPTY;
    edges_by_reason(&passed, &mut tables);
    Ok(tables.lowest_reason(i, j))
}
