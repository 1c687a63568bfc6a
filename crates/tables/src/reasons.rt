// The three reasons for an edge, and tables of edges, in which bit j of number i is for an edge from i to j: a table for each reason.
ghost use Rattle.std.specs.Prelude.{◌≡◌, ◌<◌, length};
ghost use Rattle.sets.specs.Bits.{Holds};
ghost use Rattle.rules.specs.Record.{transactions};

use format::record::TRANSACTIONS;
use sets::Set;

// Why one transaction comes before another, by document 01's numbers.
#[derive(Clone, Copy, Debug, PartialEq, Eq)]
pub enum Reason {
    Conflict = 1,
    WriteOrder = 2,
    ReadBefore = 3,
}

impl Reason {
    ghost use Rattle.tables.specs.Numbers.{number_of};

    pub fn number(self) -> u8
        ensures { result ≡ number_of self }
    {
        self as u8
    }
}

// The edges of each reason.
#[derive(Drop)]
pub struct ReasonTables {
    pub by_conflict: [Set; TRANSACTIONS],
    pub by_order: [Set; TRANSACTIONS],
    pub by_read: [Set; TRANSACTIONS],
}

impl ReasonTables {
    pub const EMPTY: ReasonTables = ReasonTables {
        by_conflict: [Set::EMPTY; TRANSACTIONS],
        by_order: [Set::EMPTY; TRANSACTIONS],
        by_read: [Set::EMPTY; TRANSACTIONS],
    };

    ghost use Rattle.tables.specs.Numbers.{reason_says};
    ghost use Rattle.tables.specs.ReasonTables.{any_reason, lowest_in};

    // The lowest reason of an edge from i to j, if there is one.
    pub fn lowest_reason(&self, i: usize, j: usize) -> Option<Reason>
        requires { (i < transactions) × (j < transactions) }
        ensures { reason_says result ≡ lowest_in self.now.by_conflict self.now.by_order self.now.by_read i j }
    {
        if i == j {
            return None;
        }
        if self.by_conflict[i].has(j) {
            return Some(Reason::Conflict);
        }
        if self.by_order[i].has(j) {
            return Some(Reason::WriteOrder);
        }
        if self.by_read[i].has(j) {
            return Some(Reason::ReadBefore);
        }
        None
    }

    // One table of every edge: those of all three reasons, none of them from a transaction to itself.
    pub fn joined(&self) -> [Set; TRANSACTIONS]
        ensures { Holds transactions (any_reason self.now.by_conflict self.now.by_order self.now.by_read) result }
    {
        let mut rows = [Set::EMPTY; TRANSACTIONS];
        for i in 0..TRANSACTIONS {
            let all = self.by_conflict[i]
                .union(self.by_order[i])
                .union(self.by_read[i]);
            rows[i] = all.without(i);
        }
        rows
    }
}
