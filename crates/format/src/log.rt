// A log within the limits, as a value of its own: each of its records can be had.
ghost use Rattle.std.specs.Prelude.{◌≡◌, ◌<◌};
ghost use Rattle.rules.specs.Record.{records};
ghost use Rattle.rules.specs.Passes.{InLimits};

use crate::record::{Record, record_count};
use std::marker::Model;

// A clause sees the log's bytes.
#[derive(Drop)]
pub struct Log<'a> {
    bytes: &'a [u8],
}

impl<'a> Model for Log<'a> {
    ghost use Rattle.std.specs.Prelude.{List, ℕ};
    ghost use Rattle.rules.specs.Passes.{InLimits};

    ghost Value = { List ℕ };

    ghost view = { λ l. l.bytes.now };

    ghost invariant = { λ l. InLimits l.bytes.now };
}

impl<'a> Log<'a> {
    pub fn new(bytes: &'a [u8]) -> Log<'a>
        requires { InLimits bytes.now }
        ensures { result ≡ bytes.now }
    {
        Log { bytes }
    }

    // How many records it has.
    pub fn records(&self) -> usize
        ensures { result ≡ records self.now }
    {
        record_count(self.bytes)
    }

    // Record k.
    pub fn record(&self, k: usize) -> Record<'a>
        requires { k < records self.now }
        ensures { result ≡ record { log = self.now; place = k } }
    {
        Record::at(self.bytes, k)
    }
}
