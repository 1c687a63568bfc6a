// A log that passes the check, as a value of its own: who holds one need not ask again.
ghost use Rattle.std.specs.Prelude.{◌≡◌};
ghost use Rattle.rules.specs.Passes.{Passes};
ghost use Rattle.checked_log.specs.Promises.{ChecksPassed};

use crate::check::check;
use format::log::Log;
use refusals::refusal::Refusal;
use std::marker::Model;

// A clause sees the log's bytes.
#[derive(Drop)]
pub struct Passed<'a> {
    bytes: &'a [u8],
}

impl<'a> Model for Passed<'a> {
    ghost use Rattle.std.specs.Prelude.{List, ℕ};
    ghost use Rattle.rules.specs.Passes.{Passes};

    ghost Value = { List ℕ };

    ghost view = { λ l. l.bytes.now };

    ghost invariant = { λ l. Passes l.bytes.now };
}

impl<'a> Passed<'a> {
    // The log, where no number applies to it; else the first that does.
    pub fn check(log: &'a [u8]) -> Result<Passed<'a>, Refusal>
        ensures { ChecksPassed log.now result }
    {
        check(log)?;
        Ok(Passed::new(log))
    }

    // A log of which it is known already.
    pub fn new(log: &'a [u8]) -> Passed<'a>
        requires { Passes log.now }
        ensures { result ≡ log.now }
    {
        Passed { bytes: log }
    }

    // The log, which is within the limits.
    pub fn log(&self) -> Log<'a>
        ensures same { result ≡ self.now }
        ensures passes { Passes self.now }
    {
        Log::new(self.bytes)
    }
}
