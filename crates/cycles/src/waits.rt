// Who waits for whom: for each transaction the one that it waits for.
ghost use Rattle.std.specs.Prelude.{◌≡◌, ℕ, ◌<◌, cond, eqb};
ghost use Rattle.sets.specs.Bits.{numbers};
ghost use Rattle.cycles.specs.WaitsFor.{whom};

use sets::NUMBERS;
use std::marker::Model;

// A clause sees the list of those that are waited for. Each is a transaction, so that a walk from one to the next never leaves the list.
#[derive(Drop)]
pub struct Waits {
    whom: [u8; NUMBERS],
}

impl Model for Waits {
    ghost use Rattle.std.specs.Prelude.{List, ℕ};
    ghost use Rattle.cycles.specs.WaitsFor.{Kept};

    ghost Value = { List ℕ };

    ghost view = { λ w. w.whom };

    ghost invariant = { λ w. Kept w.whom };
}

impl Waits {
    // At first nothing is known: 0 stands for each.
    pub fn new() -> Waits
        ensures { (t : ℕ) → whom result t ≡ 0 }
    {
        Waits { whom: [0; NUMBERS] }
    }

    // Whom t waits for.
    pub fn whom(&self, t: usize) -> usize
        requires { t < numbers }
        ensures said { result ≡ whom self.now t }
        ensures low { result < numbers }
    {
        self.whom[t] as usize
    }

    // From now on t waits for s.
    pub fn wait_for(&mut self, t: usize, s: usize)
        requires waiting { t < numbers }
        requires waited_for { s < numbers }
        ensures { (u : ℕ) → whom self.new u ≡ cond (eqb t u) s (whom self.old u) }
    {
        self.whom[t] = s as u8;
    }
}
