// Sets of numbers below 64, each as the bits of a u64.
#![tactic(auto)]

ghost use Rattle.std.specs.Prelude.{◌≡◌, ◌&&◌, ◌||◌, not, true, ℕ, ◌<◌, ◌^◌, eqb};
ghost use Rattle.sets.specs.Bits.{numbers, has};
ghost use Rattle.sets.specs.Search.{next_from, found_says};

use std::marker::Model;

// How many numbers there are that a set may have: those below 64.
pub const NUMBERS: usize = 64;

// A set of numbers below 64. A clause sees it as the number of its bits, and asks `has` of that.
#[derive(Clone, Copy, Debug, PartialEq, Eq)]
pub struct Set {
    bits: u64,
}

impl Model for Set {
    ghost Value = { ℕ };

    ghost view = { λ s. s.bits };

    ghost invariant = { λ s. s.bits < 2 ^ 64 };

    ghost inverse = { λ n. record { bits = n } };
}

impl Set {
    pub const EMPTY: Set = Set { bits: 0 };

    // The set of these bits: any number of 64 bits is a set's.
    pub fn of_bits(bits: u64) -> Set
        ensures { result ≡ bits }
    {
        Set { bits }
    }

    // Its bits: bit i is 1 where the set has i.
    pub fn bits(self) -> u64
        ensures { result ≡ self }
    {
        self.bits
    }

    // Whether the set has i.
    pub fn has(self, i: usize) -> bool
        requires { i < 64 }
        ensures { result ≡ has self i }
    {
        (self.bits >> i) % 2 == 1
    }

    // The set with i added.
    pub fn with(self, i: usize) -> Set
        requires { i < 64 }
        ensures { (j : ℕ) → has result j ≡ (has self j || eqb i j) }
    {
        Set {
            bits: self.bits | (1 << i),
        }
    }

    // The set without i: put in first, so that turning its bit over takes it out.
    pub fn without(self, i: usize) -> Set
        requires { i < 64 }
        ensures { (j : ℕ) → has result j ≡ (has self j && not (eqb i j)) }
    {
        let own: u64 = 1 << i;
        Set {
            bits: (self.bits | own) ^ own,
        }
    }

    // What is in one of the two sets, or in both.
    pub fn union(self, other: Set) -> Set
        ensures { (j : ℕ) → has result j ≡ (has self j || has other j) }
    {
        Set {
            bits: self.bits | other.bits,
        }
    }

    // What is in both sets.
    pub fn common(self, other: Set) -> Set
        ensures { (j : ℕ) → has result j ≡ (has self j && has other j) }
    {
        Set {
            bits: self.bits & other.bits,
        }
    }

    // What is in this set and not in the other: what the other has is put in first, so that turning it over takes it out.
    pub fn minus(self, other: Set) -> Set
        ensures { (j : ℕ) → has result j ≡ (has self j && not (has other j)) }
    {
        Set {
            bits: (self.bits | other.bits) ^ other.bits,
        }
    }

    // The set where the test holds, and else nothing. What is joined so costs the same either way: of a log's records nobody can
    // foretell which are writes, and a branch that was foretold wrongly costs more than the work it saves.
    pub fn only_if(self, test: bool) -> Set
        ensures { (j : ℕ) → has result j ≡ (test && has self j) }
    {
        if test { self } else { Set::EMPTY }
    }

    // The lowest number that the set has from the given one on, if it has one. A caller also learns that all its numbers are below 64.
    #[tactic(auto, using(crate::proofs::Members::members_low))]
    pub fn next_from(self, from: usize) -> Option<usize>
        ensures found { found_says result ≡ next_from from numbers (has self) }
        ensures low { (t : ℕ) → has self t ≡ true → t < numbers }
    {
        let bits = self.bits;
        if NUMBERS <= from {
            return None;
        }
        let above = bits >> from;
        if above == 0 {
            return None;
        }
        Some(from + above.trailing_zeros() as usize)
    }
}
