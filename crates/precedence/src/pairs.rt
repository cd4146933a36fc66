//! A set of pairs of ranks.

ghost use Rattle.std.specs.Prelude.{◌≡◌, ℕ, ◌≤◌, ◌⊎◌, ◌↔◌, IsTrue};
ghost use Rattle.cps_base.specs.Limits.{most_waiting};
ghost use Rattle.precedence.specs.Pairs.{HasBit, MustPrecede, AreInRange, must_precede};

use cps_base::MOST_WAITING;
use std::marker::Model;

// A place for each rank, and one for 0.
const PLACES: usize = MOST_WAITING as usize + 1;

/// A set of pairs of ranks, the first of which must land before the next. Ranks are 1 to `MOST_WAITING`.
///
/// This project's own form of the precedence constraints between flights.
#[derive(Clone, Copy, PartialEq, Eq)]
pub struct Pairs {
    // At each rank the ranks that must precede it, as bits. Place 0 has none.
    predecessors: [u64; PLACES],
}

impl Model for Pairs {
    ghost use Rattle.std.specs.Prelude.{List, ℕ};
    ghost use Rattle.precedence.specs.Pairs.{ArePairs};

    ghost Value = { List ℕ };

    ghost view = { λ p. p.predecessors };

    ghost invariant = { λ p. ArePairs p.predecessors };

    ghost inverse = { λ xs. record { predecessors = xs } };
}

impl Pairs {
    /// No pair.
    pub fn new() -> Pairs
        ensures { (first : ℕ) → (next : ℕ) → MustPrecede result first next → ⊥ }
    {
        Pairs {
            predecessors: [0; PLACES],
        }
    }

    /// Adds the pair: `first` must land before `next`. A pair that is there already stays.
    pub fn add(&mut self, first: u8, next: u8)
        requires first { (1 ≤ first) × (first ≤ most_waiting) }
        requires next { (1 ≤ next) × (next ≤ most_waiting) }
        ensures { (i : ℕ) → (j : ℕ) → MustPrecede self.new i j
            ↔ (MustPrecede self.old i j ⊎ ((i ≡ first) × (j ≡ next))) }
    {
        self.predecessors[next as usize] |= 1 << first;
    }

    /// Whether `first` must land before `next`: exactly where the pair was added.
    pub fn must_precede(&self, first: u8, next: u8) -> bool
        requires first { (1 ≤ first) × (first ≤ most_waiting) }
        requires next { (1 ≤ next) × (next ≤ most_waiting) }
        ensures in_range { AreInRange self.now }
        ensures pair { IsTrue result ↔ MustPrecede self.now first next }
        ensures test { result ≡ must_precede self.now first next }
    {
        (self.predecessors[next as usize] >> first) & 1 == 1
    }

    /// Whether every rank that must land before `next` has its bit set in `placed`: bit r for rank r.
    pub fn all_before(&self, next: u8, placed: u64) -> bool
        requires { (1 ≤ next) × (next ≤ most_waiting) }
        ensures in_range { AreInRange self.now }
        ensures all { IsTrue result ↔ ((first : ℕ) → MustPrecede self.now first next → HasBit
            placed first) }
    {
        let wanted = self.predecessors[next as usize];
        wanted & placed == wanted
    }
}
