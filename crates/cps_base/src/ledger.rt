// Counts of steps, and the ledgers that keep them.
ghost use Rattle.std.specs.Prelude.{◌≡◌, ◌^◌, ◌<◌, ℕ, Option, Some, None};
ghost use Rattle.cps_base.specs.Tally.{raised_by, FitsCount, silent_fits};

use std::marker::Model;

/// Where steps of work are counted. Its one meaning is its count, which it tells or keeps to itself.
pub trait Ledger {
    ghost count: { Self → Option ℕ };

    /// Adds `n` steps. A told count grows by `n`, and stops at the last value of a `u64`.
    fn add(&mut self, n: u64)
        ensures { count self.new ≡ raised_by n (count self.old) };

    ghost fits: { (ledger : Self) → FitsCount (count ledger) };
}

/// The ledger that keeps nothing and tells no count.
#[derive(Clone, Copy, Debug)]
pub struct Silent;

impl Ledger for Silent {
    ghost count = { λ _. None };

    ghost fits = { λ _. silent_fits };

    fn add(&mut self, _n: u64) {}
}

/// The ledger that keeps its count in a `u64`, and tells it.
#[derive(Debug, Drop)]
pub struct Counted {
    value: u64,
    ghost in_range: { value < 2 ^ 64 },
}

impl Counted {
    ghost use Rattle.cps_base.specs.Counted.{count_of};

    /// A count of 0.
    pub fn new() -> Counted
        ensures { count_of result ≡ 0 }
    {
        Counted { value: 0 }
    }

    /// The count.
    pub fn value(&self) -> u64
        ensures { result ≡ count_of self.now }
    {
        self.value
    }
}

impl Ledger for Counted {
    ghost use Rattle.cps_base.specs.Counted.{count_of, counted_fits};

    ghost count = { λ ledger. Some (count_of ledger) };

    ghost fits = { counted_fits };

    fn add(&mut self, n: u64) {
        self.value = self.value.saturating_add(n);
    }
}

/// The steps that a piece of work ticks, on a ledger. Contracts see the ledger.
#[derive(Debug, Drop)]
pub struct Steps<L: Ledger> {
    ledger: L,
}

impl<L: Ledger> Model for Steps<L> {
    ghost Value = { L };

    ghost view = { λ steps. steps.ledger };
}

impl<L: Ledger> Steps<L> {
    /// Steps that are counted on this ledger, from its count on.
    pub fn new(ledger: L) -> Steps<L>
        ensures { result ≡ ledger }
    {
        Steps { ledger }
    }

    /// `n` more steps: one `add` on the ledger.
    pub fn tick(&mut self, n: u64)
        ensures { L.count self.new ≡ raised_by n (L.count self.old) }
    {
        self.ledger.add(n);
    }

    /// The ledger.
    pub fn ledger(&self) -> &L
        ensures { result.now ≡ self.now }
    {
        &self.ledger
    }
}
