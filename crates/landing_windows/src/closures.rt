ghost use Rattle.std.specs.Prelude.{◌≡◌, [], ◌∷◌, ◌++◌, ◌+◌, ◌≤◌, ◌<◌, length, All, OnOk, OnErr, slice_get, Some};
ghost use Rattle.std.specs.Bool.{OnFalse};
ghost use Rattle.std.specs.List.{list_any};
ghost use Rattle.landing_rules.specs.Events.{same_span, without_first};
ghost use Rattle.cps_base.specs.Limits.{most_closures};
ghost use Rattle.landing_rules.specs.Rules.{last_second};
ghost use Rattle.landing_windows.specs.Closed.{IsClosure, adding};

use cps_base::MOST_CLOSURES;
use std::marker::Model;

/// Why a closure is not added.
#[derive(Clone, Copy, Debug, PartialEq, Eq)]
pub enum ClosureFault {
    /// It holds no second.
    Empty,
    /// 32 closures stand.
    TooMany,
}

/// The closures of the runway, at most 32, in the order in which they were added. Each holds its first second and not its
/// end. Contracts see the list of pairs (first second, end).
#[derive(Clone, Copy)]
pub struct Closures {
    pairs: [(u32, u32); 32],
    len: usize,
}

impl Model for Closures {
    ghost use Rattle.std.specs.Prelude.{◌≡◌, ◌≤◌, List, ℕ, length, take, All};
    ghost use Rattle.std.proofs.Common.{sym};
    ghost use Rattle.cps_base.specs.Padded.{padded};
    ghost use Rattle.landing_windows.specs.Closed.{IsClosure};

    ghost Value = { List (ℕ × ℕ) };

    ghost view = { λ c. take c.len c.pairs };

    ghost invariant = { λ c. (c.pairs ≡ padded (0, 0) 32 (take c.len c.pairs))
        × (length (take c.len c.pairs) ≡ c.len) × (c.len ≤ 32)
        × All IsClosure (take c.len c.pairs) };

    ghost inverse = { λ pairs. record { pairs = padded (0, 0) 32 pairs; len = length pairs } };

    ghost inverse_ok = { λ c h i. record { pairs = sym h.0 i; len = h.1 i } };
}

impl Closures {
    /// No closure.
    pub fn new() -> Closures
        ensures { result ≡ [] }
    {
        Closures {
            pairs: [(0, 0); 32],
            len: 0,
        }
    }

    /// Adds the closure of the seconds `from` up to `to - 1`, where `from` is at most 172,799 and `to` at most 172,800.
    /// An equal one may stand already. A refusal changes nothing.
    pub fn add(&mut self, from: u32, to: u32) -> Result<(), ClosureFault>
        requires first { from ≤ last_second }
        requires end { to ≤ last_second + 1 }
        ensures answer { result ≡ adding self.old from to }
        ensures ok { OnOk result (self.new ≡ self.old ++ (from, to) ∷ []) }
        ensures err { OnErr result (self.new ≡ self.old) }
    {
        if to <= from {
            return Err(ClosureFault::Empty);
        }
        if self.len >= MOST_CLOSURES {
            return Err(ClosureFault::TooMany);
        }
        self.push((from, to));
        Ok(())
    }

    // Adds a closure, for which there is a place.
    fn push(&mut self, pair: (u32, u32))
        requires place { length self.old < most_closures }
        requires closure { IsClosure pair }
        ensures { self.new ≡ self.old ++ pair ∷ [] }
    {
        self.pairs[self.len] = pair;
        self.len += 1;
    }

    /// Takes out the first closure from `from` to `to`. False exactly where there is none, and then nothing changes.
    pub fn remove(&mut self, from: u32, to: u32) -> bool
        ensures value { result ≡ list_any (same_span (from, to)) self.old }
        ensures rest { self.new ≡ without_first (same_span (from, to)) self.old }
        ensures absent { OnFalse result (self.new ≡ self.old) }
    {
        let is_there = contains(self.pairs(), (from, to));
        *self = without(self.pairs(), (from, to));
        is_there
    }

    /// How many closures there are, 0 to 32.
    pub fn len(&self) -> usize
        ensures value { result ≡ length self.now }
        ensures bound { length self.now ≤ most_closures }
    {
        self.len
    }

    /// The i-th closure, counted from 0, as its first second and its end.
    pub fn pair(&self, i: usize) -> (u32, u32)
        requires { i < length self.now }
        ensures value { slice_get self.now i ≡ Some result }
        ensures closure { IsClosure result }
    {
        self.pairs()[i]
    }

    /// The closures, in order, each as its first second and its end.
    pub fn pairs(&self) -> &[(u32, u32)]
        ensures value { result.now ≡ self.now }
        ensures few { length self.now ≤ most_closures }
        ensures closures { All IsClosure self.now }
    {
        &self.pairs[..self.len]
    }
}

fn is_same(a: (u32, u32), b: (u32, u32)) -> bool
    ensures { result ≡ same_span a b }
{
    a.0 <= b.0 && b.0 <= a.0 && a.1 <= b.1 && b.1 <= a.1
}

fn contains(pairs: &[(u32, u32)], pair: (u32, u32)) -> bool
    ensures { result ≡ list_any (same_span pair) pairs.now }
{
    pairs.iter().any(|other| is_same(pair, *other))
}

// The closures without the first one that is equal to `pair`.
fn without(pairs: &[(u32, u32)], pair: (u32, u32)) -> Closures
    requires few { length pairs.now ≤ most_closures }
    requires closures { All IsClosure pairs.now }
    ensures { result ≡ without_first (same_span pair) pairs.now }
{
    let mut kept = Closures::new();
    let mut is_found = false;
    for other in pairs {
        let is_first_equal = !is_found && is_same(pair, *other);
        if is_first_equal {
            is_found = true;
        } else {
            kept.push(*other);
        }
    }
    kept
}
