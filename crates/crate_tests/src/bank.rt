//! Waiting flights for tests, each of which comes behind those before it.

ghost use Rattle.std.specs.Prelude.{◌≡◌, ◌≢◌, ℕ, ◌<◌, ◌≤◌, All, AllPairs, IfOk, IsTrue, map, vec_len};
ghost use Rattle.cps_base.specs.Limits.{most_waiting};
ghost use Rattle.landing_rules.specs.Rules.{last_second};
ghost use Rattle.precedence.specs.Pairs.{MustPrecede};
ghost use Rattle.cps_problem.specs.Seen.{waiting_of};

use cps_base::{Callsign, MOST_WAITING};
use cps_problem::{Head, Objective, Problem, Waiting};
use landing_windows::{Closures, OpenTimes, WindowSet};
use precedence::Pairs;
use std::alloc::Global;
use std::test::Fail;
use wake_table::{CATEGORY_COUNT, Category, PairTable};

/// Flights of weight 1 for a planning with k places of shift, in the order of their estimates.
#[derive(Drop)]
pub struct Bank {
    pub(crate) k: u8,
    waiting: Vec<Waiting>,
    ghost near: { k ≤ 3 },
    ghost few: { vec_len waiting ≤ most_waiting },
    ghost in_order: { AllPairs (λ f g. (f.eta < g.eta) × (f.callsign ≢ g.callsign))
        (map waiting_of waiting.items) },
    ghost in_range: { All (λ f. (f.eta ≤ last_second) × (f.weight ≡ 1) × (f.passed ≤ k))
        (map waiting_of waiting.items) },
}

// Whether a flight comes behind another, under another callsign.
fn follows(earlier: &Waiting, flight: &Waiting) -> bool
    ensures { IsTrue result → (earlier.now.eta < flight.now.eta)
        × (earlier.now.callsign ≢ flight.now.callsign) }
{
    earlier.eta < flight.eta && earlier.callsign != flight.callsign
}

// Whether a flight comes behind all of these.
fn comes_last(waiting: &Vec<Waiting>, flight: &Waiting) -> bool
    ensures { IsTrue result → All (λ f. (f.eta < flight.now.eta)
        × (f.callsign ≢ flight.now.callsign)) (map waiting_of waiting.now.items) }
{
    waiting.iter().all(|earlier| follows(earlier, flight))
}

impl Bank {
    /// No flight yet, and at most 3 places of shift.
    pub fn new(alloc: Global, k: u8) -> Bank
        requires { k ≤ 3 }
        ensures { result.k ≡ k }
    {
        Bank {
            k,
            waiting: Vec::new(alloc),
        }
    }

    // Adds a flight behind the others.
    fn push(&mut self, flight: Waiting) -> Result<(), Fail>
        requires { (flight.eta ≤ last_second) × (flight.weight ≡ 1) × (flight.passed ≤ self.old.k) }
        ensures { self.new.k ≡ self.old.k }
    {
        let is_last = self.waiting.len() < MOST_WAITING as usize
            && comes_last(&self.waiting, &flight);
        if !is_last {
            drop(flight);
            return Err(Fail::new("not behind the others"));
        }
        self.waiting.push(flight)?;
        Ok(())
    }

    /// Adds a flight of weight 1 that so many passed, and that may land from its estimate to this second. It fails where the
    /// flight does not come behind the others, or is none of such a planning.
    pub fn add(
        &mut self,
        name: &[u8],
        category: Category,
        passed: u8,
        eta: u32,
        last: u32,
    ) -> Result<(), Fail>
        ensures { self.new.k ≡ self.old.k }
    {
        if passed > self.k || eta > last || last > 172799 {
            return Err(Fail::new("not a flight of the bank"));
        }
        let callsign = Callsign::read(name).ok_or("not a callsign")?;
        let alloc = *self.waiting.allocator();
        let windows = WindowSet::new(alloc, &[(eta, last)])?;
        let times = OpenTimes::of(alloc, &windows, &Closures::new())?;
        self.push(Waiting {
            callsign,
            category,
            eta,
            weight: 1,
            passed,
            times,
        })?;
        Ok(())
    }

    /// Adds the flight of a number, 1000 seconds and so many behind the start, that may land until second 8199.
    pub fn add_numbered(&mut self, number: u8, passed: u8) -> Result<(), Fail>
        requires { number < 100 }
        ensures { self.new.k ≡ self.old.k }
    {
        let name = [b'F', b'0' + number / 10, b'0' + number % 10];
        self.add(&name, Category::A, passed, 1000 + number as u32, 8199)?;
        Ok(())
    }

    /// Their problem: a minute between any two landings, and nothing is frozen. The first of two ranks must land before the
    /// next; no pair is asked for where the first is 0.
    pub fn problem(self, objective: Objective, first: u8, next: u8) -> Result<Problem, Fail>
        ensures k { IfOk result (λ problem. problem.k ≡ self.k) }
        ensures objective { IfOk result (λ problem. problem.objective ≡ objective) }
    {
        let n = self.waiting.len();
        if first as usize > n || next < 1 || next as usize > n {
            return Err(Fail::new("not a pair of ranks"));
        }
        let table = PairTable::new([[60; CATEGORY_COUNT]; CATEGORY_COUNT])?;
        let head = Head {
            table,
            k: self.k,
            objective,
            horizon: 0,
            last: None,
            base: 0,
        };
        Ok(Problem::build(head, self.waiting, one_pair(first, next)))
    }
}

// The pair of two ranks, and no pair where the first is 0.
fn one_pair(first: u8, next: u8) -> Pairs
    requires first { first ≤ most_waiting }
    requires next { (1 ≤ next) × (next ≤ most_waiting) }
    ensures { (i : ℕ) → (j : ℕ) → MustPrecede result i j → (1 ≤ i) × (i ≡ first) × (j ≡ next) }
{
    let mut pairs = Pairs::new();
    if first > 0 {
        pairs.add(first, next);
    }
    pairs
}
