ghost use Rattle.std.specs.Prelude.{◌≡◌, ℕ, ◌+◌, ◌-◌, ◌<◌, ◌≤◌, ◌↔◌, [], length, slice_get, count_by, Some, None, IfSome, IsNone, IsTrue, MatchResult, Contains};
ghost use Rattle.std.specs.Ordering.{is_lt};
ghost use Rattle.cps_base.specs.Limits.{most_waiting};
ghost use Rattle.landing_rules.specs.Rules.{first_come_cmp};
ghost use Rattle.fcfs_order.specs.Order.{IsOrder, with_arrival, without};

use cps_base::Callsign;
use std::alloc::{AllocError, Global};
use std::marker::Model;

/// The waiting flights in first-come order: by estimated second, and then by the bytes of the callsign.
///
/// Contracts see the ascending list of pairs (estimate, callsign), no pair twice. The rank of a flight is its place in
/// it, from 1. The order is that of Balakrishnan and Chandran (2010); that the callsign decides between equal
/// estimates is this project's own.
#[derive(Drop)]
pub struct Order {
    arrivals: Vec<(u32, Callsign)>,
}

impl Model for Order {
    ghost use Rattle.std.specs.Prelude.{List, ℕ};
    ghost use Rattle.fcfs_order.specs.Order.{IsOrder};

    ghost Value = { List (ℕ × List ℕ) };

    ghost view = { λ o. o.arrivals.items };

    ghost invariant = { λ o. IsOrder o.arrivals.items };
}

impl Order {
    /// The order of no flight.
    pub fn new(alloc: Global) -> Order
        ensures { result ≡ [] }
    {
        Order {
            arrivals: Vec::new(alloc),
        }
    }

    /// Takes a flight in, at its place. It is not there yet, and fewer than `MOST_WAITING` flights are.
    pub fn insert(&mut self, eta: u32, callsign: Callsign) -> Result<(), AllocError>
        requires absent { Contains self.old (eta, callsign) → ⊥ }
        requires room { length self.old < most_waiting }
        ensures { MatchResult result (λ _. self.new ≡ with_arrival (eta, callsign) self.old)
            (λ _. self.new ≡ self.old) }
    {
        match self.arrivals.binary_search(&(eta, callsign)) {
            Ok(_) => Ok(()),
            Err(place) => {
                self.arrivals.insert(place, (eta, callsign))?;
                Ok(())
            }
        }
    }

    /// Takes a flight out, and answers whether it was there.
    pub fn remove(&mut self, eta: u32, callsign: Callsign) -> bool
        ensures found { IsTrue result ↔ Contains self.old (eta, callsign) }
        ensures rest { self.new ≡ without (eta, callsign) self.old }
    {
        match self.arrivals.binary_search(&(eta, callsign)) {
            Ok(place) => {
                let _ = self.arrivals.remove(place);
                true
            }
            Err(_) => false,
        }
    }

    /// The rank of a flight, from 1: 1 plus the number of flights before it. `None` exactly where it isn't there.
    pub fn rank_of(&self, eta: u32, callsign: Callsign) -> Option<u8>
        ensures found { IfSome result (λ r. (1 ≤ r) × (r ≤ length self.now)
            × (slice_get self.now (r - 1) ≡ Some (eta, callsign))) }
        ensures counted { IfSome result (λ r. r ≡ 1 + count_by
            (λ a. is_lt (first_come_cmp a (eta, callsign))) self.now) }
        ensures absent { IsNone result ↔ (Contains self.now (eta, callsign) → ⊥) }
    {
        match self.arrivals.binary_search(&(eta, callsign)) {
            Ok(place) => Some(place as u8 + 1),
            Err(_) => None,
        }
    }

    /// The number of flights: 0 to `MOST_WAITING`.
    pub fn len(&self) -> u8
        ensures value { result ≡ length self.now }
        ensures order { IsOrder self.now }
    {
        self.arrivals.len() as u8
    }

    /// Whether there is no flight.
    pub fn is_empty(&self) -> bool
        ensures { IsTrue result ↔ (self.now ≡ []) }
    {
        self.arrivals.is_empty()
    }

    /// The flight of a rank: its estimate and callsign.
    pub fn at(&self, rank: u8) -> (u32, Callsign)
        requires { (1 ≤ rank) × (rank ≤ length self.now) }
        ensures { slice_get self.now (rank - 1) ≡ Some result }
    {
        self.arrivals[rank as usize - 1]
    }

    /// The same order.
    pub fn copy(&self) -> Result<Order, AllocError>
        ensures { MatchResult result (λ order. order ≡ self.now) (λ _. Unit {0}) }
    {
        let arrivals = self.arrivals.clone()?;
        Ok(Order { arrivals })
    }
}
