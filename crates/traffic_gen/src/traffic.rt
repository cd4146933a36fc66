ghost use Rattle.std.specs.Prelude.{◌≡◌, ◌≤◌, IfOk, length};
ghost use Rattle.cps_base.specs.Limits.{greatest_k, most_waiting};
ghost use Rattle.arrivals.specs.Aerodromes.{IsInRange};
ghost use Rattle.arrivals.specs.Flights.{AreArrivals};
ghost use Rattle.traffic_gen.specs.Made.{traffic};

use crate::flights::flights;
use crate::sample::aerodrome_with;
use arrivals::{Aerodrome, Flight};
use std::alloc::{AllocError, Global};
use std::marker::Model;

/// Traffic: an aerodrome, and the flights that come to it. Contracts see these two.
#[derive(Drop)]
pub struct Traffic {
    aerodrome: Aerodrome,
    flights: Vec<Flight>,
}

impl Model for Traffic {
    ghost use Rattle.traffic_gen.specs.Made.{Made};

    ghost Value = { Made };

    ghost view = { λ t. record { aerodrome = t.aerodrome; flights = t.flights.items } };
}

impl Traffic {
    /// The aerodrome and the flights. It takes no memory.
    pub fn into_parts(self) -> (Aerodrome, Vec<Flight>)
        ensures aerodrome { result.0 ≡ self.aerodrome }
        ensures flights { result.1.items ≡ self.flights }
    {
        (self.aerodrome, self.flights)
    }
}

/// The traffic of a seed: n flights, 1 to 60, at an aerodrome with the bound k on shifts, 0 to 3. Equal numbers make
/// equal traffic. Its flights are ones that a flight file can give.
#[tactic(auto, using(crate::proofs::Arrivals::can_be_read, crate::proofs::Arrivals::flights_length))]
pub fn generate(alloc: Global, seed: u64, n: u8, k: u8) -> Result<Traffic, AllocError>
    requires count { (1 ≤ n) × (n ≤ most_waiting) }
    requires shifts { k ≤ greatest_k }
    ensures value { IfOk result (λ t. t ≡ traffic seed n k) }
    ensures range { IfOk result (λ t. IsInRange t.aerodrome) }
    ensures of_file { IfOk result (λ t. AreArrivals t.flights) }
    ensures count { IfOk result (λ t. length t.flights ≡ n) }
{
    let flights = flights(alloc, seed, n)?;
    Ok(Traffic {
        aerodrome: aerodrome_with(alloc, k),
        flights,
    })
}
