ghost use Rattle.std.specs.Prelude.{◌≡◌};
ghost use Rattle.landing_rules.specs.Rules.{lists};
ghost use Rattle.landing_rules.specs.Events.{newcomer};
ghost use Rattle.arrivals.specs.Seen.{flight_of};

use arrivals::Flight;
use cps_base::Callsign;
use std::alloc::AllocError;
use std::marker::Model;

/// A flight in the system. Contracts see the rules' own (`landing_rules`, `Active`).
#[derive(Drop)]
pub struct Active {
    /// The flight, as its file or an event gave it; an estimate changes its second and its windows.
    pub flight: Flight,
    /// The second at which it is frozen, if it is.
    pub frozen: Option<u32>,
    /// With the carry, how many flights behind it in first-come order were frozen ahead of it, counted up to k; else 0.
    pub passed: u8,
}

impl Model for Active {
    ghost use Rattle.landing_rules.specs.Flights as rules;
    ghost use Rattle.arrivals.specs.Seen.{flight_of};

    ghost Value = { rules.Active };

    ghost view = { λ a. record {
      flight = flight_of a.flight;
      frozen = a.frozen;
      passed = a.passed;
    } };
}

impl Clone for Active {
    ghost use Rattle.std.specs.Prelude.{◌≡◌};

    ghost is_clone = { λ a b. b ≡ a };

    fn clone(&self) -> Result<Active, AllocError> {
        Ok(Active {
            flight: self.flight.copy(),
            frozen: self.frozen,
            passed: self.passed,
        })
    }
}

// Whether the flight names the callsign among its predecessors.
fn lists(flight: &Flight, callsign: Callsign) -> bool
    ensures { result ≡ lists (flight_of flight.now) callsign }
{
    flight.after.names().iter().any(|name| *name == callsign)
}

impl Active {
    // The flight, which waits. None has passed it.
    pub(crate) fn waiting(flight: &Flight) -> Active
        ensures { result ≡ newcomer (flight_of flight.now) }
    {
        Active {
            flight: flight.copy(),
            frozen: None,
            passed: 0,
        }
    }

    /// Whether the flight is to land behind that of the callsign.
    pub fn lists(&self, callsign: Callsign) -> bool
        ensures { result ≡ lists self.now.flight callsign }
    {
        lists(&self.flight, callsign)
    }
}
