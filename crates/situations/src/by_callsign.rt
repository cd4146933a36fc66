// The flights in the system by callsign: the map, look-ups, and changes of the flight that has a callsign.
ghost use Rattle.std.specs.Prelude.{◌≡◌, ◌≢◌, AllPairs, IfOk, find, map, option_map};
ghost use Rattle.std.specs.List.{list_any};
ghost use Rattle.landing_rules.specs.Events.{named, revise, revised};
ghost use Rattle.arrivals.specs.Seen.{revision_of};
ghost use Rattle.situations.specs.Opened.{newcomers};
ghost use Rattle.situations.specs.Named.{counted, frozen_so};
ghost use Rattle.situations.specs.Seen.{AreApart};

use crate::{Active, Situation};
use arrivals::{Flight, Revision};
use cps_base::Callsign;
use indexmap::IndexMap;
use std::alloc::{AllocError, Global};

/// The flights by callsign, in the order of their file. Each waits, and none has passed it.
pub(crate) fn by_callsign(
    alloc: Global,
    flights: &[Flight],
) -> Result<IndexMap<Callsign, Active>, AllocError>
    requires { AllPairs (λ f later. f.callsign ≢ later.callsign) flights.now }
    ensures { IfOk result (λ active. active.entries ≡ newcomers flights.now) }
{
    let mut active = IndexMap::with_capacity(alloc, flights.len())?;
    for flight in flights {
        active.insert(flight.callsign, Active::waiting(flight))?;
    }
    Ok(active)
}

// Sets this anew of the flight.
fn revise(active: &mut Active, revision: &Revision)
    ensures { active.new ≡ record active.old {
      flight = revised (revision_of revision.now) active.old.flight;
    } }
{
    match revision {
        Revision::Times(eta, windows) => {
            active.flight.eta = *eta;
            active.flight.windows = windows.copy();
        }
    }
}

// The flight is frozen at this second, or waits.
fn set_frozen(active: &mut Active, second: Option<u32>)
    ensures { active.new ≡ record active.old { frozen = second } }
{
    active.frozen = second;
}

// So many have passed the flight.
fn set_passed(active: &mut Active, count: u8)
    ensures { active.new ≡ record active.old { passed = count } }
{
    active.passed = count;
}

impl Situation {
    /// No callsign stands twice.
    pub(crate) fn known_apart(&self)
        ensures { AreApart self.now.active }
    {
        let _ = self.active.as_slice();
    }

    /// The flight of the callsign.
    pub(crate) fn find(&self, callsign: Callsign) -> Option<&Active>
        ensures { option_map (λ a. a.now) result ≡ find (named callsign) self.now.active }
    {
        self.active.get(&callsign)
    }

    /// Whether a flight of the callsign is active.
    pub(crate) fn is_active(&self, callsign: Callsign) -> bool
        ensures { result ≡ list_any (named callsign) self.now.active }
    {
        self.find(callsign).is_some()
    }

    /// Sets this anew of the flight of the callsign.
    pub(crate) fn revise(&mut self, callsign: Callsign, revision: &Revision)
        ensures { self.new ≡ record self.old {
          active = map
              (revise callsign (revision_of revision.now)) self.old.active;
        } }
    {
        match self.active.get_mut(&callsign) {
            None => {}
            Some(active) => revise(active, revision),
        }
    }

    /// The flight of the callsign is frozen at this second, or waits.
    pub(crate) fn set_frozen(&mut self, callsign: Callsign, second: Option<u32>)
        ensures { self.new ≡ record self.old {
          active = map (frozen_so callsign second)
              self.old.active;
        } }
    {
        match self.active.get_mut(&callsign) {
            None => {}
            Some(active) => set_frozen(active, second),
        }
    }

    /// So many have passed the flight of the callsign.
    pub(crate) fn set_passed(&mut self, callsign: Callsign, count: u8)
        ensures { self.new ≡ record self.old {
          active = map (counted callsign count)
              self.old.active;
        } }
    {
        match self.active.get_mut(&callsign) {
            None => {}
            Some(active) => set_passed(active, count),
        }
    }
}
