ghost use Rattle.std.specs.Prelude.{◌≡◌, ◌≤◌, [], All, IfOk, None, length, map};
ghost use Rattle.wake_table.specs.Table.{IsWakeTable};
ghost use Rattle.landing_rules.specs.Flights.{horizon};
ghost use Rattle.cps_base.specs.Limits.{greatest_k, latest_horizon, longest_freeze, most_closures};
ghost use Rattle.landing_rules.specs.Sound.{IsSound};
ghost use Rattle.arrivals.specs.Seen.{flight_of};
ghost use Rattle.arrivals.specs.Aerodromes.{IsInRange};
ghost use Rattle.landing_rules.specs.Events.{look_up};
ghost use Rattle.situations.specs.Named.{with_count, with_second};
ghost use Rattle.situations.specs.Opened.{CanOpen, IsKept, counts_in, opened, seconds_in};
ghost use Rattle.situations.specs.Refused.{opening_fault};
ghost use Rattle.indexmap.specs.IndexMap.{values};
ghost use Rattle.situations.specs.Seen.{AreKeyed, fixed_of};

use crate::Active;
use crate::by_callsign::by_callsign;
use arrivals::{Aerodrome, Flight, FrozenLanding, PassedCount};
use cps_base::{Callsign, MOST_CLOSURES, MOST_PREDECESSORS, MOST_WINDOWS};
use indexmap::IndexMap;
use landing_rules::Objective;
use landing_windows::Closures;
use std::alloc::{AllocError, Global};
use std::marker::Model;
use wake_table::{Category, PairTable};

/// What the aerodrome fixes, as its file says it.
#[derive(Clone, Copy)]
pub struct Fixed {
    /// The most places by which a flight may leave its first-come place: 0 to 3.
    pub k: u8,
    /// How many seconds ahead of the clock landings are frozen: 0 to 7,200.
    pub freeze: u32,
    /// What a plan makes least.
    pub objective: Objective,
    /// The separations between leaders and followers.
    pub table: PairTable,
    /// Whether flights keep a count of those that passed them.
    pub carry: bool,
}

/// The flights in the system by callsign, in order of arrival, the closures that stand, and the last accepted second of
/// the clock. Contracts see the rules' own (`landing_rules`, `Situation`).
#[derive(Drop)]
pub struct Situation {
    pub(crate) fixed: Fixed,
    pub(crate) active: IndexMap<Callsign, Active>,
    pub(crate) closures: Closures,
    pub(crate) clock: Option<u32>,
}

impl Model for Situation {
    ghost use Rattle.landing_rules.specs.Flights as rules;
    ghost use Rattle.situations.specs.Seen.{seen, IsInStep};

    ghost Value = { rules.Situation };

    ghost view = { seen };

    ghost invariant = { IsInStep };
}

impl Situation {
    // With these flights.
    fn with(aerodrome: &Aerodrome, active: IndexMap<Callsign, Active>) -> Situation
        requires ranges { IsInRange aerodrome.now }
        requires keyed { AreKeyed active }
        ensures value { result ≡ record (opened aerodrome.now []) { active = values active } }
        ensures table { IsWakeTable aerodrome.now.table }
        ensures closures { length aerodrome.now.closures ≤ most_closures }
    {
        prove!(aerodrome.table.sep(Category::A, Category::A) >= 1);
        prove!(aerodrome.closures.len() <= MOST_CLOSURES);
        Situation {
            fixed: Fixed {
                k: aerodrome.k,
                freeze: aerodrome.freeze,
                objective: aerodrome.objective,
                table: aerodrome.table,
                carry: aerodrome.carry,
            },
            active,
            closures: aerodrome.closures,
            clock: aerodrome.clock,
        }
    }

    // Each flight is frozen where the first entry of its callsign says.
    fn freeze_listed(&mut self, entries: &[FrozenLanding])
        ensures { self.new ≡ record self.old {
          active = map
              (λ a. with_second (look_up a.flight.callsign (seconds_in entries.now)) a)
              self.old.active;
        } }
    {
        for i in (0..entries.len()).rev() {
            let entry = entries[i];
            self.set_frozen(entry.callsign, Some(entry.second));
        }
    }

    // Each flight has the count that the first entry of its callsign says.
    fn count_listed(&mut self, entries: &[PassedCount])
        ensures { self.new ≡ record self.old {
          active = map
              (λ a. with_count (look_up a.flight.callsign (counts_in entries.now)) a)
              self.old.active;
        } }
    {
        for i in (0..entries.len()).rev() {
            let entry = entries[i];
            self.set_passed(entry.callsign, entry.count);
        }
    }

    /// The situation that an aerodrome and its flights open: the flights in the order of their file, each frozen where the
    /// aerodrome's file has it frozen and with the count that it gives, and the clock second of the file. It is asked that
    /// there are at most 500 flights, with callsigns apart, and that all numbers are in their ranges. Where no opening
    /// refusal holds it is a sound one.
    pub fn opening(
        alloc: Global,
        aerodrome: &Aerodrome,
        flights: &[Flight],
    ) -> Result<Situation, AllocError>
        requires { CanOpen aerodrome.now flights.now }
        ensures value { IfOk result (λ situation. situation ≡ opened aerodrome.now flights.now) }
        ensures sound { opening_fault aerodrome.now flights.now ≡ None → IfOk result IsSound }
    {
        all_known(flights);
        let active = by_callsign(alloc, flights)?;
        let mut situation = Situation::with(aerodrome, active);
        situation.freeze_listed(aerodrome.frozen.entries());
        situation.count_listed(aerodrome.passed.entries());
        Ok(situation)
    }

    /// What the aerodrome fixes.
    pub fn fixed(&self) -> &Fixed
        ensures value { self.now.aerodrome ≡ fixed_of result.now }
        ensures few_places { result.now.k ≤ greatest_k }
        ensures short_freeze { result.now.freeze ≤ longest_freeze }
    {
        &self.fixed
    }

    /// The closures that stand.
    pub fn closures(&self) -> &Closures
        ensures { result.now ≡ self.now.closures }
    {
        &self.closures
    }

    /// The flights in order of arrival.
    pub fn flights(&self) -> &[Active]
        ensures { result.now ≡ self.now.active }
    {
        self.active.values().as_slice()
    }

    /// The second before which no waiting flight may land: 0 without a clock second, and else at most 179,999.
    pub fn horizon(&self) -> u32
        ensures value { result ≡ horizon self.now }
        ensures near { result ≤ latest_horizon }
    {
        match self.clock {
            None => 0,
            Some(now) => now + self.fixed.freeze,
        }
    }
}

// What the types of a flight's fields keep.
fn known(flight: &Flight)
    ensures { IsKept (flight_of flight.now) }
{
    prove!(flight.callsign.bytes().len() >= 2);
    prove!(flight.windows.spans().len() <= MOST_WINDOWS);
    prove!(flight.after.len() <= MOST_PREDECESSORS);
}

// What they keep of each flight.
fn all_known(flights: &[Flight])
    ensures { All (λ f. IsKept (flight_of f)) flights.now }
{
    for flight in flights {
        known(flight);
    }
}
