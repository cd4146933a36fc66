// What an event answers.
ghost use Rattle.std.specs.Prelude.{◌≡◌, ◌&&◌, Option, Some, None, length, find, is_some, nat_le, option_map, if◌then◌else◌};
ghost use Rattle.std.specs.List.{list_any};
ghost use Rattle.landing_rules.specs.Flights.{waiting};
ghost use Rattle.cps_base.specs.Limits.{most_closures, most_flights, most_waiting};
ghost use Rattle.landing_rules.specs.Rules.{lists};
ghost use Rattle.landing_rules.specs.Events.{named, same_span, unknown_or_frozen, clock_back, refusal, Add, Close};
ghost use Rattle.landing_rules.specs.Events as events;
ghost use Rattle.arrivals.specs.Seen.{flight_of, event_of};
ghost use Rattle.situations.specs.Answers.{IsAnswer};
ghost use Rattle.situations.specs.Finds.{first_frozen_listing, earliest_covered, earlier_of};

use crate::opening_refusal::count_waiting;
use crate::{Active, Refusal, Situation};
use arrivals::{Event, Flight};
use cps_base::{Callsign, MOST_CLOSURES, MOST_FLIGHTS, MOST_WAITING};

// The refusal of a frozen flight.
fn frozen_refusal(active: &Active) -> Option<Refusal>
    ensures { IsAnswer result (option_map events.Frozen active.now.frozen) }
{
    match active.frozen {
        None => None,
        Some(second) => Some(Refusal::Frozen(second)),
    }
}

// Why a clock event is refused.
fn clock_refusal(clock: Option<u32>, now: u32) -> Option<Refusal>
    ensures { IsAnswer result (clock_back clock now) }
{
    match clock {
        Some(last) if now < last => Some(Refusal::ClockBack(last)),
        _ => None,
    }
}

// The refusal for a frozen flight that lists the new one.
fn listing_refusal(found: Option<Callsign>) -> Option<Refusal>
    ensures { IsAnswer result (option_map events.PredecessorOfFrozen found) }
{
    match found {
        None => None,
        Some(callsign) => Some(Refusal::PredecessorOfFrozen(callsign)),
    }
}

// Why a flight is not added, by what is there.
fn add_answer(
    callsign: Callsign,
    is_there: bool,
    flights: usize,
    waiting: usize,
    listing: Option<Callsign>,
) -> Option<Refusal>
    ensures { IsAnswer result (if is_there then Some (events.Duplicate callsign) else
        (if nat_le most_flights flights then Some events.TooManyFlights else
        (if nat_le most_waiting waiting then Some events.TooManyWaiting else option_map
        events.PredecessorOfFrozen listing))) }
{
    if is_there {
        Some(Refusal::Duplicate(callsign))
    } else if flights >= MOST_FLIGHTS {
        Some(Refusal::TooManyFlights)
    } else if waiting >= usize::from(MOST_WAITING) {
        Some(Refusal::TooManyWaiting)
    } else {
        listing_refusal(listing)
    }
}

// Why a closure is refused, by what is there.
fn closure_refusal(found: Option<(Callsign, u32)>, closures: usize) -> Option<Refusal>
    ensures { IsAnswer result (if is_some found then option_map
        (λ g. events.CoversFrozen g.0 g.1) found else
        (if nat_le most_closures closures then Some events.TooManyClosures else None)) }
{
    match found {
        Some((callsign, second)) => Some(Refusal::CoversFrozen(callsign, second)),
        None => {
            if closures >= MOST_CLOSURES {
                Some(Refusal::TooManyClosures)
            } else {
                None
            }
        }
    }
}

// Whether the flight is frozen and lists the callsign.
fn is_frozen_listing(active: &Active, callsign: Callsign) -> bool
    ensures { result ≡ (is_some active.now.frozen && lists active.now.flight callsign) }
{
    active.frozen.is_some() && active.lists(callsign)
}

// The earlier of the flight, where it is frozen inside the closure, and the one found behind it.
fn earlier(
    active: &Active,
    from: u32,
    to: u32,
    found: Option<(Callsign, u32)>,
) -> Option<(Callsign, u32)>
    ensures { result ≡ earlier_of (from, to) active.now found }
{
    match (active.frozen, found) {
        (None, _) => found,
        (Some(second), None) => {
            if from <= second && second < to {
                Some((active.flight.callsign, second))
            } else {
                None
            }
        }
        (Some(second), Some((_, next))) => {
            if from <= second && second < to && second <= next {
                Some((active.flight.callsign, second))
            } else {
                found
            }
        }
    }
}

impl Situation {
    // Why an event on the named flight is refused.
    fn named_refusal(&self, callsign: Callsign) -> Option<Refusal>
        ensures { IsAnswer result (unknown_or_frozen callsign
            (find (named callsign) self.now.active)) }
    {
        match self.find(callsign) {
            None => Some(Refusal::UnknownFlight(callsign)),
            Some(active) => frozen_refusal(active),
        }
    }

    // How many flights are active.
    fn count_active(&self) -> usize
        ensures { result ≡ length self.now.active }
    {
        self.active.len()
    }

    // How many flights wait.
    fn count_waiting(&self) -> usize
        ensures { result ≡ length (waiting self.now) }
    {
        count_waiting(self.flights())
    }

    // The first frozen flight that lists the callsign.
    fn first_frozen_listing(&self, callsign: Callsign) -> Option<Callsign>
        ensures { result ≡ first_frozen_listing callsign self.now.active }
    {
        let mut flights = self.flights().iter();
        match flights.find(|a| is_frozen_listing(a, callsign)) {
            None => None,
            Some(active) => Some(active.flight.callsign),
        }
    }

    // Why the flight may not be added.
    fn add_refusal(&self, flight: &Flight) -> Option<Refusal>
        ensures { IsAnswer result (refusal self.now (Add (flight_of flight.now))) }
    {
        add_answer(
            flight.callsign,
            self.is_active(flight.callsign),
            self.count_active(),
            self.count_waiting(),
            self.first_frozen_listing(flight.callsign),
        )
    }

    // The frozen landing in the closure that lands first.
    fn earliest_covered(&self, from: u32, to: u32) -> Option<(Callsign, u32)>
        ensures { result ≡ earliest_covered (from, to) self.now.active }
    {
        let flights = self.flights().iter().rev();
        flights.fold(None, |found, flight| earlier(flight, from, to, found))
    }

    // How many closures stand.
    fn count_closures(&self) -> usize
        ensures { result ≡ length self.now.closures }
    {
        self.closures.len()
    }

    // Why the closure may not be added.
    fn close_refusal(&self, from: u32, to: u32) -> Option<Refusal>
        ensures { IsAnswer result (refusal self.now (Close (from, to))) }
    {
        closure_refusal(self.earliest_covered(from, to), self.count_closures())
    }

    // Whether an equal closure stands.
    fn stands(&self, from: u32, to: u32) -> bool
        ensures { result ≡ list_any (same_span (from, to)) self.now.closures }
    {
        let mut others = self.closures;
        others.remove(from, to)
    }

    // Why the closure may not be lifted.
    fn reopen_refusal(&self, from: u32, to: u32) -> Option<Refusal>
        ensures { IsAnswer result (if list_any (same_span (from, to)) self.now.closures then None
            else Some events.UnknownClosure) }
    {
        if self.stands(from, to) {
            None
        } else {
            Some(Refusal::UnknownClosure)
        }
    }

    /// Why the event is refused: the first refusal in the order of the rules, with its value. `None` exactly where the
    /// event is accepted. It takes no memory and changes nothing.
    pub fn refusal(&self, event: &Event) -> Option<Refusal>
        ensures { IsAnswer result (refusal self.now (event_of event.now)) }
    {
        match event {
            Event::Revise(callsign, _) => self.named_refusal(*callsign),
            Event::Cancel(callsign) => self.named_refusal(*callsign),
            Event::Add(flight) => self.add_refusal(flight),
            Event::Close(from, to) => self.close_refusal(*from, *to),
            Event::Reopen(from, to) => self.reopen_refusal(*from, *to),
            Event::Clock(now) => clock_refusal(self.clock, *now),
        }
    }
}
