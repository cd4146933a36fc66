// Why an aerodrome and its flights open no situation.
ghost use Rattle.std.specs.Prelude.{◌≡◌, ◌+◌, ◌≤◌, IfOk, length, filter};
ghost use Rattle.landing_rules.specs.Flights.{is_waiting};
ghost use Rattle.cps_base.specs.Limits.{most_flights, most_waiting};
ghost use Rattle.arrivals.specs.Aerodromes.{IsInRange};
ghost use Rattle.situations.specs.Opened.{CanOpen};
ghost use Rattle.situations.specs.Refused.{unknown_frozen_at, unknown_passed_at, is_waiting_there, too_many_waiting, name_fault, first_from, given_landing, given, fault_of, opening_fault};

use crate::given::{Given, rule_fault};
use crate::{Active, Situation};
use arrivals::{Aerodrome, Flight, FrozenLanding, FrozenList, PassedList};
use cps_base::{Callsign, MOST_WAITING};
use std::alloc::{AllocError, Global};

/// Why an aerodrome file and its flights open no situation. Entries count from 1.
#[derive(Clone, Copy)]
pub enum OpeningFault {
    /// This entry of `frozen` names no flight of the file.
    UnknownFrozen(u16),
    /// This entry of `passed` names no waiting flight of the file.
    UnknownPassed(u8),
    /// So many flights are not frozen, which is more than `MOST_WAITING`.
    TooManyWaiting(u32),
    /// The second of this entry of `frozen` is not open for its flight.
    FrozenClosed(u16),
    /// These two entries of `frozen`, the first before the second, are not the table's time apart.
    FrozenSeparation(u16, u16),
    /// The flight of this entry of `frozen` lists an active one that does not land before it.
    FrozenPrecedence(u16, Callsign),
}

// Whether a waiting flight has the callsign.
fn is_waiting_there(situation: &Situation, callsign: Callsign) -> bool
    ensures { result ≡ is_waiting_there situation.now.active callsign }
{
    situation.known_apart();
    match situation.find(callsign) {
        None => false,
        Some(active) => active.frozen.is_none(),
    }
}

// The first entry of `frozen` that names no flight.
fn unknown_frozen(situation: &Situation, frozen: &FrozenList) -> Option<OpeningFault>
    requires { length frozen.now ≤ most_flights }
    ensures { result ≡ first_from (unknown_frozen_at situation.now.active) 1 frozen.now }
{
    frozen
        .entries()
        .iter()
        .position(|f| !situation.is_active(f.callsign))
        .map(|i| OpeningFault::UnknownFrozen((i + 1) as u16))
}

// The first entry of `passed` that names no waiting flight.
fn unknown_passed(situation: &Situation, passed: &PassedList) -> Option<OpeningFault>
    requires { length passed.now ≤ most_waiting }
    ensures { result ≡ first_from (unknown_passed_at situation.now.active) 1 passed.now }
{
    passed
        .entries()
        .iter()
        .position(|p| !is_waiting_there(situation, p.callsign))
        .map(|i| OpeningFault::UnknownPassed((i + 1) as u8))
}

// How many flights wait.
pub(crate) fn count_waiting(active: &[Active]) -> usize
    ensures value { result ≡ length (filter is_waiting active.now) }
    ensures bound { result ≤ length active.now }
{
    active.iter().filter(|a| a.frozen.is_none()).count()
}

// How many flights wait, where these are too many.
fn too_many_waiting(active: &[Active]) -> Option<OpeningFault>
    requires { length active.now ≤ most_flights }
    ensures { result ≡ too_many_waiting active.now }
{
    let waiting = count_waiting(active);
    if waiting <= usize::from(MOST_WAITING) {
        None
    } else {
        Some(OpeningFault::TooManyWaiting(waiting as u32))
    }
}

// What is wrong with the names of the entries, or with how many wait.
fn name_fault(aerodrome: &Aerodrome, situation: &Situation) -> Option<OpeningFault>
    requires few { length situation.now.active ≤ most_flights }
    requires few_frozen { length aerodrome.now.frozen ≤ most_flights }
    requires few_passed { length aerodrome.now.passed ≤ most_waiting }
    ensures { result ≡ name_fault aerodrome.now situation.now.active }
{
    if let Some(fault) = unknown_frozen(situation, &aerodrome.frozen) {
        return Some(fault);
    }
    if let Some(fault) = unknown_passed(situation, &aerodrome.passed) {
        return Some(fault);
    }
    too_many_waiting(situation.flights())
}

// The landing that an entry of `frozen` gives.
fn given_landing(situation: &Situation, entry: FrozenLanding) -> Result<Option<Given>, AllocError>
    ensures { IfOk result (λ given. given ≡ given_landing situation.now.active entry) }
{
    match situation.find(entry.callsign) {
        None => Ok(None),
        Some(found) => Ok(Some(Given {
            active: found.clone()?,
            second: entry.second,
        })),
    }
}

// The frozen landings of the file, in its order.
fn given(
    alloc: Global,
    situation: &Situation,
    frozen: &[FrozenLanding],
) -> Result<Vec<Given>, AllocError>
    ensures value { IfOk result (λ all. all.items ≡ given situation.now.active frozen.now) }
    ensures few { IfOk result (λ all. length all.items ≤ length frozen.now) }
{
    let mut all = Vec::with_capacity(alloc, frozen.len())?;
    for entry in frozen {
        if let Some(landing) = given_landing(situation, *entry)? {
            all.push(landing)?;
        }
    }
    Ok(all)
}

impl Situation {
    /// Why this opening situation of the aerodrome is none that a run can be in: the first test that fails, with its place.
    /// The entries are asked for their names, then how many flights wait, and then the frozen landings for open seconds,
    /// separation and precedence among themselves and towards the flights that wait. It is asked that at most 500 flights
    /// are active, and that the aerodrome's numbers are in their ranges.
    pub fn opening_fault(
        &self,
        alloc: Global,
        aerodrome: &Aerodrome,
    ) -> Result<Option<OpeningFault>, AllocError>
        requires few { length self.now.active ≤ most_flights }
        requires ranges { IsInRange aerodrome.now }
        ensures { IfOk result (λ fault. fault ≡ fault_of aerodrome.now self.now.active) }
    {
        if let Some(fault) = name_fault(aerodrome, self) {
            return Ok(Some(fault));
        }
        let given = given(alloc, self, aerodrome.frozen.entries())?;
        Ok(rule_fault(aerodrome, self, &given))
    }
}

/// Why the aerodrome and its flights open no situation: the first test that fails on the situation that they open, with its
/// place (`Situation::opening_fault`). `None` exactly where the opening situation exists. It is asked that there are at
/// most 500 flights, with callsigns apart, and that all numbers are in their ranges.
pub fn opening_fault(
    alloc: Global,
    aerodrome: &Aerodrome,
    flights: &[Flight],
) -> Result<Option<OpeningFault>, AllocError>
    requires { CanOpen aerodrome.now flights.now }
    ensures { IfOk result (λ fault. fault ≡ opening_fault aerodrome.now flights.now) }
{
    let situation = Situation::opening(alloc, aerodrome, flights)?;
    situation.opening_fault(alloc, aerodrome)
}
