// The frozen landings that an aerodrome file gives, and the rules over them.
ghost use Rattle.std.specs.Prelude.{◌≡◌, ◌+◌, ◌≤◌, drop, length, find};
ghost use Rattle.cps_base.specs.Limits.{most_flights};
ghost use Rattle.landing_rules.specs.Rules.{is_open};
ghost use Rattle.situations.specs.Refused.{first_from, closed_at, clash_at, clash_from, is_not_before, lands_late, late_at, rule_fault};

use crate::open_seconds::is_open;
use crate::separation::are_apart;
use crate::{Active, OpeningFault, Situation};
use arrivals::Aerodrome;
use cps_base::Callsign;
use landing_windows::Closures;
use std::marker::Model;
use wake_table::PairTable;

// A frozen landing of the file with its flight. Contracts see the rules' own (`landing_rules`, `Landing`).
#[derive(Drop)]
pub(crate) struct Given {
    pub(crate) active: Active,
    pub(crate) second: u32,
}

impl Model for Given {
    ghost use Rattle.landing_rules.specs.Flights as rules;

    ghost Value = { rules.Landing };

    ghost view = { λ g. rules.landing g.active g.second };
}

// Whether the landing's second is open for its flight.
fn is_at_open_second(closures: &Closures, given: &Given) -> bool
    ensures { result ≡ is_open given.now.flight.windows closures.now given.now.second }
{
    is_open(&given.active.flight.windows, closures, given.second)
}

// The first landing whose second is not open.
fn first_closed(closures: &Closures, all: &[Given]) -> Option<OpeningFault>
    requires { length all.now ≤ most_flights }
    ensures { result ≡ first_from (closed_at closures.now) 1 all.now }
{
    all.iter()
        .position(|g| !is_at_open_second(closures, g))
        .map(|i| OpeningFault::FrozenClosed((i + 1) as u16))
}

// The first landing behind place i that is not the table's time from the one that stands there.
fn clash_of(table: &PairTable, i: usize, first: &Given, all: &[Given]) -> Option<OpeningFault>
    requires { (i ≤ length all.now) × (length all.now ≤ most_flights) }
    ensures { result ≡ first_from (clash_at table.now i first.now) (i + 1) (drop i all.now) }
{
    let place = all[i..].iter().position(|g| !are_apart(
        table,
        &first.active,
        first.second,
        &g.active,
        g.second,
    ));
    place.map(|j| OpeningFault::FrozenSeparation(i as u16, (i + j + 1) as u16))
}

// The first two landings, neighbours or not, that are not the table's time apart.
fn first_clash(table: &PairTable, all: &[Given]) -> Option<OpeningFault>
    requires { length all.now ≤ most_flights }
    ensures { result ≡ clash_from table.now 1 all.now }
{
    all.iter()
        .enumerate()
        .find_map(|(i, first)| clash_of(table, i + 1, first, all))
}

// Whether the flight waits, or is frozen at the second or later.
fn is_not_before(active: &Active, second: u32) -> bool
    ensures { result ≡ is_not_before second active.now.frozen }
{
    match active.frozen {
        None => true,
        Some(at) => second <= at,
    }
}

// Whether the flight of the callsign does so.
fn lands_late(situation: &Situation, second: u32, callsign: Callsign) -> bool
    ensures { result ≡ lands_late situation.now.active second callsign }
{
    situation.known_apart();
    match situation.find(callsign) {
        None => false,
        Some(active) => is_not_before(active, second),
    }
}

// The flights it lists.
fn listed(given: &Given) -> &[Callsign]
    ensures { result.now ≡ given.now.flight.after }
{
    given.active.flight.after.names()
}

// The first of its list that does not land before it.
fn late_listed(situation: &Situation, given: &Given) -> Option<Callsign>
    ensures { result ≡ find (lands_late situation.now.active given.now.second)
        given.now.flight.after }
{
    listed(given)
        .iter()
        .find(|name| lands_late(situation, given.second, **name))
        .copied()
}

// The first landing that is not behind each active flight of its list.
fn first_late(situation: &Situation, all: &[Given]) -> Option<OpeningFault>
    requires { length all.now ≤ most_flights }
    ensures { result ≡ first_from (late_at situation.now.active) 1 all.now }
{
    all.iter().enumerate().find_map(|(i, given)| {
        let callsign = late_listed(situation, given)?;
        Some(OpeningFault::FrozenPrecedence((i + 1) as u16, callsign))
    })
}

// What is wrong with the frozen landings.
pub(crate) fn rule_fault(
    aerodrome: &Aerodrome,
    situation: &Situation,
    all: &[Given],
) -> Option<OpeningFault>
    requires { length all.now ≤ most_flights }
    ensures { result ≡ rule_fault aerodrome.now situation.now.active all.now }
{
    if let Some(fault) = first_closed(&aerodrome.closures, all) {
        return Some(fault);
    }
    if let Some(fault) = first_clash(&aerodrome.table, all) {
        return Some(fault);
    }
    first_late(situation, all)
}
