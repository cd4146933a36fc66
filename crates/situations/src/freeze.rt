// What a clock event changes.
ghost use Rattle.std.specs.Prelude.{◌≡◌, ◌+◌, ◌<◌, ◌≤◌, ◌++◌, true, None, Some, IfOk, OnErr, OnOk, IfSome, MatchOption, length, map, zip, option_map, ⊤};
ghost use Rattle.std.specs.Ordering.{is_lt};
ghost use Rattle.landing_rules.specs.Flights.{landing};
ghost use Rattle.landing_rules.specs.Rules.{last_second, first_come_cmp};
ghost use Rattle.landing_rules.specs.Events.{active_after_clock};
ghost use Rattle.situations.specs.Freezes.{arrival_if, freezing, behind, count_after, frozen_one, IsFreezeOf};
ghost use Rattle.indexmap.specs.IndexMap.{keys, values};
ghost use Rattle.situations.specs.Seen.{fixed_of};

use crate::{Active, Fixed, Situation};
use cps_base::Callsign;
use indexmap::IndexMap;
use std::alloc::{AllocError, Global};

// What a clock event brings: the horizon, and where flights keep a count of those that passed them the greatest count and
// the flights that freeze, as first-come order compares them.
#[derive(Drop)]
struct Freeze {
    h: u32,
    k: u8,
    carry: bool,
    freezing: Vec<(u32, Callsign)>,
}

// Whether the first comes before the other in first-come order.
fn comes_before(first: &(u32, Callsign), other: &(u32, Callsign)) -> bool
    ensures { result ≡ is_lt (first_come_cmp first.now other.now) }
{
    first.cmp(other).is_lt()
}

// How many of these come behind the flight in first-come order.
fn count_behind(freezing: &[(u32, Callsign)], active: &Active) -> usize
    ensures { result ≡ behind freezing.now active.now }
{
    let arrival = (active.flight.eta, active.flight.callsign);
    freezing
        .iter()
        .filter(|other| comes_before(&arrival, other))
        .count()
}

// How many flights have passed the flight where it stays waiting.
fn count_after(freeze: &Freeze, active: &Active) -> u8
    ensures { result ≡ count_after freeze.now active.now }
{
    if !freeze.carry {
        return active.passed;
    }
    let passed = active.passed as usize + count_behind(&freeze.freezing, active);
    (freeze.k as usize).min(passed) as u8
}

// Notes the flight where it waits and lands before h.
fn note_freezing(
    found: &mut Vec<(u32, Callsign)>,
    active: &Active,
    at: u32,
    h: u32,
) -> Result<(), AllocError>
    ensures { OnOk result (found.new.items
        ≡ found.old.items ++ arrival_if h (landing active.now at)) }
{
    if active.frozen.is_none() && at < h {
        found.push((active.flight.eta, active.flight.callsign))?;
    }
    Ok(())
}

// The flights that wait and land before h.
fn freezing(
    alloc: Global,
    active: &[Active],
    seconds: &[u32],
    h: u32,
) -> Result<Vec<(u32, Callsign)>, AllocError>
    requires { length active.now ≡ length seconds.now }
    ensures { IfOk result (λ found. found.items ≡ freezing h active.now seconds.now) }
{
    let mut found = Vec::new(alloc);
    for i in 0..seconds.len() {
        note_freezing(&mut found, &active[i], seconds[i], h)?;
    }
    Ok(found)
}

// The flights that freeze, which are looked for only where they count.
fn counted(
    alloc: Global,
    carry: bool,
    active: &[Active],
    seconds: &[u32],
    h: u32,
) -> Result<Vec<(u32, Callsign)>, AllocError>
    requires { length active.now ≡ length seconds.now }
    ensures { IfOk result (λ found. carry ≡ true
        → found.items ≡ freezing h active.now seconds.now) }
{
    if !carry {
        return Ok(Vec::new(alloc));
    }
    let found = freezing(alloc, active, seconds, h)?;
    Ok(found)
}

// What the clock event brings.
fn freeze_of(
    alloc: Global,
    fixed: &Fixed,
    active: &[Active],
    seconds: &[u32],
    h: u32,
) -> Result<Freeze, AllocError>
    requires { length active.now ≡ length seconds.now }
    ensures { IfOk result (IsFreezeOf (fixed_of fixed.now) h active.now
        seconds.now) }
{
    let freezing = counted(alloc, fixed.carry, active, seconds, h)?;
    Ok(Freeze {
        h,
        k: fixed.k,
        carry: fixed.carry,
        freezing,
    })
}

// Freezes the flight where it waits and lands before the horizon, and else counts those that pass it where it waits.
fn freeze_one(active: &mut Active, at: u32, freeze: &Freeze)
    ensures { active.new ≡ frozen_one freeze.now active.old at }
{
    if active.frozen.is_some() {
        return;
    }
    if at < freeze.h {
        active.frozen = Some(at);
        active.passed = 0;
    } else {
        active.passed = count_after(freeze, active);
    }
}

// Each flight after the clock event.
fn freeze_each(active: &mut IndexMap<Callsign, Active>, seconds: &[u32], freeze: &Freeze)
    requires { length (values active.old) ≡ length seconds.now }
    ensures flights { values active.new
        ≡ map (λ p. frozen_one freeze.now p.0 p.1) (zip (values active.old) seconds.now) }
    ensures keys { keys active.new ≡ keys active.old }
{
    for i in 0..seconds.len() {
        freeze_one(&mut active[i], seconds[i], freeze);
    }
}

impl Situation {
    // Each flight after a clock event with these seconds shown.
    fn freeze_by(&mut self, alloc: Global, seconds: &[u32], h: u32) -> Result<(), AllocError>
        requires { length seconds.now ≡ length self.old.active }
        ensures { OnOk result (self.new ≡ record self.old {
          active = active_after_clock
              self.old.aerodrome h self.old.active (Some seconds.now);
        }) }
    {
        let freeze = freeze_of(alloc, &self.fixed, self.flights(), seconds, h)?;
        freeze_each(&mut self.active, seconds, &freeze);
        Ok(())
    }

    // The clock stands at now.
    fn set_clock(&mut self, now: u32)
        requires { now ≤ last_second }
        ensures { self.new ≡ record self.old { clock = Some now } }
    {
        self.clock = Some(now);
    }

    // The second before which a waiting flight freezes at a clock event.
    fn horizon_at(&self, now: u32) -> u32
        requires { now ≤ last_second }
        ensures { result ≡ now + self.now.aerodrome.freeze }
    {
        now + self.fixed.freeze
    }

    // The clock stands at now. Where a plan is shown, each waiting flight that it lands before the horizon is frozen, and the
    // others keep count of those that passed them.
    pub(crate) fn set_time(
        &mut self,
        alloc: Global,
        now: u32,
        plan: Option<&[u32]>,
    ) -> Result<(), AllocError>
        requires whole { IfSome plan (λ p. length p.now ≡ length self.old.active) }
        requires second { now ≤ last_second }
        ensures { OnOk result (self.new ≡ record self.old {
          clock = Some now;
          active = active_after_clock self.old.aerodrome (now + self.old.aerodrome.freeze)
              self.old.active (option_map (λ p. p.now) plan.entry);
        }) }
    {
        if let Some(seconds) = plan {
            let h = self.horizon_at(now);
            self.freeze_by(alloc, seconds, h)?;
        }
        self.set_clock(now);
        Ok(())
    }
}
