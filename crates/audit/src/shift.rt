// How far the waiting flights are from their ranks.
ghost use Rattle.std.specs.Prelude.{◌≡◌, ◌≤◌, ◌+◌, IfOk, OnOk, filter, length, map, nat_lt};
ghost use Rattle.std.specs.Ordering.{is_lt};
ghost use Rattle.cps_base.specs.Limits.{most_flights};
ghost use Rattle.landing_rules.specs.Rules.{arrival_cmp, place, rank_among, waits};
ghost use Rattle.landing_rules.specs.Testing.{is_shift_kept};
ghost use Rattle.landing_rules.specs.Audit.{landing_of, shifted};
ghost use Rattle.audit.specs.declared.finding.Finding.TheVariants as code;
ghost use Rattle.audit.specs.Findings.{Finds, too_far};

use crate::Finding;
use crate::found::Found;
use std::alloc::{AllocError, Global};

// The lines whose flights wait.
fn waiting<'a>(alloc: Global, found: &'a [Found]) -> Result<Vec<&'a Found>, AllocError>
    ensures value { IfOk result (λ all. map (λ f. landing_of f.now) all.items
        ≡ filter waits (map landing_of found.now)) }
    ensures few { IfOk result (λ all. length all.items ≤ length found.now) }
{
    found
        .iter()
        .filter(|f| f.active.frozen.is_none())
        .collect(alloc)
}

// Whether g lands before f.
fn lands_before(g: &Found, f: &Found) -> bool
    ensures { result ≡ nat_lt (landing_of g.now).second (landing_of f.now).second }
{
    g.line.second < f.line.second
}

// 1 plus the number of those that land before f.
fn place_of(waiting: &[&Found], f: &Found) -> u32
    requires { length waiting.now ≤ most_flights }
    ensures value { result
        ≡ place (map (λ g. landing_of g.now) waiting.now) (landing_of f.now) }
    ensures few { result ≤ most_flights + 1 }
{
    1 + waiting.iter().filter(|g| lands_before(g, f)).count() as u32
}

// Whether g comes before f, first come, first served.
fn comes_before(g: &Found, f: &Found) -> bool
    ensures { result ≡ is_lt (arrival_cmp g.now.1.flight f.now.1.flight) }
{
    let first = &g.active.flight;
    let second = &f.active.flight;
    (first.eta, first.callsign) < (second.eta, second.callsign)
}

// 1 plus the number of those that come before f.
fn rank_of(waiting: &[&Found], f: &Found) -> u32
    requires { length waiting.now ≤ most_flights }
    ensures value { result
        ≡ rank_among (map (λ g. landing_of g.now) waiting.now) (landing_of f.now) }
    ensures few { result ≤ most_flights + 1 }
{
    1 + waiting.iter().filter(|g| comes_before(g, f)).count() as u32
}

// Whether it lands within k places of its rank, less the flights that passed it before.
fn is_shift_kept(k: u8, waiting: &[&Found], f: &Found) -> bool
    requires { length waiting.now ≤ most_flights }
    ensures { result
        ≡ is_shift_kept k (map (λ g. landing_of g.now) waiting.now) (landing_of f.now) }
{
    let place = place_of(waiting, f);
    let rank = rank_of(waiting, f);
    rank <= place + u32::from(k) && place + u32::from(f.active.passed) <= rank + u32::from(k)
}

// Its place and its rank.
fn shift(waiting: &[&Found], f: &Found) -> Finding
    requires { length waiting.now ≤ most_flights }
    ensures { result ≡ code.Shift f.now.1.flight.callsign
        (place (map (λ g. landing_of g.now) waiting.now) (landing_of f.now))
        (rank_among (map (λ g. landing_of g.now) waiting.now) (landing_of f.now)) }
{
    Finding::Shift(
        f.active.flight.callsign,
        place_of(waiting, f),
        rank_of(waiting, f),
    )
}

// Notes a waiting flight too far from its rank.
fn note(k: u8, waiting: &[&Found], f: &Found, all: &mut Vec<Finding>) -> Result<(), AllocError>
    requires { length waiting.now ≤ most_flights }
    ensures { OnOk result (Finds all.old.items all.new.items
        (too_far k (map (λ g. landing_of g.now) waiting.now) (landing_of f.now))) }
{
    if !is_shift_kept(k, waiting, f) {
        all.push(shift(waiting, f))?;
    }
    Ok(())
}

// Each of these waiting flights that is too far from its rank.
fn shifted_among(k: u8, waiting: &[&Found], all: &mut Vec<Finding>) -> Result<(), AllocError>
    requires { length waiting.now ≤ most_flights }
    ensures { OnOk result (Finds all.old.items all.new.items
        (shifted k (map (λ g. landing_of g.now) waiting.now))) }
{
    for f in waiting {
        note(k, waiting, f, all)?;
    }
    Ok(())
}

// Each waiting flight too far from its rank.
pub(crate) fn shifted(
    alloc: Global,
    k: u8,
    found: &[Found],
    all: &mut Vec<Finding>,
) -> Result<(), AllocError>
    requires { length found.now ≤ most_flights }
    ensures { OnOk result (Finds all.old.items all.new.items
        (shifted k (filter waits (map landing_of found.now)))) }
{
    let waiting = waiting(alloc, found)?;
    shifted_among(k, &waiting, all)
}
