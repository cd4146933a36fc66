// The waiting flights as those of a problem.
ghost use Rattle.std.specs.Prelude.{List, ℕ, IfOk, map};
ghost use Rattle.std.specs.List.{AllZip};
ghost use Rattle.landing_rules.specs.Problem.{IsWaitingOf};
ghost use Rattle.landing_windows.specs.Spans.{is_runway_open, AreSecondsOf};
ghost use Rattle.cps_problem.specs.Seen.{waiting_of};

use cps_problem::Waiting;
use landing_windows::{Closures, OpenTimes};
use situations::Active;
use std::alloc::{AllocError, Global};

// The flight with its open seconds, where those of the runway are given.
fn waiting_of(alloc: Global, active: &Active, runway: &OpenTimes) -> Result<Waiting, AllocError>
    ensures { IfOk result (λ w. (closures : List (ℕ × ℕ)) →
        AreSecondsOf (is_runway_open closures) runway.now →
        IsWaitingOf closures active.now (waiting_of w)) }
{
    let flight = &active.flight;
    let times = runway.within(alloc, &flight.windows)?;
    Ok(Waiting {
        callsign: flight.callsign,
        category: flight.category,
        eta: flight.eta,
        weight: flight.weight,
        passed: active.passed,
        times,
    })
}

/// The flights with their open seconds, in the same order.
pub(crate) fn all_waiting(
    alloc: Global,
    ranked: &Vec<&Active>,
    closures: &Closures,
) -> Result<Vec<Waiting>, AllocError>
    ensures { IfOk result (λ all. AllZip (IsWaitingOf closures.now)
        (map (λ a. a.now) ranked.now.items) (map waiting_of all.items)) }
{
    let runway = OpenTimes::of_runway(alloc, closures)?;
    let mut all = Vec::with_capacity(alloc, ranked.len())?;
    for active in ranked {
        let waiting = waiting_of(alloc, active, &runway)?;
        all.push(waiting)?;
    }
    Ok(all)
}
