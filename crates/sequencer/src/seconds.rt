// The schedule that joins the frozen landings with a planner's seconds by rank.
ghost use Rattle.std.specs.Prelude.{◌≡◌, IfOk, length, map, unwrap_or};
ghost use Rattle.landing_rules.specs.Flights.{waiting};
ghost use Rattle.landing_rules.specs.Problem.{joined};
ghost use Rattle.landing_rules.specs.Sound.{IsSound};
ghost use Rattle.sequencer.specs.Ranked.{ArePlacesByRank};

use cps_problem::Schedule;
use situations::{Active, Situation};
use std::alloc::{AllocError, Global};

// The seconds at which the frozen flights land, and 0 for each that waits.
fn frozen_seconds(alloc: Global, flights: &[Active]) -> Result<Vec<u32>, AllocError>
    ensures { IfOk result (λ seconds. seconds.items
        ≡ map (λ a. unwrap_or a.frozen 0) flights.now) }
{
    flights
        .iter()
        .map(|active| active.frozen.unwrap_or(0))
        .collect(alloc)
}

/// The seconds at which the flights land, in order of arrival: the frozen landings joined with a second for each rank, whose
/// flight stands at the place given for it.
pub(crate) fn joined_seconds(
    alloc: Global,
    situation: &Situation,
    places: &[usize],
    schedule: &Schedule,
) -> Result<Vec<u32>, AllocError>
    requires sound { IsSound situation.now }
    requires places { ArePlacesByRank situation.now places.now }
    requires long { length schedule.now ≡ length (waiting situation.now) }
    ensures { IfOk result (λ seconds. seconds.items ≡ joined situation.now schedule.now) }
{
    let mut seconds = frozen_seconds(alloc, situation.flights())?;
    for (index, place) in places.iter().enumerate() {
        seconds[*place] = schedule.second(index as u8 + 1);
    }
    Ok(seconds)
}
