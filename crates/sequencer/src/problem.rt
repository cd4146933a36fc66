// The problem of a situation.
ghost use Rattle.std.specs.Prelude.{◌≡◌, ◌≤◌, IfOk};
ghost use Rattle.std.specs.Option.{ForSome};
ghost use Rattle.cps_base.specs.Limits.{greatest_k, latest_horizon};
ghost use Rattle.landing_rules.specs.Flights.{horizon};
ghost use Rattle.landing_rules.specs.Events.{frozen_landings};
ghost use Rattle.landing_rules.specs.Problem.{IsProblemOf, frozen_cost};
ghost use Rattle.landing_rules.specs.Sound.{IsSound};
ghost use Rattle.sequencer.specs.Frozen.{BeginsWithFrozen};
ghost use Rattle.sequencer.specs.Ranked.{ArePlacesByRank};

use crate::frozen::{frozen_delay, last_frozen};
use crate::order::{flights_of, places_of, ranked_of};
use crate::predecessors::pairs_of;
use crate::waiting::all_waiting;
use cps_problem::{Head, Objective, Problem};
use plan_file::Plan;
use situations::{Active, Situation};
use std::alloc::{AllocError, Global};
use wake_table::Category;

// What the frozen landings cost, and 0 for the makespan.
fn base(situation: &Situation, flights: &[Active]) -> u64
    requires flights { flights.now ≡ situation.now.active }
    requires sound { IsSound situation.now }
    ensures { result ≡ frozen_cost situation.now.aerodrome.objective
        (frozen_landings situation.now) }
{
    match situation.fixed().objective {
        Objective::Makespan => 0,
        Objective::Delay => frozen_delay(flights),
    }
}

// What the waiting flights share.
fn head(situation: &Situation, flights: &[Active], last: Option<(u32, Category)>) -> Head
    requires flights { flights.now ≡ situation.now.active }
    requires sound { IsSound situation.now }
    ensures fixed { situation.now.aerodrome
        ≡ record situation.now.aerodrome {
          table = result.table;
          k = result.k;
          objective = result.objective;
        } }
    ensures horizon { result.horizon ≡ horizon situation.now }
    ensures last { result.last ≡ last }
    ensures base { result.base ≡ frozen_cost situation.now.aerodrome.objective
        (frozen_landings situation.now) }
    ensures few_places { result.k ≤ greatest_k }
    ensures near { result.horizon ≤ latest_horizon }
{
    let fixed = situation.fixed();
    Head {
        table: fixed.table,
        k: fixed.k,
        objective: fixed.objective,
        horizon: situation.horizon(),
        last,
        base: base(situation, flights),
    }
}

// The problem of a sound situation, with the places of its waiting flights by rank. A plan may be given that begins with
// the frozen landings.
pub(crate) fn posed(
    alloc: Global,
    situation: &Situation,
    front: Option<&Plan>,
) -> Result<(Problem, Vec<usize>), AllocError>
    requires sound { IsSound situation.now }
    requires front { ForSome front (λ plan. BeginsWithFrozen situation.now plan.now) }
    ensures problem { IfOk result (λ posed. IsProblemOf situation.now posed.0) }
    ensures places { IfOk result (λ posed. ArePlacesByRank situation.now posed.1.items) }
{
    let flights = situation.flights();
    let ranked = ranked_of(alloc, flights)?;
    let waiting = flights_of(alloc, &ranked)?;
    let places = places_of(alloc, &ranked)?;
    let pairs = pairs_of(&waiting);
    let last = last_frozen(situation, front, flights.len() - places.len());
    let head = head(situation, flights, last);
    let with_times = all_waiting(alloc, &waiting, situation.closures())?;
    Ok((Problem::build(head, with_times, pairs), places))
}

// The places of the waiting flights of a sound situation by rank.
pub(crate) fn ranked_places(alloc: Global, situation: &Situation) -> Result<Vec<usize>, AllocError>
    requires { IsSound situation.now }
    ensures { IfOk result (λ places. ArePlacesByRank situation.now places.items) }
{
    let ranked = ranked_of(alloc, situation.flights())?;
    let places = places_of(alloc, &ranked)?;
    Ok(places)
}

/// The problem of a sound situation: its waiting flights by rank, and what the frozen ones leave them.
pub fn problem_of(alloc: Global, situation: &Situation) -> Result<Problem, AllocError>
    requires { IsSound situation.now }
    ensures { IfOk result (IsProblemOf situation.now) }
{
    let (problem, _) = posed(alloc, situation, None)?;
    Ok(problem)
}
