// The second at which the landings let a rank land, and what all of them are worth.
ghost use Rattle.std.specs.Prelude.{◌≡◌, ◌≤◌, ◌-◌, ◌*◌, ◌+◌, slice_get, Some};
ghost use Rattle.cps_base.specs.Limits.{dearest_landing, most_waiting};
ghost use Rattle.landing_rules.specs.Problem.{list_objective};
ghost use Rattle.cps_theory.specs.RankLists.{upto};
ghost use Rattle.cps_theory.specs.Feasible.{earlier, greatest, total};
ghost use Rattle.landing_joint.specs.RankedProblem.{cost_at};
ghost use Rattle.certificate.specs.Reading.{AreLandings};
ghost use Rattle.cert_check.specs.Landings.{count, flight, second_of, seconds, second, place};
ghost use Rattle.landing_rules.specs.Rules.{last_second};

use crate::objective::objective_of;
use certificate::Claim;
use cps_base::Callsign;
use cps_problem::Problem;

// The second of the first landing of a callsign, and 0 with none.
fn second_of(landings: &[(Callsign, u32)], name: Callsign) -> u32
    requires { AreLandings landings.now }
    ensures value { result ≡ second_of landings.now name }
    ensures small { result ≤ last_second }
{
    landings
        .iter()
        .find(|landing| landing.0 == name)
        .map_or(0, |landing| landing.1)
}

pub(crate) fn callsign(problem: &Problem, rank: u8) -> Callsign
    requires { (1 ≤ rank) × (rank ≤ count problem.now) }
    ensures value { result ≡ (flight problem.now rank).callsign }
    ensures at { (slice_get problem.now.flights (rank - 1) ≡ Some (flight problem.now rank)) }
{
    problem.flight(rank).callsign
}

pub(crate) fn second(problem: &Problem, landings: &[(Callsign, u32)], rank: u8) -> u32
    requires landings { AreLandings landings.now }
    requires rank { (1 ≤ rank) × (rank ≤ count problem.now) }
    ensures value { result ≡ second problem.now landings.now rank }
    ensures small { result ≤ last_second }
{
    second_of(landings, callsign(problem, rank))
}

// 1 plus the number of flights that land earlier.
pub(crate) fn place(problem: &Problem, landings: &[(Callsign, u32)], rank: u8) -> u8
    requires landings { AreLandings landings.now }
    requires rank { (1 ≤ rank) × (rank ≤ count problem.now) }
    ensures value { result ≡ place problem.now landings.now rank }
    ensures small { result ≤ most_waiting + 1 }
{
    let own = second(problem, landings, rank);
    let earlier = (1..problem.len() + 1)
        .filter(|other| second(problem, landings, *other) < own)
        .count();
    earlier as u8 + 1
}

fn greatest(problem: &Problem, landings: &[(Callsign, u32)]) -> u32
    requires { AreLandings landings.now }
    ensures { result ≡ greatest (second problem.now landings.now) (count problem.now) }
{
    (1..problem.len() + 1).fold(0, |most, rank| second(problem, landings, rank).max(most))
}

fn total_cost(problem: &Problem, landings: &[(Callsign, u32)]) -> u64
    requires { AreLandings landings.now }
    ensures value { result ≡ total (λ r. cost_at problem.now r
        (second problem.now landings.now r)) (upto (count problem.now)) }
    ensures small { result ≤ dearest_landing * count problem.now }
{
    (1..problem.len() + 1)
        .map(|rank| u64::from(problem.cost(rank, second(problem, landings, rank))))
        .sum()
}

// The objective of the landings, with the frozen flights.
pub(crate) fn value(problem: &Problem, landings: &[(Callsign, u32)]) -> u64
    requires { AreLandings landings.now }
    ensures { result ≡ list_objective problem.now (seconds problem.now landings.now) }
{
    // Its head tells the proof that at most `MOST_WAITING` flights wait, so that the costs fit.
    let _head = problem.head();
    let last = greatest(problem, landings);
    let costs = total_cost(problem, landings);
    objective_of(problem, last, costs)
}
