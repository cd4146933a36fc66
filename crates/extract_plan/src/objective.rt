ghost use Rattle.std.specs.Prelude.{◌≡◌, ◌≤◌, ◌*◌, length, All};
ghost use Rattle.cps_base.specs.Limits.{dearest_landing};
ghost use Rattle.landing_rules.specs.Rules.{last_second};
ghost use Rattle.landing_rules.specs.Problem.{list_objective};
ghost use Rattle.cps_theory.specs.RankLists.{of_rank, upto};
ghost use Rattle.cps_theory.specs.Feasible.{greatest, total};
ghost use Rattle.landing_joint.specs.RankedProblem.{cost_at};

use cps_problem::{Objective, Problem, Schedule};

/// The objective of a schedule: its greatest second, or the last frozen one where no flight waits; or the delay of the
/// frozen flights and of all waiting ones.
pub fn value_of(problem: &Problem, schedule: &Schedule) -> u64
    requires room { length schedule.now ≡ length problem.now.flights }
    requires seconds { All (λ t. t ≤ last_second) schedule.now }
    ensures { result ≡ list_objective problem.now schedule.now }
{
    match problem.head().objective {
        Objective::Makespan if problem.is_empty() => u64::from(problem.last_frozen()),
        Objective::Makespan => u64::from(greatest_second(schedule)),
        Objective::Delay => problem.head().base + total_cost(problem, schedule),
    }
}

fn greatest_second(schedule: &Schedule) -> u32
    ensures { result ≡ greatest (of_rank 0 schedule.now) (length schedule.now) }
{
    let ranks = 1..schedule.len() as u8 + 1;
    ranks.fold(0, |latest, rank| schedule.second(rank).max(latest))
}

// The cost of a rank's landing.
fn cost_of(problem: &Problem, schedule: &Schedule, rank: u8) -> u64
    requires rank { (1 ≤ rank) × (rank ≤ length problem.now.flights) }
    requires room { length schedule.now ≡ length problem.now.flights }
    requires seconds { All (λ t. t ≤ last_second) schedule.now }
    ensures value { result ≡ cost_at problem.now rank (of_rank 0 schedule.now rank) }
    ensures small { result ≤ dearest_landing }
{
    u64::from(problem.cost(rank, schedule.second(rank)))
}

fn total_cost(problem: &Problem, schedule: &Schedule) -> u64
    requires room { length schedule.now ≡ length problem.now.flights }
    requires seconds { All (λ t. t ≤ last_second) schedule.now }
    ensures value { result ≡ total (λ r. cost_at problem.now r (of_rank 0 schedule.now r))
        (upto (length problem.now.flights)) }
    ensures small { result ≤ dearest_landing * length problem.now.flights }
{
    (1..problem.len() + 1)
        .map(|rank| cost_of(problem, schedule, rank))
        .sum()
}
