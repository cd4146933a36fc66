// The objective of landings by their last second and their costs.
ghost use Rattle.std.specs.Prelude.{◌≡◌, ◌≤◌};
ghost use Rattle.cps_base.specs.Limits.{greatest_word};
ghost use Rattle.landing_joint.specs.RankedProblem.{value_at};

use cps_problem::{Objective, Problem};

// The last second for the makespan, or the last frozen one where no flight waits; the costs with those of the frozen
// flights for the delay.
pub(crate) fn objective_of(problem: &Problem, second: u32, cost: u64) -> u64
    requires { cost ≤ greatest_word }
    ensures { result ≡ value_at problem.now (second, cost) }
{
    match problem.head().objective {
        Objective::Makespan if problem.is_empty() => u64::from(problem.last_frozen()),
        Objective::Makespan => u64::from(second),
        Objective::Delay => problem.head().base + cost,
    }
}
