ghost use Rattle.std.specs.Prelude.{◌≡◌};
ghost use Rattle.landing_joint.specs.RankedProblem.{value_at};

use cps_problem::{Objective, Problem};

/// The objective that a whole landing order makes: `second` is its last second and `cost` what its flights cost together.
pub fn value_of_pair(problem: &Problem, second: u32, cost: u32) -> u64
    ensures { result ≡ value_at problem.now (second, cost) }
{
    match problem.head().objective {
        Objective::Makespan if problem.is_empty() => u64::from(problem.last_frozen()),
        Objective::Makespan => u64::from(second),
        Objective::Delay => problem.head().base + u64::from(cost),
    }
}
