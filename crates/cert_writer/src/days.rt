//! That the seconds of a feasible schedule are of the two days.

ghost use Rattle.std.specs.Prelude.{◌≤◌, All};
ghost use Rattle.landing_rules.specs.Rules.{last_second};
ghost use Rattle.landing_rules.specs.Problem.{IsFeasibleList};

use cps_problem::{Problem, Schedule};

// Each second of a feasible schedule is open, and so one of the two days. The call changes nothing.
pub(crate) fn seconds_are_in_days(problem: &Problem, schedule: &Schedule)
    requires { IsFeasibleList problem.now schedule.now }
    ensures { All (λ t. t ≤ last_second) schedule.now }
{
    for rank in 1..problem.len() + 1 {
        // An open second is the first from itself on, and so in the days.
        let _open = problem.first_open(rank, schedule.second(rank));
    }
}
