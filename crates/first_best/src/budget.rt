//! What a value leaves to delays.

ghost use Rattle.std.specs.Prelude.{◌≡◌, ℕ, ◌^◌, ◌<◌};
ghost use Rattle.landing_joint.specs.CompletingPairs.{budget_of};
ghost use Rattle.first_best.specs.Completing.{IsWithinBudget};

use cps_problem::{Objective, Problem};

// What the value leaves to the delays of the waiting flights.
pub(crate) fn budget_of(problem: &Problem, value: u64) -> u64
    ensures { result ≡ budget_of problem.now value }
{
    match problem.head().objective {
        Objective::Makespan => 0,
        Objective::Delay => value.saturating_sub(problem.head().base),
    }
}

// Each cost for which a budget has room is below this, behind prefixes of which none costs less than `cheapest`.
pub(crate) fn limit_of(budget: Option<u64>, cheapest: u32) -> u64
    ensures { (cost : ℕ) → cost < 2 ^ 32 → IsWithinBudget budget cheapest cost → cost < result }
{
    match budget {
        None => 1u64 << 32,
        Some(most) => most.saturating_add(1).saturating_sub(u64::from(cheapest)),
    }
}
