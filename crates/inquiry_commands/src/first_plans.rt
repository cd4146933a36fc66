//! The first plan of a situation: its first best schedule as the sequencer shows plans.

ghost use Rattle.std.specs.Prelude.{◌≡◌, IfOk, Some};
ghost use Rattle.landing_rules.specs.Text.{plan_shown};
ghost use Rattle.replan.specs.Kept.{problem_held};
ghost use Rattle.inquiry_commands.specs.FirstShown.{IsFirstShown, value_of};

use first_best::{Ahead, first_schedule};
use landing_joint::laws::{first_best_schedule_is_one, problem_stands_for_situation};
use plan_file::Plan;
use replan::AnyKept;
use sequencer::Sequencer;
use std::alloc::{AllocError, Global};

/// The plan of the first best schedule of the situation: of the best and tight ones the one whose waiting flights land in the
/// lexicographically least order of ranks. `None` exactly where no schedule is feasible.
///
/// It asks that the planner holds the problem of the situation, as it does after `begin` and each accepted event.
pub(crate) fn first_plan(
    alloc: Global,
    sequencer: &Sequencer<AnyKept>,
) -> Result<Option<Plan>, AllocError>
    requires { problem_held sequencer.now.planner ≡ Some sequencer.now.problem }
    ensures first { IfOk result (IsFirstShown sequencer.now.state.situation) }

    // It costs what the plan that is shown costs.
    ensures value { IfOk result (λ plan. value_of plan
        ≡ value_of (plan_shown sequencer.now.state)) }
{
    problem_stands_for_situation();
    first_best_schedule_is_one();
    let problem = sequencer.problem();
    let planner = sequencer.planner();
    match sequencer.plan() {
        None => Ok(None),
        Some(shown) => {
            let value = shown.value();
            let ahead = Ahead::within(alloc, problem, planner, value)?;
            let schedule = first_schedule(alloc, problem, planner, &ahead, value)?;
            let plan = sequencer.plan_of(alloc, &schedule)?;
            Ok(Some(plan))
        }
    }
}
