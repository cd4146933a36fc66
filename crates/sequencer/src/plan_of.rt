// The plan of a schedule by rank.
ghost use Rattle.std.specs.Prelude.{◌≡◌, IfOk};
ghost use Rattle.landing_rules.specs.Problem.{joined, IsFeasibleList, IsProblemOf};
ghost use Rattle.landing_rules.specs.Sound.{IsSound};
ghost use Rattle.landing_rules.specs.Text.{shown_plan};

use crate::plan::plan_of;
use crate::problem::ranked_places;
use crate::sequencer::Sequencer;
use cps_problem::{Planner, Problem, Schedule};
use extract_plan::value_of;
use landing_joint::laws::problem_stands_for_situation;
use plan_file::Plan;
use situations::Situation;
use std::alloc::{AllocError, Global};

// The plan of a feasible list of the problem of a situation.
fn joined_plan(
    alloc: Global,
    situation: &Situation,
    problem: &Problem,
    schedule: &Schedule,
) -> Result<Plan, AllocError>
    requires sound { IsSound situation.now }
    requires problem { IsProblemOf situation.now problem.now }
    requires feasible { IsFeasibleList problem.now schedule.now }
    ensures { IfOk result (λ plan. plan ≡ shown_plan situation.now (joined situation.now
        schedule.now)) }
{
    problem_stands_for_situation();
    let places = ranked_places(alloc, situation)?;
    let value = value_of(problem, schedule);
    let plan = plan_of(alloc, situation, None, &places, schedule, value)?;
    Ok(plan)
}

impl<P: Planner> Sequencer<P> {
    /// The plan of a schedule that is feasible for the problem, best or not: the frozen landings joined with it, in landing
    /// order, with its objective.
    pub fn plan_of(&self, alloc: Global, schedule: &Schedule) -> Result<Plan, AllocError>
        requires { IsFeasibleList self.now.problem schedule.now }
        ensures { IfOk result (λ plan. plan ≡ shown_plan self.now.state.situation (joined
            self.now.state.situation schedule.now)) }
    {
        let plan = joined_plan(alloc, &self.situation, self.problem(), schedule)?;
        Ok(plan)
    }
}
