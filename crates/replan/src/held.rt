//! A problem that is held with all of its stages, and what another problem has in common with it.

ghost use Rattle.std.specs.Prelude.{◌≡◌, ◌+◌, ◌-◌, ◌*◌, ◌<◌, ◌≤◌, length, vec_len, IfOk, Some};
ghost use Rattle.cps_network.specs.Due.{IsDueFrom};
ghost use Rattle.replan.specs.Held.{AreInCommon, held_problem};
ghost use Rattle.replan.specs.Stages.{AreStages};

use crate::hints::{Hints, shared};
use crate::stages::{LabelledStage, first_stage, put_first};
use cps_network::{kept_stages, prefix_laws};
use cps_nodes::window_laws;
use cps_problem::Problem;
use std::alloc::{AllocError, Global};
use std::marker::Model;

/// A problem with all of its stages.
#[derive(Drop)]
pub(crate) struct HeldProblem<const W: usize> {
    pub(crate) problem: Problem,
    pub(crate) stages: Vec<LabelledStage<W>>,
}

impl<const W: usize> Model for HeldProblem<W> {
    ghost use Rattle.replan.specs.Held as held;
    ghost use Rattle.replan.specs.Held.{IsHeld};

    ghost Value = { held.HeldProblem };

    ghost view = { λ h. record { problem = h.problem; stages = h.stages.items } };

    ghost invariant = { λ h. IsHeld W (record { problem = h.problem; stages = h.stages.items }) };
}

// How many stages of a problem, from stage 0 on, another has in common with it: those from which even the greatest shift does
// not reach the first rank at which they differ.
fn common(held: &Problem, problem: &Problem) -> usize
    ensures { AreInCommon held.now problem.now result }
{
    let d = held.first_difference(problem);
    d.saturating_sub(problem.head().k) as usize
}

impl<const W: usize> HeldProblem<W> {
    // The stages that another problem has in common with this one, where these are more than stage 0, and the problem held. The
    // other stages are given back.
    fn into_common(self, problem: &Problem, count: usize) -> (Vec<LabelledStage<W>>, Problem)
        requires more { 1 < count }
        requires common { AreInCommon self.problem problem.now count }
        ensures held { AreStages problem.now result.0.items }
        ensures count { vec_len result.0 ≡ count }
        ensures problem { result.1 ≡ self.entry.problem }
    {
        // The problem held is well formed.
        let _held_ranks = self.problem.head();
        // The other is well formed too.
        let _ranks = problem.head();
        kept_stages(&self.problem, problem);
        prefix_laws::<W>(&self.problem);
        window_laws::<W>();
        let mut stages = self.stages;
        stages.truncate(count);
        (stages, self.problem)
    }

    // The stages from which on another problem is to be filled, and the problem held: those that they have in common, or stage 0
    // in the room of those held. The other stages are given back.
    fn into_begun(
        self,
        alloc: Global,
        problem: &Problem,
    ) -> Result<(Vec<LabelledStage<W>>, Problem), AllocError>
        requires { W ≡ 2 * problem.now.k + 1 }
        ensures held { IfOk result (λ begun. AreStages problem.now begun.0.items) }
        ensures some { IfOk result (λ begun. 0 < vec_len begun.0) }
        ensures few { IfOk result (λ begun. vec_len begun.0 ≤ length problem.now.flights + 1) }
        ensures due { IfOk result (λ begun. IsDueFrom (Some self.entry.problem) problem.now
            (vec_len begun.0)) }
        ensures problem { IfOk result (λ begun. begun.1 ≡ self.entry.problem) }
    {
        let count = common(&self.problem, problem);
        if count > 1 {
            return Ok(self.into_common(problem, count));
        }
        let mut stages = self.stages;
        stages.clear();
        put_first(alloc, problem, &mut stages)?;
        Ok((stages, self.problem))
    }
}

/// The stages from which on a problem is to be filled, and hints of those to come.
#[derive(Drop)]
pub(crate) struct Begun<const W: usize> {
    pub(crate) stages: Vec<LabelledStage<W>>,
    pub(crate) hints: Option<Hints<W>>,
}

/// The stages from which on a problem is to be filled: those that it has in common with the one that is held, or stage 0. Of
/// the others the windows are kept.
pub(crate) fn begin_stages<const W: usize>(
    alloc: Global,
    problem: &Problem,
    held: Option<HeldProblem<W>>,
) -> Result<Begun<W>, AllocError>
    requires width { W ≡ 2 * problem.now.k + 1 }
    ensures held { IfOk result (λ begun. AreStages problem.now begun.stages.items) }
    ensures some { IfOk result (λ begun. 0 < vec_len begun.stages) }
    ensures few { IfOk result (λ begun. vec_len begun.stages ≤ length problem.now.flights + 1) }
    ensures due { IfOk result (λ begun. IsDueFrom (held_problem held.entry) problem.now
        (vec_len begun.stages)) }
{
    match held {
        None => {
            let stages = first_stage(alloc, problem)?;
            Ok(Begun {
                stages,
                hints: None,
            })
        }
        Some(held) => {
            let windows = shared(alloc, &held.stages)?;
            let (stages, earlier) = held.into_begun(alloc, problem)?;
            let hints = Hints {
                problem: earlier,
                stages: windows,
            };
            Ok(Begun {
                stages,
                hints: Some(hints),
            })
        }
    }
}
