//! Windows that the stages to come are likely to have.

ghost use Rattle.std.specs.Prelude.{◌≡◌, ◌+◌, ◌*◌, ◌<◌, length, map, IfOk, IfSome};
ghost use Rattle.cps_network.specs.Again.{IsStageAfter};
ghost use Rattle.replan.specs.Stages.{without_pairs};

use crate::stages::LabelledStage;
use cps_network::{Stage, next_stage_again};
use cps_problem::Problem;
use std::alloc::{AllocError, Global};
use std::marker::Model;

/// A stage without its pairs.
#[derive(Drop)]
pub(crate) struct HintedStage<const W: usize> {
    pub(crate) stage: Stage<W>,
    pub(crate) is_whole: bool,
}

impl<const W: usize> Model for HintedStage<W> {
    ghost use Rattle.replan.specs.Stages as stages;

    ghost Value = { stages.HintedStage };

    ghost view = { λ s. record { stage = s.stage; is_whole = s.is_whole } };
}

/// These stages without their pairs. The windows are shared.
pub(crate) fn shared<const W: usize>(
    alloc: Global,
    stages: &[LabelledStage<W>],
) -> Result<Vec<HintedStage<W>>, AllocError>
    ensures { IfOk result (λ hinted. hinted.items ≡ map without_pairs stages.now) }
{
    let mut hinted = Vec::with_capacity(alloc, stages.len())?;
    for labelled in stages {
        let stage = labelled.stage.share()?;
        hinted.push(HintedStage {
            stage,
            is_whole: labelled.is_whole,
        })?;
    }
    Ok(hinted)
}

/// Windows that the stages to come are likely to have: those of the stages of an earlier problem. Each is tested before use.
#[derive(Drop)]
pub(crate) struct Hints<const W: usize> {
    pub(crate) problem: Problem,
    pub(crate) stages: Vec<HintedStage<W>>,
}

impl<const W: usize> Model for Hints<W> {
    ghost use Rattle.replan.specs.Stages as hints;
    ghost use Rattle.replan.specs.Stages.{AreHints};

    ghost Value = { hints.Hints };

    ghost view = { λ h. record { problem = h.problem; stages = h.stages.items } };

    ghost invariant = { λ h. AreHints h.problem h.stages.items };
}

impl<const W: usize> Hints<W> {
    // The stage after a stage of a problem, where it is taken from what the hints have after the stage of this number.
    fn next_at(
        &self,
        problem: &Problem,
        before: &Stage<W>,
        number: usize,
    ) -> Result<Option<Stage<W>>, AllocError>
        requires width { W ≡ 2 * problem.now.k + 1 }
        requires stage { before.now.0 < length problem.now.flights }
        ensures { IfOk result (λ next. IfSome next (IsStageAfter problem.now before.now)) }
    {
        if number >= self.stages.len() || number + 1 == self.stages.len() {
            return Ok(None);
        }
        let earlier = &self.stages[number];
        let after = &self.stages[number + 1];
        if !after.is_whole || earlier.stage.len() != before.len() {
            return Ok(None);
        }
        let next = next_stage_again(before, problem, &self.problem, &earlier.stage, &after.stage)?;
        Ok(next)
    }

    /// The stage after a stage of a problem, where it is taken from the hints: from what they have after the stage of the same
    /// number, or after the one that is as far from the last.
    pub(crate) fn next(
        &self,
        problem: &Problem,
        before: &Stage<W>,
    ) -> Result<Option<Stage<W>>, AllocError>
        requires width { W ≡ 2 * problem.now.k + 1 }
        requires stage { before.now.0 < length problem.now.flights }
        ensures { IfOk result (λ next. IfSome next (IsStageAfter problem.now before.now)) }
    {
        let number = before.number() as usize;
        if let Some(next) = self.next_at(problem, before, number)? {
            return Ok(Some(next));
        }
        let from_last = (problem.len() - before.number()) as usize;
        let last = self.problem.len() as usize;
        if last < from_last || last - from_last == number {
            return Ok(None);
        }
        let next = self.next_at(problem, before, last - from_last)?;
        Ok(next)
    }
}
