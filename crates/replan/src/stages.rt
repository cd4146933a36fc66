//! The stages of a problem.

ghost use Rattle.std.specs.Prelude.{◌≡◌, ◌+◌, ◌-◌, ◌*◌, ◌<◌, ◌≤◌, [], length, vec_len, IfOk, OnOk, IsTrue, false};
ghost use Rattle.cps_network.specs.Again.{IsStageAfter};
ghost use Rattle.cps_network.specs.Landable.{HoldsCandidates};
ghost use Rattle.cps_network.specs.Lists.{IsAscending};
ghost use Rattle.cps_network.specs.Permits.{IsNextOf};
ghost use Rattle.replan.specs.Labels.{HoldsPairs};
ghost use Rattle.replan.specs.Stages.{stage_at, AreStages};

use crate::hints::Hints;
use crate::labels::Labels;
use cps_network::{Stage, next_stage, next_stage_again};
use cps_problem::Problem;
use std::alloc::{AllocError, Global};
use std::marker::Model;

/// A stage of a problem with the pairs of its windows.
#[derive(Drop)]
pub(crate) struct LabelledStage<const W: usize> {
    pub(crate) stage: Stage<W>,
    pub(crate) labels: Labels,
    // Whether each candidate was landable: then the stage after it may be a copy of it. For stage 0 it is left false.
    pub(crate) is_whole: bool,
}

impl<const W: usize> Model for LabelledStage<W> {
    ghost use Rattle.replan.specs.Stages as stages;

    ghost Value = { stages.LabelledStage };

    ghost view = { λ s. record { stage = s.stage; labels = s.labels; is_whole = s.is_whole } };
}

// Stage 0.
pub(crate) fn stage_zero<const W: usize>(
    alloc: Global,
    problem: &Problem,
) -> Result<LabelledStage<W>, AllocError>
    requires width { W ≡ 2 * problem.now.k + 1 }
    ensures held { IfOk result (λ s. HoldsPairs problem.now s.stage s.labels) }
    ensures ascending { IfOk result (λ s. IsAscending s.stage.1) }
    ensures number { IfOk result (λ s. s.stage.0 ≡ 0) }
    ensures unsaid { IfOk result (λ s. s.is_whole ≡ false) }
{
    let objective = problem.head().objective;
    let stage = Stage::start(alloc)?;
    // The windows of a stage ascend.
    let _ascending = stage.windows();
    let labels = Labels::start(alloc, objective)?;
    Ok(LabelledStage {
        stage,
        labels,
        is_whole: false,
    })
}

// Puts stage 0 of a problem where no stage is.
pub(crate) fn put_first<const W: usize>(
    alloc: Global,
    problem: &Problem,
    stages: &mut Vec<LabelledStage<W>>,
) -> Result<(), AllocError>
    requires width { W ≡ 2 * problem.now.k + 1 }
    requires none { stages.old.items ≡ [] }
    ensures held { OnOk result (AreStages problem.now stages.new.items) }
    ensures one { OnOk result (vec_len stages.new ≡ 1) }
{
    let first = stage_zero(alloc, problem)?;
    stages.push(first)?;
    Ok(())
}

// The stages from which on a problem is filled where it has none in common with another: stage 0 alone.
pub(crate) fn first_stage<const W: usize>(
    alloc: Global,
    problem: &Problem,
) -> Result<Vec<LabelledStage<W>>, AllocError>
    requires width { W ≡ 2 * problem.now.k + 1 }
    ensures held { IfOk result (λ kept. AreStages problem.now kept.items) }
    ensures one { IfOk result (λ kept. vec_len kept ≡ 1) }
{
    let mut kept = Vec::with_capacity(alloc, problem.len() as usize + 1)?;
    put_first(alloc, problem, &mut kept)?;
    Ok(kept)
}

// The candidates of the stage after `before`. Where `before` has every window that extends `earlier` (`is_whole`), they are
// often a copy of `before`.
pub(crate) fn stage_after<const W: usize>(
    alloc: Global,
    problem: &Problem,
    earlier: &Stage<W>,
    before: &Stage<W>,
    is_whole: bool,
) -> Result<Stage<W>, AllocError>
    requires width { W ≡ 2 * problem.now.k + 1 }
    requires stage { before.now.0 < length problem.now.flights }
    requires whole { IsTrue is_whole → earlier.now.0 < before.now.0
        → IsNextOf problem.now earlier.now.0 earlier.now.1 before.now.1 }
    ensures { IfOk result (IsStageAfter problem.now before.now) }
{
    if is_whole && earlier.number() < before.number() {
        if let Some(stage) = next_stage_again(before, problem, problem, earlier, before)? {
            return Ok(stage);
        }
    }
    let stage = next_stage(alloc, before, problem)?;
    Ok(stage)
}

// As `stage_after`, but they are taken from the hints, where they may be.
fn stage_again<const W: usize>(
    alloc: Global,
    problem: &Problem,
    earlier: &Stage<W>,
    before: &Stage<W>,
    is_whole: bool,
    hints: &Option<Hints<W>>,
) -> Result<Stage<W>, AllocError>
    requires width { W ≡ 2 * problem.now.k + 1 }
    requires stage { before.now.0 < length problem.now.flights }
    requires whole { IsTrue is_whole → earlier.now.0 < before.now.0
        → IsNextOf problem.now earlier.now.0 earlier.now.1 before.now.1 }
    ensures { IfOk result (IsStageAfter problem.now before.now) }
{
    if let Some(hints) = hints {
        if let Some(stage) = hints.next(problem, before)? {
            return Ok(stage);
        }
    }
    let stage = stage_after(alloc, problem, earlier, before, is_whole)?;
    Ok(stage)
}

// The candidates of the stage after the last of these.
pub(crate) fn candidates_after<const W: usize>(
    alloc: Global,
    problem: &Problem,
    kept: &[LabelledStage<W>],
    hints: &Option<Hints<W>>,
) -> Result<Stage<W>, AllocError>
    requires width { W ≡ 2 * problem.now.k + 1 }
    requires held { AreStages problem.now kept.now }
    requires some { 0 < length kept.now }
    requires number { length kept.now ≤ length problem.now.flights }
    ensures number { IfOk result (λ s. s.0 ≡ length kept.now) }
    ensures ascending { IfOk result (λ s. IsAscending s.1) }
    ensures exact { IfOk result (λ s. IsNextOf problem.now (length kept.now - 1)
        (stage_at kept.now (length kept.now - 1)).stage.1 s.1) }
    ensures candidates { IfOk result (λ s. HoldsCandidates problem.now
        (stage_at kept.now (length kept.now - 1)).stage s) }
{
    let number = kept.len() - 1;
    let earlier = &kept[number.saturating_sub(1)];
    let last = &kept[number];
    let stage = stage_again(
        alloc,
        problem,
        &earlier.stage,
        &last.stage,
        last.is_whole,
        hints,
    )?;
    Ok(stage)
}
