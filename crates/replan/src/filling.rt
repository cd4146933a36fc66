//! The stages of a problem, filled one after another.

ghost use Rattle.std.specs.Prelude.{◌≡◌, ℕ, ◌+◌, ◌-◌, ◌*◌, ◌<◌, ◌≤◌, length, max, vec_len, OnOk};
ghost use Rattle.cps_base.specs.Tally.{raised_by};
ghost use Rattle.cps_network.specs.Due.{HasCandidatesFrom};
ghost use Rattle.replan.specs.Stages.{AreStages};

use crate::held::Begun;
use crate::planning::Planning;
use crate::stages::{LabelledStage, candidates_after};
use cps_base::{Ledger, Steps};
use cps_outside::Gate;
use std::alloc::AllocError;
use std::thread::Threads;

// One stage more.
fn add_stage<const W: usize, R: Threads + Sync, G: Gate + Sync, L: Ledger>(
    planning: &Planning<R, G>,
    begun: &mut Begun<W>,
    steps: &mut Steps<L>,
) -> Result<(), AllocError>
    requires width { W ≡ 2 * planning.now.problem.now.k + 1 }
    requires held { AreStages planning.now.problem.now begun.old.stages.items }
    requires some { 0 < vec_len begun.old.stages }
    requires number { vec_len begun.old.stages ≤ length planning.now.problem.now.flights }
    ensures held { OnOk result (AreStages planning.now.problem.now begun.new.stages.items) }
    ensures one { OnOk result (vec_len begun.new.stages ≡ vec_len begun.old.stages + 1) }
    ensures steps { OnOk result ((due : ℕ) × HasCandidatesFrom (vec_len begun.old.stages)
        planning.now.problem.now (vec_len begun.old.stages) due
        × (L.count steps.new ≡ raised_by due (L.count steps.old))) }
{
    let mut stage = candidates_after(
        planning.alloc,
        planning.problem,
        &begun.stages,
        &begun.hints,
    )?;
    let candidates = stage.len();
    let last = &begun.stages[begun.stages.len() - 1];
    let labels = last.labels.next(planning, &last.stage, &mut stage, steps)?;
    let is_whole = stage.len() == candidates;
    // The windows of a stage ascend.
    let _ascending = stage.windows();
    begun.stages.push(LabelledStage {
        stage,
        labels,
        is_whole,
    })?;
    Ok(())
}

// The stages that follow those that are kept, until there are so many.
fn fill_upto<const W: usize, R: Threads + Sync, G: Gate + Sync, L: Ledger>(
    planning: &Planning<R, G>,
    count: usize,
    begun: &mut Begun<W>,
    steps: &mut Steps<L>,
) -> Result<(), AllocError>
    requires width { W ≡ 2 * planning.now.problem.now.k + 1 }
    requires held { AreStages planning.now.problem.now begun.old.stages.items }
    requires some { 0 < vec_len begun.old.stages }
    requires few { count ≤ length planning.now.problem.now.flights + 1 }
    ensures held { OnOk result (AreStages planning.now.problem.now begun.new.stages.items) }
    ensures many { OnOk result (vec_len begun.new.stages ≡ max (vec_len begun.old.stages) count) }
    ensures steps { OnOk result ((due : ℕ) × HasCandidatesFrom (vec_len begun.old.stages)
        planning.now.problem.now (vec_len begun.new.stages - 1) due
        × (L.count steps.new ≡ raised_by due (L.count steps.old))) }
{
    let first = begun.stages.len();
    for _stage in first..count {
        add_stage(planning, begun, steps)?;
    }
    Ok(())
}

// The stages that follow those that are kept, up to the last.
pub(crate) fn fill_stages<const W: usize, R: Threads + Sync, G: Gate + Sync, L: Ledger>(
    planning: &Planning<R, G>,
    begun: &mut Begun<W>,
    steps: &mut Steps<L>,
) -> Result<(), AllocError>
    requires width { W ≡ 2 * planning.now.problem.now.k + 1 }
    requires held { AreStages planning.now.problem.now begun.old.stages.items }
    requires some { 0 < vec_len begun.old.stages }
    requires few { vec_len begun.old.stages ≤ length planning.now.problem.now.flights + 1 }
    ensures held { OnOk result (AreStages planning.now.problem.now begun.new.stages.items) }
    ensures all { OnOk result (vec_len begun.new.stages
        ≡ length planning.now.problem.now.flights + 1) }
    ensures steps { OnOk result ((due : ℕ) × HasCandidatesFrom (vec_len begun.old.stages)
        planning.now.problem.now (length planning.now.problem.now.flights) due
        × (L.count steps.new ≡ raised_by due (L.count steps.old))) }
{
    let all = planning.problem.len() as usize + 1;
    fill_upto(planning, all, begun, steps)
}
