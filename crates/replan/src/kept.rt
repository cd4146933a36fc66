//! The problem that was planned last, with its stages.

ghost use Rattle.std.specs.Prelude.{◌≡◌, ℕ, ◌+◌, ◌*◌, length, vec_len, IfOk, OnOk, OnErr, None, Some};
ghost use Rattle.cps_base.specs.Tally.{raised_by};
ghost use Rattle.cps_network.specs.Due.{IsDue};
ghost use Rattle.cps_problem.specs.Plans.{IsAnswerOf};
ghost use Rattle.replan.specs.Held.{held_problem};
ghost use Rattle.replan.specs.Stages.{AreStages};

use crate::filling::fill_stages;
use crate::held::{HeldProblem, begin_stages};
use crate::plan::schedule_of;
use crate::planning::Planning;
use crate::stages::LabelledStage;
use cps_base::{Ledger, Steps};
use cps_outside::Gate;
use cps_problem::{Problem, Schedule};
use std::alloc::{AllocError, Global};
use std::marker::Model;
use std::thread::Threads;

/// No problem, or the problem that was planned last, with its stages by windows of W places: their landable windows, and
/// the undominated pairs of each for its objective.
///
/// Contracts see the problem, its stages and their pairs.
#[derive(Drop)]
pub struct Kept<const W: usize> {
    pub(crate) held: Option<HeldProblem<W>>,
}

impl<const W: usize> Model for Kept<W> {
    ghost use Rattle.std.specs.Prelude.{Option, MatchOption, ⊤};
    ghost use Rattle.replan.specs.Held.{HeldProblem, IsHeld};

    ghost Value = { Option HeldProblem };

    ghost view = { λ k. k.held };

    ghost invariant = { λ k. MatchOption k.held ⊤ (IsHeld W) };
}

// All stages of a problem, in place of those that are held. Those that it has in common with the problem held are kept, and
// the others are given back, but for their windows, before new ones are filled.
fn all_stages<const W: usize, R: Threads + Sync, G: Gate + Sync, L: Ledger>(
    rt: &R,
    alloc: Global,
    problem: &Problem,
    held: Option<HeldProblem<W>>,
    gate: &G,
    steps: &mut Steps<L>,
) -> Result<Vec<LabelledStage<W>>, AllocError>
    requires { W ≡ 2 * problem.now.k + 1 }
    ensures held { IfOk result (λ kept. AreStages problem.now kept.items) }
    ensures all { IfOk result (λ kept. vec_len kept ≡ length problem.now.flights + 1) }
    ensures steps { OnOk result ((due : ℕ) × IsDue (held_problem held.entry) problem.now due
        × (L.count steps.new ≡ raised_by due (L.count steps.old))) }
{
    let mut begun = begin_stages(alloc, problem, held)?;
    let planning = Planning {
        rt,
        gate,
        alloc,
        problem,
    };
    fill_stages(&planning, &mut begun, steps)?;
    Ok(begun.stages)
}

impl<const W: usize> Kept<W> {
    // Holds no problem yet.
    pub(crate) fn new() -> Kept<W>
        ensures { result ≡ None }
    {
        Kept { held: None }
    }

    // Plans a problem, and holds it in place of the one held before. After want of memory no problem is held.
    pub(crate) fn replan<R: Threads + Sync, G: Gate + Sync, L: Ledger>(
        &mut self,
        rt: &R,
        alloc: Global,
        problem: &Problem,
        gate: &G,
        steps: &mut Steps<L>,
    ) -> Result<Option<Schedule>, AllocError>
        requires { W ≡ 2 * problem.now.k + 1 }
        ensures answer { IfOk result (IsAnswerOf problem.now) }
        ensures holds { OnOk result (held_problem self.new ≡ Some problem.now) }
        ensures lost { OnErr result (self.new ≡ None) }
        ensures steps { OnOk result ((due : ℕ) × IsDue (held_problem self.old) problem.now due
            × (L.count steps.new ≡ raised_by due (L.count steps.old))) }
    {
        let held = self.held.take();
        let copied = problem.copy()?;
        let stages = all_stages(rt, alloc, problem, held, gate, steps)?;
        let answer = schedule_of(alloc, problem, &stages)?;
        self.held = Some(HeldProblem {
            problem: copied,
            stages,
        });
        Ok(answer)
    }
}
