//! The least objective of a problem, with no way back to a schedule.

ghost use Rattle.std.specs.Prelude.{◌≡◌, ◌+◌, ◌*◌, ◌<◌, length, IfOk, OnOk, IsTrue};
ghost use Rattle.landing_joint.specs.RankedProblem.{value_at};
ghost use Rattle.cps_network.specs.Pairs.{list_at};
ghost use Rattle.cps_problem.specs.Plans.{IsPlannable};
ghost use Rattle.cps_network.specs.Permits.{IsNextOf};
ghost use Rattle.replan.specs.Labels.{HoldsPairs, last_pair};
ghost use Rattle.replan.specs.LeastValue.{IsLeastValue};

use crate::labels::Labels;
use crate::stages::{LabelledStage, stage_after, stage_zero};
use crate::trace::least_place;
use cps_network::Stage;
use cps_problem::Problem;
use extract_plan::value_of_pair;
use std::alloc::{AllocError, Global};
use std::mem;

// The objective that the last pair of the list at a place makes.
fn value_there(problem: &Problem, labels: &Labels, place: usize) -> u64
    requires place { place < length labels.now.lists }
    requires some { 0 < length (list_at labels.now.lists place) }
    ensures { result ≡ value_at problem.now (last_pair (list_at labels.now.lists place)) }
{
    let (second, cost) = labels.pair(place, labels.count(place) - 1);
    value_of_pair(problem, second, cost)
}

// The objective of a best schedule, told by the last stage.
fn least_of<const W: usize>(problem: &Problem, last: &LabelledStage<W>) -> Option<u64>
    requires stage { last.now.stage.0 ≡ length problem.now.flights }
    requires held { HoldsPairs problem.now last.now.stage last.now.labels }
    ensures { IsLeastValue problem.now result }
{
    // The problem is well formed, and so its value a number of the rules.
    let _well_formed = problem.head();
    let place = least_place(&last.labels)?;
    Some(value_there(problem, &last.labels, place))
}

// The stage after `last`. Where `last` has every window that extends `earlier`, its candidates are often a copy of `last`.
fn stage_alone<const W: usize>(
    alloc: Global,
    problem: &Problem,
    earlier: &Stage<W>,
    last: &LabelledStage<W>,
) -> Result<LabelledStage<W>, AllocError>
    requires width { W ≡ 2 * problem.now.k + 1 }
    requires held { HoldsPairs problem.now last.now.stage last.now.labels }
    requires stage { last.now.stage.0 < length problem.now.flights }
    requires whole { IsTrue last.now.is_whole
        → IsNextOf problem.now earlier.now.0 earlier.now.1 last.now.stage.1 }
    ensures held { IfOk result (λ s. HoldsPairs problem.now s.stage s.labels) }
    ensures number { IfOk result (λ s. s.stage.0 ≡ last.now.stage.0 + 1) }
    ensures whole { IfOk result (λ s. IsTrue s.is_whole
        → IsNextOf problem.now last.now.stage.0 last.now.stage.1 s.stage.1) }
{
    let mut stage = stage_after(alloc, problem, earlier, &last.stage, last.is_whole)?;
    let candidates = stage.len();
    let labels = last
        .labels
        .next_alone(alloc, problem, &last.stage, &mut stage)?;
    let is_whole = stage.len() == candidates;
    Ok(LabelledStage {
        stage,
        labels,
        is_whole,
    })
}

// One stage further.
fn advance<const W: usize>(
    alloc: Global,
    problem: &Problem,
    earlier: &mut Stage<W>,
    last: &mut LabelledStage<W>,
) -> Result<(), AllocError>
    requires width { W ≡ 2 * problem.now.k + 1 }
    requires held { HoldsPairs problem.now last.old.stage last.old.labels }
    requires stage { last.old.stage.0 < length problem.now.flights }
    requires whole { IsTrue last.old.is_whole
        → IsNextOf problem.now earlier.old.0 earlier.old.1 last.old.stage.1 }
    ensures held { OnOk result (HoldsPairs problem.now last.new.stage last.new.labels) }
    ensures number { OnOk result (last.new.stage.0 ≡ last.old.stage.0 + 1) }
    ensures whole { OnOk result (IsTrue last.new.is_whole
        → IsNextOf problem.now earlier.new.0 earlier.new.1 last.new.stage.1) }
{
    let next = stage_alone(alloc, problem, earlier, last)?;
    let former = mem::replace(last, next);
    *earlier = former.stage;
    Ok(())
}

// Stage by stage, by windows of W places.
fn least_by_windows<const W: usize>(
    alloc: Global,
    problem: &Problem,
) -> Result<Option<u64>, AllocError>
    requires width { W ≡ 2 * problem.now.k + 1 }
    ensures { IfOk result (IsLeastValue problem.now) }
{
    let flights = problem.len();
    let mut earlier: Stage<W> = Stage::start(alloc)?;
    let mut last = stage_zero(alloc, problem)?;
    for _reached in 0..flights {
        advance(alloc, problem, &mut earlier, &mut last)?;
    }
    Ok(least_of(problem, &last))
}

/// The least objective of a problem: that of a best schedule, in seconds or in weighted seconds of delay, or `None` exactly
/// where no schedule is feasible. The delay is asked with at most two places of shift.
///
/// It works on the caller's thread, and keeps two stages with their labels at a time, and the windows of the one before.
pub fn least_value(alloc: Global, problem: &Problem) -> Result<Option<u64>, AllocError>
    requires { IsPlannable problem.now }
    ensures { IfOk result (IsLeastValue problem.now) }
{
    match problem.head().k {
        0 => least_by_windows::<1>(alloc, problem),
        1 => least_by_windows::<3>(alloc, problem),
        2 => least_by_windows::<5>(alloc, problem),
        _ => least_by_windows::<7>(alloc, problem),
    }
}
