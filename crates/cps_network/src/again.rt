//! The next stage, taken again from another stage that has the same windows.

ghost use Rattle.std.specs.Prelude.{◌≡◌, ◌+◌, ◌-◌, ◌*◌, ◌<◌, ◌≤◌, ◌↔◌, ℕ, length, IsTrue, IfOk, IfSome};
ghost use Rattle.cps_base.specs.Limits.{greatest_k, most_waiting};
ghost use Rattle.precedence.specs.Pairs.{HasBit};
ghost use Rattle.cps_network.specs.Again.{AreAsFar, AreInReach, HaveSameNext, IsReady, IsStageAfter};
ghost use Rattle.cps_network.specs.Again.{WaitAlike, WaitAlikeFor, WaitsFor, WaitsForNoMore, WaitsNear};
ghost use Rattle.cps_network.specs.Permits.{IsNextOf};

use crate::permit::{due_set, most_shift, reach};
use crate::stage::Stage;
use cps_problem::Problem;
use std::alloc::AllocError;

// The ranks that can have landed by a stage, as bits: those at most stage + k.
fn landed_set(stage: u8, k: u8) -> u64
    requires stage { stage < most_waiting }
    requires near { k ≤ greatest_k }
    ensures { (rank : ℕ) → HasBit result rank ↔ (rank ≤ stage + k) }
{
    (1 << (stage + k + 1)) - 1
}

// Whether each flight that must land before a rank is due by a stage.
pub(crate) fn is_ready(problem: &Problem, stage: u8, rank: u8) -> bool
    requires stage { stage < length problem.now.flights }
    requires rank { (1 ≤ rank) × (rank ≤ length problem.now.flights) }
    ensures { IsTrue result ↔ IsReady problem.now stage rank }
{
    let due = due_set(stage, most_shift(problem));
    problem.pairs().all_before(rank, due)
}

// Whether each flight that must land before a rank can have landed by a stage.
fn waits_near(problem: &Problem, stage: u8, rank: u8) -> bool
    requires stage { stage < length problem.now.flights }
    requires rank { (1 ≤ rank) × (rank ≤ length problem.now.flights) }
    ensures { IsTrue result ↔ WaitsNear problem.now stage rank }
{
    let landed = landed_set(stage, most_shift(problem));
    problem.pairs().all_before(rank, landed)
}

// Whether the flight at a place must land before a rank. Places are counted from the first flight that is not due by a stage.
fn waits_for(problem: &Problem, stage: u8, rank: u8, place: u8) -> bool
    requires stage { stage < length problem.now.flights }
    requires rank { (1 ≤ rank) × (rank ≤ length problem.now.flights) }
    requires near { place < 2 * problem.now.k }
    ensures { IsTrue result ↔ WaitsFor problem.now stage rank place }
{
    let k = most_shift(problem);
    let n = problem.len();
    if stage + 1 + place <= k || stage + 1 + place - k > n {
        return false;
    }
    problem.pairs().must_precede(stage + 1 + place - k, rank)
}

// The rank as far from a stage as another is from another.
fn rank_as_far(held: &Problem, a: u8, rank: u8, problem: &Problem, b: u8) -> u8
    requires far { AreAsFar held.now a problem.now b }
    requires rank { AreInReach held.now a rank problem.now b (rank + b - a) }
    ensures rank { result ≡ rank + b - a }
    ensures from_one { 1 ≤ result }
    ensures to_count { result ≤ length problem.now.flights }
{
    // At most `MOST_WAITING` flights wait for either.
    let _few = held.len();
    let _few_there = problem.len();
    rank + b - a
}

// Whether two ranks that are as far from a stage each wait for the flight at a place alike.
fn wait_alike_for(held: &Problem, a: u8, rank: u8, problem: &Problem, b: u8, place: u8) -> bool
    requires far { AreAsFar held.now a problem.now b }
    requires rank { AreInReach held.now a rank problem.now b (rank + b - a) }
    requires near { place < 2 * held.now.k }
    ensures { IsTrue result → WaitAlikeFor held.now a rank problem.now b (rank + b - a) place }
{
    let other = rank_as_far(held, a, rank, problem, b);
    waits_for(held, a, rank, place) == waits_for(problem, b, other, place)
}

// Whether they wait for the same flights, counted from the stages.
fn wait_for_same(held: &Problem, a: u8, rank: u8, problem: &Problem, b: u8) -> bool
    requires far { AreAsFar held.now a problem.now b }
    requires rank { AreInReach held.now a rank problem.now b (rank + b - a) }
    ensures no_more { IsTrue result → WaitsForNoMore held.now a rank problem.now b (rank + b - a) }
    ensures no_less { IsTrue result → WaitsForNoMore problem.now b (rank + b - a) held.now a rank }
{
    let other = rank_as_far(held, a, rank, problem, b);
    if is_ready(held, a, rank) && is_ready(problem, b, other) {
        return true;
    }
    if !waits_near(held, a, rank) || !waits_near(problem, b, other) {
        return false;
    }
    let k = most_shift(held);
    (0..2 * k).all(|place| wait_alike_for(held, a, rank, problem, b, place))
}

// Whether a rank in reach of a stage and the one as far from another stage wait for the same flights, counted from the stages,
// and were passed as often.
fn wait_alike(held: &Problem, a: u8, rank: u8, problem: &Problem, b: u8) -> bool
    requires far { AreAsFar held.now a problem.now b }
    requires rank { AreInReach held.now a rank problem.now b (rank + b - a) }
    ensures { IsTrue result → WaitAlike held.now a rank problem.now b (rank + b - a) }
{
    let other = rank_as_far(held, a, rank, problem, b);
    held.passed(rank) == problem.passed(other) && wait_for_same(held, a, rank, problem, b)
}

// Whether stages of two problems are as far from the first flight and from the last, where these are in reach of them.
fn are_as_far(held: &Problem, a: u8, problem: &Problem, b: u8) -> bool
    requires { b < length problem.now.flights }
    ensures { IsTrue result → AreAsFar held.now a problem.now b }
{
    let k = most_shift(problem);
    if most_shift(held) != k || a >= held.len() {
        return false;
    }
    a.min(k) == b.min(k) && (held.len() - a).min(k + 1) == (problem.len() - b).min(k + 1)
}

// Whether what comes next after windows of a stage of one problem comes next after the same windows of a stage of another.
// Of the flights only those in reach are looked at.
fn have_same_next(held: &Problem, a: u8, problem: &Problem, b: u8) -> bool
    requires { b < length problem.now.flights }
    ensures { IsTrue result → HaveSameNext held.now a problem.now b }
{
    if !are_as_far(held, a, problem, b) {
        return false;
    }
    let (first, end) = reach(held, a);
    (first..end).all(|rank| wait_alike(held, a, rank, problem, b))
}

/// The stage after a stage of a problem, where it is seen to have the windows of the stage after another one, of this or of
/// another problem, and so shares those. Else none.
pub fn next_stage_again<const W: usize>(
    before: &Stage<W>,
    problem: &Problem,
    held: &Problem,
    earlier: &Stage<W>,
    after: &Stage<W>,
) -> Result<Option<Stage<W>>, AllocError>
    requires width { W ≡ 2 * problem.now.k + 1 }
    requires stage { before.now.0 < length problem.now.flights }
    requires after { IsNextOf held.now earlier.now.0 earlier.now.1 after.now.1 }
    ensures { IfOk result (λ next. IfSome next (IsStageAfter problem.now before.now)) }
{
    // k is at most 3, and at most `MOST_WAITING` flights wait. The windows ascend.
    let _near = problem.head();
    let _ascending = after.windows();
    if have_same_next(held, earlier.number(), problem, before.number())
        && before.windows() == earlier.windows()
    {
        let next = after.copy_as(before.number() + 1)?;
        return Ok(Some(next));
    }
    Ok(None)
}
