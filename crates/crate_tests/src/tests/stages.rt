// The stages of the network: both ways of making one, and what is left of one.
ghost use Rattle.std.specs.Prelude.{◌≡◌, ◌+◌, ◌*◌, ◌<◌, ◌≤◌, IfOk, length};
ghost use Rattle.cps_nodes.specs.Windows.{IsWidth};

use super::assert_send_sync;
use crate::bank::Bank;
use cps_network::{Stage, last_rank, next_stage, next_stage_again, sources};
use cps_problem::{Objective, Problem};
use std::alloc::{AllocError, Global};
use std::test::Fail;

// The sources in a stage of the window that begins with rank 2.
fn sources_of_rank_2(stage: &Stage<3>) -> Option<(usize, usize)>
    requires { 0 < length stage.now.1 }
{
    let next = stage.node(0).extend(1)?;
    Some(sources(stage, &next))
}

// How many windows and labels are left of a stage where each of its windows is left out.
fn left_of_none(alloc: Global, mut stage: Stage<3>) -> Result<(usize, usize), AllocError> {
    let mut labels = vec![in alloc; 7u32; stage.len()]?;
    stage.compact(&mut labels, |label| *label > 7);
    Ok((stage.len(), labels.len()))
}

#[test]
fn the_first_stage_has_the_source_alone(rt: HostRuntime) -> Result<(), Fail> {
    let stage: Stage<3> = Stage::start(rt.alloc())?;
    assert_send_sync(&stage);
    assert_eq!(rt;
        (stage.number(), stage.len(), stage.is_empty()),
        (0, 1, false)
    );
    assert_eq!(rt; last_rank(&stage.node(0), stage.number()), 0);
    assert_eq!(rt; sources_of_rank_2(&stage), Some((0, 1)));
    assert_eq!(rt; left_of_none(rt.alloc(), stage)?, (0, 0));
    Ok(())
}

// Sixteen flights, of which the one of rank `passed` was passed once, where the first of two ranks must land before the next.
fn sixteen(alloc: Global, k: u8, first: u8, next: u8, passed: u8) -> Result<Problem, Fail>
    requires { k ≤ 3 }
    ensures { IfOk result (λ problem. problem.k ≡ k) }
{
    let mut bank = Bank::new(alloc, k);
    for rank in 1..17u8 {
        bank.add_numbered(rank, u8::from(rank == passed))?;
    }
    Ok(bank.problem(Objective::Makespan, first, next)?)
}

// Leaves out the first window of a stage.
fn leave_out_first<const W: usize>(alloc: Global, stage: &mut Stage<W>) -> Result<(), Fail>
    requires { IsWidth W }
    ensures { stage.new.0 ≡ stage.old.0 }
{
    let mut labels = vec![in alloc; 1u8; stage.len()]?;
    if !labels.is_empty() {
        labels[0] = 0;
    }
    stage.compact(&mut labels, |label| *label > 0);
    Ok(())
}

// Whether two stages are one.
fn are_one<const W: usize>(left: &Stage<W>, right: &Stage<W>) -> bool {
    left.number() == right.number() && left.windows() == right.windows()
}

// The stage after a stage of a problem, where it is asked for without its first window.
fn stage_after<const W: usize>(
    alloc: Global,
    problem: &Problem,
    before: &Stage<W>,
    leave_out: bool,
) -> Result<Stage<W>, Fail>
    requires width { IsWidth W }
    requires places { W ≡ 2 * problem.now.k + 1 }
    requires stage { before.now.0 < length problem.now.flights }
    ensures { IfOk result (λ stage. stage.0 ≡ before.now.0 + 1) }
{
    let mut stage = next_stage(alloc, before, problem)?;
    if leave_out {
        leave_out_first(alloc, &mut stage)?;
    }
    Ok(stage)
}

// Whether the stage after a stage is the same where it is taken again from that after an earlier one.
fn have_same_next<const W: usize>(
    alloc: Global,
    problem: &Problem,
    earlier: &Stage<W>,
    stage: &Stage<W>,
) -> Result<bool, AllocError>
    requires places { W ≡ 2 * problem.now.k + 1 }
    requires stage { stage.now.0 < length problem.now.flights }
    requires earlier { earlier.now.0 < stage.now.0 }
{
    let after = next_stage(alloc, earlier, problem)?;
    let next = next_stage(alloc, stage, problem)?;
    match next_stage_again(stage, problem, problem, earlier, &after)? {
        None => Ok(true),
        Some(again) => Ok(are_one(&next, &again)),
    }
}

// Whether both ways of making the next stage give the same one, from each stage of a problem on. The first window of the
// stage of one number is left out.
fn have_one_next<const W: usize>(
    alloc: Global,
    problem: &Problem,
    left_out: u8,
) -> Result<bool, Fail>
    requires width { IsWidth W }
    requires places { W ≡ 2 * problem.now.k + 1 }
{
    let mut earlier: Stage<W> = Stage::start(alloc)?;
    for number in 1..problem.len() {
        let stage = stage_after(alloc, problem, &earlier, number == left_out)?;
        if !have_same_next(alloc, problem, &earlier, &stage)? {
            return Ok(false);
        }
        earlier = stage;
    }
    Ok(true)
}

// The same for sixteen flights, with one place of shift and with two.
fn sixteen_have_one_next(
    alloc: Global,
    first: u8,
    next: u8,
    passed: u8,
    left_out: u8,
) -> Result<bool, Fail> {
    let one = sixteen(alloc, 1, first, next, passed)?;
    let two = sixteen(alloc, 2, first, next, passed)?;
    Ok(have_one_next::<3>(alloc, &one, left_out)? && have_one_next::<5>(alloc, &two, left_out)?)
}

// A pair of ranks, a rank that was passed, and the stage of which a window is left out; 0 for none.
const SIXTEENS: [(u8, u8, u8, u8); 5] = [
    (0, 1, 0, 0),
    (8, 9, 0, 0),
    (0, 1, 8, 0),
    (0, 1, 0, 8),
    (3, 5, 9, 12),
];

#[test]
fn a_stage_made_like_an_earlier_one_is_the_next(rt: HostRuntime) -> Result<(), Fail> {
    let three = sixteen(rt.alloc(), 3, 0, 1, 0)?;
    assert!(rt; have_one_next::<7>(rt.alloc(), &three, 0)?);
    for (first, next, passed, left_out) in SIXTEENS {
        let are_same = sixteen_have_one_next(rt.alloc(), first, next, passed, left_out)?;
        assert!(rt; are_same, "{first} {next} {passed} {left_out}");
    }
    Ok(())
}
