//! The stage after a stage.

ghost use Rattle.std.specs.Prelude.{◌≡◌, ℕ, ◌+◌, ◌*◌, ◌<◌, ◌≤◌, [], length, IfOk};
ghost use Rattle.cps_base.specs.Limits.{most_waiting};
ghost use Rattle.cps_nodes.specs.Windows.{IsWidth};
ghost use Rattle.cps_network.specs.Extended.{AreGroupsOf, AreInNextOrder, AreRanges, HavePlaces};
ghost use Rattle.cps_network.specs.Landable.{HoldsCandidates};
ghost use Rattle.cps_network.specs.Lists.{AreWindows, IsAscending, most_in_a_stage};
ghost use Rattle.cps_network.specs.Permits.{IsNextOf};

use crate::gather::{Gathered, gather};
use crate::groups::{Group, groups_in_order, ranges_of};
use crate::links::Links;
use crate::stage::Stage;
use cps_nodes::{Window, window_laws};
use cps_problem::{Objective, Problem};
use std::alloc::{AllocError, Global};

// From how many windows on a stage keeps links.
const LINKED: usize = 32;

// Whether links to so many windows save more than they cost: only the labels for the makespan are found by links.
fn are_worth_links(problem: &Problem, windows: usize) -> bool {
    match problem.head().objective {
        Objective::Makespan => windows >= LINKED,
        Objective::Delay => false,
    }
}

// How many windows follow groups.
fn count_of(groups: &[Group]) -> usize {
    groups
        .iter()
        .fold(0, |count: usize, group: &Group| -> usize {
            count.saturating_add(group.offsets.count_ones() as usize)
        })
}

// Room for the windows that follow groups, and for their places.
fn room_for<const W: usize>(alloc: Global, groups: &[Group]) -> Result<Gathered<W>, AllocError>
    ensures windows { IfOk result (λ g. g.windows.items ≡ []) }
    ensures places { IfOk result (λ g. g.places.items ≡ []) }
{
    let count = count_of(groups);
    let windows = Vec::with_capacity(alloc, count)?;
    let places = Vec::with_capacity(alloc, count)?;
    Ok(Gathered { windows, places })
}

// The windows that extend those of a stage by a permitted rank, in ascending order.
fn next_windows<const W: usize>(
    alloc: Global,
    problem: &Problem,
    stage: u8,
    before: &[Window<W>],
    groups: &[Group],
) -> Result<Gathered<W>, AllocError>
    requires width { W ≡ 2 * problem.now.k + 1 }
    requires stage { stage < length problem.now.flights }
    requires valid { AreWindows W before.now }
    requires groups { AreGroupsOf problem.now stage before.now groups.now }
    requires order { AreInNextOrder before.now groups.now }
    requires few { length groups.now ≤ most_in_a_stage }
    ensures ascending { IfOk result (λ g. IsAscending g.windows.items) }
    ensures exact { IfOk result (λ g. IsNextOf problem.now stage before.now g.windows.items) }
    ensures valid { IfOk result (λ g. AreWindows W g.windows.items) }
    ensures places { IfOk result (λ g. HavePlaces before.now groups.now g.windows.items g.places.items) }
{
    // k is at most 3.
    let _near = problem.head();
    window_laws::<W>();
    let mut gathered = room_for(alloc, groups)?;
    gather(before, groups, &mut gathered)?;
    Ok(gathered)
}

// The stage of these windows. Where they are those of the stage before, it shares that one's list.
fn made_after<const W: usize>(
    alloc: Global,
    before: &Stage<W>,
    windows: Vec<Window<W>>,
) -> Result<Stage<W>, AllocError>
    requires stage { before.now.0 < most_waiting }
    requires ascending { IsAscending windows.items }
    requires valid { AreWindows W windows.items }
    ensures { IfOk result (λ s. s ≡ (before.now.0 + 1, windows.entry.items)) }
{
    let number = before.number() + 1;
    if before.windows() == windows.as_slice() {
        let same = before.copy_as(number)?;
        return Ok(same);
    }
    let made = Stage::of(alloc, number, windows)?;
    Ok(made)
}

// A stage with links from the windows of the stage before, by these groups and the places of its windows.
fn linked<const W: usize>(
    alloc: Global,
    before: &Stage<W>,
    groups: &[Group],
    stage: Stage<W>,
    places: Vec<u32>,
) -> Result<Stage<W>, AllocError>
    requires groups { AreRanges before.now.1 groups.now }
    requires places { HavePlaces before.now.1 groups.now stage.1 places.items }
    ensures { IfOk result (λ s. s ≡ stage.entry) }
{
    let ranges = ranges_of(alloc, groups)?;
    let links = Links::of(before, &stage, ranges, places)?;
    let linked = stage.with_links(alloc, links)?;
    Ok(linked)
}

// The stage of the windows that were gathered, with links from those of the stage before where these are worth keeping.
fn stage_of<const W: usize>(
    alloc: Global,
    problem: &Problem,
    before: &Stage<W>,
    groups: &[Group],
    gathered: Gathered<W>,
) -> Result<Stage<W>, AllocError>
    requires width { IsWidth W }
    requires stage { before.now.0 < most_waiting }
    requires groups { AreRanges before.now.1 groups.now }
    requires ascending { IsAscending gathered.windows.items }
    requires valid { AreWindows W gathered.windows.items }
    requires places { HavePlaces before.now.1 groups.now gathered.windows.items gathered.places.items }
    ensures { IfOk result (λ s. s ≡ (before.now.0 + 1, gathered.entry.windows.items)) }
{
    let made = made_after(alloc, before, gathered.windows)?;
    if !are_worth_links(problem, made.len()) {
        return Ok(made);
    }
    let stage = linked(alloc, before, groups, made, gathered.places)?;
    Ok(stage)
}

/// The stage after a stage of a problem: exactly the windows that extend one of it by a permitted rank.
pub fn next_stage<const W: usize>(
    alloc: Global,
    before: &Stage<W>,
    problem: &Problem,
) -> Result<Stage<W>, AllocError>
    requires width { W ≡ 2 * problem.now.k + 1 }
    requires stage { before.now.0 < length problem.now.flights }
    ensures number { IfOk result (λ s. s.0 ≡ before.now.0 + 1) }
    ensures ascending { IfOk result (λ s. IsAscending s.1) }
    ensures exact { IfOk result (λ s. IsNextOf problem.now before.now.0 before.now.1 s.1) }
    ensures candidates { IfOk result (λ s. HoldsCandidates problem.now before.now s) }
{
    // k is at most 3, and at most `MOST_WAITING` flights wait.
    let _near = problem.head();
    // A stage has at most 823,543 windows.
    let _few = before.len();
    let earlier = before.windows();
    let groups = groups_in_order(alloc, problem, before.number(), earlier)?;
    let gathered = next_windows(alloc, problem, before.number(), earlier, &groups)?;
    let stage = stage_of(alloc, problem, before, &groups, gathered)?;
    Ok(stage)
}
