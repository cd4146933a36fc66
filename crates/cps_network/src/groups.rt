//! The groups of the windows of a stage, with what may land after them.

ghost use Rattle.std.specs.Prelude.{◌≡◌, ℕ, pos, ◌+◌, ◌-◌, ◌*◌, ◌/◌, ◌<◌, ◌≤◌, ◌⊎◌, ◌↔◌, length, drop, not, AllPairs, IsTrue, IfOk};
ghost use Rattle.precedence.specs.Pairs.{HasBit};
ghost use Rattle.cps_nodes.specs.Windows.{IsPlaced};
ghost use Rattle.cps_network.specs.Extended.{AreGroupsOf, AreInNextOrder, HasFree, HasOpen, HasPermitted, IsGroupOf, group_at};
ghost use Rattle.cps_network.specs.Links.{range_at};
ghost use Rattle.cps_network.specs.Lists.{AreWindows, IsAscending, most_in_a_stage, node_at};
ghost use Rattle.cps_network.specs.Permits.{IsPermitted};

use crate::ahead::{Ahead, ahead_of};
use crate::permit::{due_set, may_follow, most_shift, placed_set, reach};
use cps_nodes::Window;
use cps_problem::Problem;
use std::alloc::{AllocError, Global};

// A group: a half-open range of windows of a stage that share a tail, and so lead to the same windows.
#[derive(Clone, Copy)]
pub(crate) struct Group {
    pub(crate) from: u32,
    pub(crate) to: u32,
    // Where the windows to which it leads stand among those to which others lead.
    pub(crate) order: u32,
    // The offsets at which a rank is permitted after it: bit k + offset.
    pub(crate) offsets: u8,
}

impl Group {
    // Whether it has the offset of a bit.
    #[inline]
    pub(crate) fn has(&self, j: u8) -> bool
        requires { j < 8 }
        ensures { IsTrue result ↔ HasBit self.now.offsets j }
    {
        (self.offsets >> j) & 1 == 1
    }
}

// Some offsets and that of a rank, where the rank is permitted.
fn with_rank<const W: usize>(
    problem: &Problem,
    window: &Window<W>,
    stage: u8,
    rank: u8,
    placed: u64,
    offsets: u8,
) -> u8
    requires width { W ≡ 2 * problem.now.k + 1 }
    requires stage { stage < length problem.now.flights }
    requires placed { (first : ℕ) → 1 ≤ first → HasBit placed first ↔ IsPlaced window.now (pos
        stage) (pos first) }
    requires rank { (1 ≤ rank) × (rank ≤ length problem.now.flights) }
    requires reach { (rank ≤ stage + 1 + problem.now.k) × (stage + 1 ≤ rank + problem.now.k) }
    ensures { (j : ℕ) → HasBit result j ↔ (HasBit offsets j
        ⊎ ((j + stage + 1 ≡ rank + problem.now.k) × IsPermitted problem.now stage window.now rank)) }
{
    let with = offsets | 1 << (rank + most_shift(problem) - stage - 1);
    if may_follow(problem, window, stage, rank, placed) {
        with
    } else {
        offsets
    }
}

// The offsets at which a rank is permitted after a window of a stage, each tested.
fn tested_offsets<const W: usize>(problem: &Problem, window: &Window<W>, stage: u8, due: u64) -> u8
    requires width { W ≡ 2 * problem.now.k + 1 }
    requires stage { stage < length problem.now.flights }
    requires due { (rank : ℕ) → HasBit due rank ↔ (rank + W / 2 ≤ stage) }
    ensures { HasPermitted problem.now stage window.now result }
{
    let (first, end) = reach(problem, stage);
    let placed = placed_set(window, stage, due);
    let mut offsets = 0;
    for rank in first..end {
        offsets = with_rank(problem, window, stage, rank, placed, offsets);
    }
    offsets
}

// The offsets at which a rank is permitted after a window of a stage. Few windows have a rank ahead that is to be tested.
fn permitted_offsets<const W: usize>(
    problem: &Problem,
    window: &Window<W>,
    stage: u8,
    due: u64,
    ahead: Ahead,
) -> u8
    requires width { W ≡ 2 * problem.now.k + 1 }
    requires stage { stage < length problem.now.flights }
    requires due { (rank : ℕ) → HasBit due rank ↔ (rank + W / 2 ≤ stage) }
    requires open { HasOpen problem.now stage ahead.open }
    requires free { HasFree problem.now stage ahead.free }
    ensures { HasPermitted problem.now stage window.now result }
{
    match ahead.free_of(window.accepted()) {
        Some(offsets) => offsets,
        None => tested_offsets(problem, window, stage, due),
    }
}

// The first place, from this one on, whose window does not share the tail of this window.
fn end_of_group<const W: usize>(before: &[Window<W>], front: &Window<W>, from: usize) -> usize
    requires { from ≤ length before.now }
    ensures range { (from ≤ result) × (result ≤ length before.now) }
    ensures same { (i : ℕ) → from ≤ i → i < result
        → drop 1 (node_at before.now i) ≡ drop 1 front.now }
    ensures ends { result < length before.now
        → drop 1 (node_at before.now result) ≡ drop 1 front.now → ⊥ }
{
    (from..before.len())
        .find(
            |to: &usize| -> bool
                requires { to.now < length before.now }
                ensures { IsTrue (not result)
                    ↔ (drop 1 (node_at before.entry.now to.now) ≡ drop 1 front.entry.now) }
            { !before[*to].shares_tail(front) },
        )
        .unwrap_or(before.len())
}

// The group that begins at a place.
fn group_from<const W: usize>(
    problem: &Problem,
    stage: u8,
    before: &[Window<W>],
    from: usize,
    due: u64,
    ahead: Ahead,
) -> Group
    requires width { W ≡ 2 * problem.now.k + 1 }
    requires stage { stage < length problem.now.flights }
    requires due { (rank : ℕ) → HasBit due rank ↔ (rank + W / 2 ≤ stage) }
    requires open { HasOpen problem.now stage ahead.open }
    requires free { HasFree problem.now stage ahead.free }
    requires few { length before.now ≤ most_in_a_stage }
    requires ascending { IsAscending before.now }
    requires within { from < length before.now }
    requires first { 0 < from
        → drop 1 (node_at before.now (from - 1)) ≡ drop 1 (node_at before.now from) → ⊥ }
    ensures from { result.from ≡ from }
    ensures group { IsGroupOf problem.now stage before.now result }
{
    let window = &before[from];
    let to = end_of_group(before, window, from);
    Group {
        from: from as u32,
        to: to as u32,
        order: window.order_of_next(),
        offsets: permitted_offsets(problem, window, stage, due, ahead),
    }
}

// The groups of the windows of a stage, in the order of their tails.
fn groups_of<const W: usize>(
    alloc: Global,
    problem: &Problem,
    stage: u8,
    before: &[Window<W>],
) -> Result<Vec<Group>, AllocError>
    requires width { W ≡ 2 * problem.now.k + 1 }
    requires stage { stage < length problem.now.flights }
    requires few { length before.now ≤ most_in_a_stage }
    requires ascending { IsAscending before.now }
    ensures groups { IfOk result (λ groups. AreGroupsOf problem.now stage before.now groups.items) }
    ensures few { IfOk result (λ groups. length groups.items ≤ most_in_a_stage) }
    ensures rising { IfOk result (λ groups. AllPairs (λ a later. a.from < later.from) groups.items) }
{
    let due = due_set(stage, most_shift(problem));
    let ahead = ahead_of(problem, stage);
    // Up to three windows share a tail.
    let mut groups = Vec::with_capacity(alloc, before.len() / 3)?;
    let mut from = 0;
    while from < before.len() {
        let group = group_from(problem, stage, before, from, due, ahead);
        groups.push(group)?;
        from = group.to as usize;
    }
    Ok(groups)
}

// The groups of the windows of a stage, in the order of what they lead to.
pub(crate) fn groups_in_order<const W: usize>(
    alloc: Global,
    problem: &Problem,
    stage: u8,
    before: &[Window<W>],
) -> Result<Vec<Group>, AllocError>
    requires width { W ≡ 2 * problem.now.k + 1 }
    requires stage { stage < length problem.now.flights }
    requires few { length before.now ≤ most_in_a_stage }
    requires ascending { IsAscending before.now }
    requires valid { AreWindows W before.now }
    ensures groups { IfOk result (λ groups. AreGroupsOf problem.now stage before.now groups.items) }
    ensures few { IfOk result (λ groups. length groups.items ≤ most_in_a_stage) }
    ensures order { IfOk result (λ groups. AreInNextOrder before.now groups.items) }
{
    let mut groups = groups_of(alloc, problem, stage, before)?;
    groups.sort_by_key(|group: &Group| group.order)?;
    Ok(groups)
}

// The ranges of groups.
pub(crate) fn ranges_of(alloc: Global, groups: &[Group]) -> Result<Vec<(u32, u32)>, AllocError>
    ensures len { IfOk result (λ ranges. length ranges.items ≡ length groups.now) }
    ensures each { IfOk result (λ ranges. (i : ℕ) → i < length groups.now
        → range_at ranges.items i ≡ (let g = group_at groups.now i in (g.from, g.to))) }
{
    let mut ranges = Vec::with_capacity(alloc, groups.len())?;
    for group in groups {
        ranges.push((group.from, group.to))?;
    }
    Ok(ranges)
}
