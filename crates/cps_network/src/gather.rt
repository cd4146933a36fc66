//! The windows of the next stage, gathered from groups.

ghost use Rattle.cps_network.specs.declared.groups.Group.{Group};
ghost use Rattle.std.specs.Prelude.{◌≡◌, ℕ, List, pos, ◌+◌, ◌-◌, ◌*◌, ◌/◌, ◌<◌, ◌≤◌, ◌⊎◌, ◌↔◌, length, not, All, IsTrue, OnOk, Contains, [], ◌∷◌, ◌++◌};
ghost use Rattle.cps_network.specs.Lists.{AreWindows, IsAscending, most_in_a_stage};
ghost use Rattle.precedence.specs.Pairs.{HasBit};
ghost use Rattle.cps_nodes.specs.Windows.{IsWidth};
ghost use Rattle.cps_network.specs.Extended.{AreInNextOrder, Follows, FollowsBy, HasGrownBy, HavePlaces, IsExtendable, StandBefore, group_at, offset_of};

use crate::groups::Group;
use cps_nodes::Window;
use std::alloc::{AllocError, Global};

// The windows of a stage as they are gathered.
#[derive(Drop)]
pub(crate) struct Gathered<const W: usize> {
    pub(crate) windows: Vec<Window<W>>,
    // For each window the place of the group that leads to it.
    pub(crate) places: Vec<u32>,
}

impl<const W: usize> Gathered<W> {
    // Adds a window to which the group at a place leads.
    fn push(&mut self, window: Window<W>, place: usize) -> Result<(), AllocError>
        requires { place ≤ most_in_a_stage }
        ensures windows { OnOk result (self.new.windows.items ≡ self.old.windows.items ++ window.entry ∷ []) }
        ensures places { OnOk result (self.new.places.items ≡ self.old.places.items ++ place ∷ []) }
    {
        self.windows.push(window)?;
        self.places.push(place as u32)?;
        Ok(())
    }
}

// The offset that a bit stands for.
#[inline]
fn offset_of<const W: usize>(j: u8) -> i8
    requires width { IsWidth W }
    requires bit { j < W }
    ensures { result ≡ offset_of W j }
{
    j as i8 - (W / 2) as i8
}

// Adds the window that follows a group by the offset of a bit, where the group has the bit.
fn add_next<const W: usize>(
    before: &[Window<W>],
    group: Group,
    j: u8,
    place: usize,
    gathered: &mut Gathered<W>,
) -> Result<(), AllocError>
    requires width { IsWidth W }
    requires bit { j < W }
    requires group { IsExtendable W before.now group }
    requires few { place ≤ most_in_a_stage }
    requires valid { AreWindows W before.now }
    requires ascending { IsAscending gathered.old.windows.items }
    requires before { StandBefore gathered.old.windows.items (FollowsBy W before.now group j) }
    ensures ascending { OnOk result (IsAscending gathered.new.windows.items) }
    ensures members { OnOk result ((x : _) → Contains gathered.new.windows.items x
        ↔ (Contains gathered.old.windows.items x ⊎ FollowsBy W before.now group j x)) }
    ensures places { OnOk result ((groups : List Group) → place < length groups → group_at groups place ≡ group
        → HavePlaces before.now groups gathered.old.windows.items gathered.old.places.items
        → HavePlaces before.now groups gathered.new.windows.items gathered.new.places.items) }
{
    if !group.has(j) {
        return Ok(());
    }
    let next = before[group.from as usize].after(offset_of::<W>(j));
    gathered.push(next, place)?;
    Ok(())
}

// Adds for each group of a block the window that follows by the offset of a bit.
fn add_by<const W: usize>(
    before: &[Window<W>],
    groups: &[Group],
    block: (usize, usize),
    j: u8,
    gathered: &mut Gathered<W>,
) -> Result<(), AllocError>
    requires width { IsWidth W }
    requires bit { j < W }
    requires groups { All (IsExtendable W before.now) groups.now }
    requires few { length groups.now ≤ most_in_a_stage }
    requires block { (block.0 ≤ block.1) × (block.1 ≤ length groups.now) }
    requires valid { AreWindows W before.now }
    requires order { AreInNextOrder before.now groups.now }
    requires ascending { IsAscending gathered.old.windows.items }
    requires before { StandBefore gathered.old.windows.items
        (λ x. (i : ℕ) × (block.0 ≤ i) × (i < block.1) × FollowsBy W before.now (group_at groups.now i) j x) }
    requires places { HavePlaces before.now groups.now gathered.old.windows.items gathered.old.places.items }
    ensures ascending { OnOk result (IsAscending gathered.new.windows.items) }
    ensures members { OnOk result (HasGrownBy (λ i x. FollowsBy W before.now (group_at groups.now i) j x)
        block.0 block.1 gathered.old.windows.items gathered.new.windows.items) }
    ensures places { OnOk result (HavePlaces before.now groups.now gathered.new.windows.items
        gathered.new.places.items) }
{
    for place in block.0..block.1 {
        add_next(before, groups[place], j, place, gathered)?;
    }
    Ok(())
}

// Adds the windows that follow the groups of a block, which stand in order offset by offset.
fn add_block<const W: usize>(
    before: &[Window<W>],
    groups: &[Group],
    block: (usize, usize),
    gathered: &mut Gathered<W>,
) -> Result<(), AllocError>
    requires width { IsWidth W }
    requires groups { All (IsExtendable W before.now) groups.now }
    requires few { length groups.now ≤ most_in_a_stage }
    requires block { (block.0 ≤ block.1) × (block.1 ≤ length groups.now) }
    requires level { (i : ℕ) → block.0 ≤ i → i < block.1
        → (group_at groups.now i).order ≡ (group_at groups.now block.0).order }
    requires valid { AreWindows W before.now }
    requires order { AreInNextOrder before.now groups.now }
    requires ascending { IsAscending gathered.old.windows.items }
    requires before { StandBefore gathered.old.windows.items
        (λ x. (i : ℕ) × (block.0 ≤ i) × (i < block.1) × Follows W before.now groups.now i x) }
    requires places { HavePlaces before.now groups.now gathered.old.windows.items gathered.old.places.items }
    ensures ascending { OnOk result (IsAscending gathered.new.windows.items) }
    ensures members { OnOk result (HasGrownBy (Follows W before.now groups.now) block.0 block.1
        gathered.old.windows.items gathered.new.windows.items) }
    ensures places { OnOk result (HavePlaces before.now groups.now gathered.new.windows.items
        gathered.new.places.items) }
{
    for j in 0..W as u8 {
        add_by(before, groups, block, j, gathered)?;
    }
    Ok(())
}

// The first place behind this one whose group leads to windows further on.
fn end_of_block(groups: &[Group], from: usize) -> usize
    requires within { from < length groups.now }
    requires few { length groups.now ≤ most_in_a_stage }
    ensures range { (from < result) × (result ≤ length groups.now) }
    ensures level { (i : ℕ) → from ≤ i → i < result
        → (group_at groups.now i).order ≡ (group_at groups.now from).order }
    ensures ends { result < length groups.now
        → (group_at groups.now result).order ≡ (group_at groups.now from).order → ⊥ }
{
    let order = groups[from].order;
    (from + 1..groups.len())
        .find(
            |to: &usize| -> bool
                requires { to.now < length groups.now }
                ensures { IsTrue (not result)
                    ↔ ((group_at groups.entry.now to.now).order ≡ order) }
            { groups[*to].order != order },
        )
        .unwrap_or(groups.len())
}

// Adds the windows that follow groups, which stand in the order of what they lead to.
pub(crate) fn gather<const W: usize>(
    before: &[Window<W>],
    groups: &[Group],
    gathered: &mut Gathered<W>,
) -> Result<(), AllocError>
    requires width { IsWidth W }
    requires groups { All (IsExtendable W before.now) groups.now }
    requires few { length groups.now ≤ most_in_a_stage }
    requires valid { AreWindows W before.now }
    requires order { AreInNextOrder before.now groups.now }
    requires none { gathered.old.windows.items ≡ [] }
    requires places { HavePlaces before.now groups.now gathered.old.windows.items gathered.old.places.items }
    ensures ascending { OnOk result (IsAscending gathered.new.windows.items) }
    ensures members { OnOk result (HasGrownBy (Follows W before.now groups.now) 0 (length groups.now)
        gathered.old.windows.items gathered.new.windows.items) }
    ensures places { OnOk result (HavePlaces before.now groups.now gathered.new.windows.items
        gathered.new.places.items) }
{
    let mut from = 0;
    while from < groups.len() {
        let to = end_of_block(groups, from);
        add_block(before, groups, (from, to), gathered)?;
        from = to;
    }
    Ok(())
}
