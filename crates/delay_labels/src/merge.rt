//! The successors of listed pairs, and of pairs in order those that no other is better than.

ghost use Rattle.std.specs.Prelude.{◌≡◌, ℕ, ◌<◌, ◌≤◌, ◌⊎◌, ◌++◌, All, length, IsTrue, IfOk, OnOk};
ghost use Rattle.std.specs.List.Sorted.{IsPermutation};
ghost use Rattle.cps_theory.specs.UndominatedPairs.{InPairOrder, sweep};
ghost use Rattle.cps_network.specs.Pairs.{list_at};
ghost use Rattle.stage_landings.specs.Reach.{IsInReach, MayLead};
ghost use Rattle.delay_labels.specs.Bounds.{IsInDays, IsLeading, beyond_costs};
ghost use Rattle.delay_labels.specs.Lists.{successors, successors_in};

use crate::costs::Costs;
use crate::successor::successor_of;
use stage_landings::StageLandings;
use std::alloc::{AllocError, Global};

// Of pairs in order, those that are cheaper than all before them.
pub(crate) fn falling_of(
    alloc: Global,
    sorted: &[(u32, u32)],
) -> Result<Vec<(u32, u32)>, AllocError>
    ensures kept { IfOk result (λ kept. kept.items ≡ sweep beyond_costs sorted.now) }
    ensures in_days { IfOk result (λ kept. All IsInDays sorted.now → All IsInDays kept.items) }
{
    let mut kept = Vec::new(alloc);
    let mut least = u32::MAX;
    for pair in sorted {
        if pair.1 < least {
            least = pair.1;
            kept.push(*pair)?;
        }
    }
    Ok(kept)
}

// Whether a pair may stand before another: it is earlier, or as early and no dearer.
#[inline]
fn may_precede(pair: (u32, u32), next: (u32, u32)) -> bool
    ensures { IsTrue result → (pair.0 < next.0) ⊎ ((pair.0 ≡ next.0) × (pair.1 ≤ next.1)) }
{
    pair.0 < next.0 || (pair.0 == next.0 && pair.1 <= next.1)
}

// Whether pairs are in order: by second, and by cost where these are equal.
fn are_in_order(pairs: &[(u32, u32)]) -> bool
    ensures { IsTrue result → InPairOrder pairs.now }
{
    let mut last = (0, 0);
    for pair in pairs {
        if !may_precede(last, *pair) {
            return false;
        }
        last = *pair;
    }
    true
}

// Puts pairs in order. Mostly they are, and then none is moved.
pub(crate) fn put_in_order(pairs: &mut Vec<(u32, u32)>)
    ensures same { IsPermutation pairs.old.items pairs.new.items }
    ensures order { InPairOrder pairs.new.items }
{
    if are_in_order(pairs) {
        return;
    }
    pairs.sort_unstable();
}

// Adds the successors of the pairs of a list, by a rank behind another.
fn add_successors(
    landings: &StageLandings<'_>,
    last: u8,
    rank: u8,
    pairs: &[(u32, u32)],
    into: &mut Vec<(u32, u32)>,
) -> Result<(), AllocError>
    requires last { MayLead landings.now.problem landings.now.number last }
    requires rank { IsInReach landings.now.problem landings.now.number rank }
    requires pairs { All (IsLeading landings.now.problem last) pairs.now }
    ensures successors { OnOk result (into.new.items ≡ into.old.items ++ successors
        landings.now.problem last rank pairs.now) }
    ensures in_days { All IsInDays into.old.items → All IsInDays into.new.items }
{
    for pair in pairs {
        match successor_of(landings, last, *pair, rank) {
            Some(next) => into.push(next)?,
            None => {}
        }
    }
    Ok(())
}

// The successors of the pairs of a range of lists, by a rank behind another.
pub(crate) fn successors_of(
    alloc: Global,
    landings: &StageLandings<'_>,
    last: u8,
    rank: u8,
    labels: &Costs,
    range: (usize, usize),
) -> Result<Vec<(u32, u32)>, AllocError>
    requires last { MayLead landings.now.problem landings.now.number last }
    requires rank { IsInReach landings.now.problem landings.now.number rank }
    requires range { (range.0 ≤ range.1) × (range.1 ≤ length labels.now) }
    requires pairs { (i : ℕ) → range.0 ≤ i → i < range.1
        → All (IsLeading landings.now.problem last) (list_at labels.now i) }
    ensures successors { IfOk result (λ found. found.items ≡ successors_in
        landings.now.problem last rank labels.now range.0 range.1) }
    ensures in_days { IfOk result (λ found. All IsInDays found.items) }
{
    let mut found = Vec::new(alloc);
    for i in range.0..range.1 {
        add_successors(landings, last, rank, labels.list(i), &mut found)?;
    }
    Ok(found)
}
