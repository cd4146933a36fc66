//! The pairs of a stage, from those of the stage before.

ghost use Rattle.std.specs.Prelude.{◌≡◌, ℕ, ◌+◌, ◌*◌, ◌<◌, All, length, IfOk, OnOk};
ghost use Rattle.cps_base.specs.Tally.{raised_by};
ghost use Rattle.cps_theory.specs.Labels.{InPairs, Pair};
ghost use Rattle.cps_network.specs.Landable.{HasEachLandable};
ghost use Rattle.cps_network.specs.Lists.{node_at};
ghost use Rattle.cps_network.specs.Permits.{IsNextOf};
ghost use Rattle.cps_network.specs.Pairs.{list_at, AreCosts, HoldsCosts, GivesPair};
ghost use Rattle.delay_labels.specs.Bounds.{IsInDays};
ghost use Rattle.delay_labels.specs.StageLists.{IsListOf, IsStageBehind};

use crate::costs::Costs;
use crate::merge::{falling_of, put_in_order, successors_of};
use cps_base::{Ledger, Steps};
use cps_network::{Stage, last_rank, prefix_laws, sources};
use cps_nodes::window_laws;
use cps_outside::Gate;
use cps_problem::Problem;
use label_workers::fill_long_lists;
use stage_landings::StageLandings;
use std::alloc::{AllocError, Global};
use std::thread::Threads;

// How many lists one call makes at least: so many take longer than to start a thread, and stages up to this size start none.
const GRAIN: usize = 1024;

// The pairs of the window at place i of a stage, whose landings are at hand: of the successors of the pairs of those that lead to
// it, in order, each that is cheaper than all before it.
fn pairs_of<const W: usize>(
    alloc: Global,
    landings: &StageLandings<'_>,
    before: &Stage<W>,
    labels: &Costs,
    stage: &Stage<W>,
    i: usize,
) -> Result<Vec<(u32, u32)>, AllocError>
    requires behind { IsStageBehind landings.now W before.now labels.now stage.now }
    requires within { i < length stage.now.1 }
    ensures list { IfOk result (λ pairs. IsListOf landings.now.problem before.now labels.now
        stage.now i pairs.items) }
    ensures in_days { IfOk result (λ pairs. All IsInDays pairs.items) }
{
    // The seconds of all lists are in the days.
    let _in_days = labels.len();
    let node = stage.node(i);
    let range = sources(before, &node);
    let last = last_rank(&before.node(range.0), before.number());
    let rank = last_rank(&node, stage.number());
    let mut found = successors_of(alloc, landings, last, rank, labels, range)?;
    put_in_order(&mut found);
    let pairs = falling_of(alloc, found.as_slice())?;
    Ok(pairs)
}

/// The pairs of a stage: for each window the undominated pairs of the second at which a legal prefix that ends in it lands its
/// last flight and of what its flights cost together, ascending in second and falling in cost. All are found by the caller's
/// thread.
///
/// The stage before holds the landable windows with their pairs, and this stage the windows that extend one of them by a
/// permitted rank.
pub fn fill_costs_alone<const W: usize>(
    alloc: Global,
    problem: &Problem,
    before: &Stage<W>,
    labels: &Costs,
    stage: &Stage<W>,
) -> Result<Costs, AllocError>
    requires width { W ≡ 2 * problem.now.k + 1 }
    requires before { HoldsCosts problem.now before.now labels.now }
    requires number { stage.now.0 ≡ before.now.0 + 1 }
    requires next { IsNextOf problem.now before.now.0 before.now.1 stage.now.1 }
    ensures pairs { IfOk result (λ costs. AreCosts problem.now stage.now costs) }
    ensures sources { IfOk result (λ costs. (i : ℕ) → i < length stage.now.1 → (q : Pair)
        → InPairs q (list_at costs i)
        → (place : ℕ) × (index : ℕ)
        × GivesPair problem.now before.now labels.now (node_at stage.now.1 i) q place index) }
    ensures landable { HasEachLandable problem.now stage.now }
{
    // The problem is well formed, and so the width one of windows.
    let _near = problem.head();
    prefix_laws::<W>(problem);
    window_laws::<W>();
    let landings = StageLandings::of(problem, stage.number());
    let windows = stage.len();
    let mut costs = Costs::with_room(alloc, windows)?;
    for i in 0..windows {
        let pairs = pairs_of(alloc, &landings, before, labels, stage, i)?;
        costs.push(pairs)?;
    }
    Ok(costs)
}

/// The same as `fill_costs_alone`, and it ticks once a window. A stage of more than 1,024 windows is filled by calls that may run
/// at once, each of 1,024 lists or more, one after another. The window at place i passes the gate as number i, and then its list
/// is made. The ticks are the caller's thread's own. Where memory is refused to one list the others are given back.
pub fn fill_costs<const W: usize, R: Threads + Sync, G: Gate + Sync, L: Ledger>(
    rt: &R,
    alloc: Global,
    problem: &Problem,
    before: &Stage<W>,
    labels: &Costs,
    stage: &Stage<W>,
    gate: &G,
    steps: &mut Steps<L>,
) -> Result<Costs, AllocError>
    requires width { W ≡ 2 * problem.now.k + 1 }
    requires before { HoldsCosts problem.now before.now labels.now }
    requires number { stage.now.0 ≡ before.now.0 + 1 }
    requires next { IsNextOf problem.now before.now.0 before.now.1 stage.now.1 }
    ensures pairs { IfOk result (λ costs. AreCosts problem.now stage.now costs) }
    ensures sources { IfOk result (λ costs. (i : ℕ) → i < length stage.now.1 → (q : Pair)
        → InPairs q (list_at costs i)
        → (place : ℕ) × (index : ℕ)
        × GivesPair problem.now before.now labels.now (node_at stage.now.1 i) q place index) }
    ensures landable { HasEachLandable problem.now stage.now }
    ensures steps { OnOk result (L.count steps.new ≡ raised_by (length stage.now.1)
        (L.count steps.old)) }
{
    // The problem is well formed, and so the width one of windows.
    let _near = problem.head();
    prefix_laws::<W>(problem);
    window_laws::<W>();
    let table = StageLandings::of(problem, stage.number());
    let landings = &table;
    let pairs = move |i: usize| -> Result<Vec<(u32, u32)>, AllocError>
        requires { IsStageBehind landings.now W before.now labels.now stage.now
            × (i < length stage.now.1) }
        ensures { IfOk result (λ pairs. IsListOf landings.entry.now.problem before.entry.now
            labels.entry.now stage.entry.now i pairs.items
            × All IsInDays pairs.items) }
    { pairs_of(alloc, landings, before, labels, stage, i) };
    let lists = fill_long_lists(rt, alloc, stage.len(), GRAIN, gate, &pairs)?;
    let costs = Costs::of(lists);
    steps.tick(stage.len() as u64);
    Ok(costs)
}
