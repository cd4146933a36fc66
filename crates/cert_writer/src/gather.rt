//! The pairs of the windows of a stage, put together by node.

ghost use Rattle.std.specs.Prelude.{◌≡◌, ◌≤◌, ◌*◌, ◌^◌, [], IfOk, IsTrue, Some, length, replicate};
ghost use Rattle.cps_base.specs.Limits.{greatest_k};
ghost use Rattle.landing_rules.specs.declared.objective.Objective.TheVariants.{Makespan};
ghost use Rattle.replan.specs.Kept.{held_of, problem_held};
ghost use Rattle.replan.specs.Readers.{stage_in};
ghost use Rattle.replan.specs.WindowNodes.{AreNodesOf};
ghost use Rattle.cert_writer.specs.Gathered.{HaveSlots};
ghost use Rattle.cert_writer.specs.Written.{IsGathered, StageLaws};

use crate::laws::most_shift;
use crate::pairs::NodePairs;
use crate::slot::slot_of;
use cps_problem::{Objective, Problem};
use replan::{AnyKept, WindowNodes};
use std::alloc::{AllocError, Global};

// A slot without pairs for each node of a stage.
fn empty_slots(alloc: Global, k: u8) -> Result<Vec<NodePairs>, AllocError>
    requires { k ≤ greatest_k }
    ensures { IfOk result (λ slots. slots.items ≡ replicate (8 * 2 ^ (2 * k)) []) }
{
    let room = 8usize << (2 * k);
    let mut slots = Vec::with_capacity(alloc, room)?;
    for _slot in 0..room {
        slots.push(NodePairs::new(alloc))?;
    }
    Ok(slots)
}

// The slots of the nodes of a stage.
fn slots_of(
    alloc: Global,
    problem: &Problem,
    kept: &AnyKept,
    stage: u8,
    windows: &WindowNodes,
) -> Result<Vec<usize>, AllocError>
    requires held { problem_held kept.now ≡ Some problem.now }
    requires laws { StageLaws problem.now }
    requires stage { (1 ≤ stage) × (stage ≤ length problem.now.flights) }
    requires windows { AreNodesOf (held_of kept.now) stage windows.now }
    ensures { IfOk result (λ slots. HaveSlots problem.now.k stage
        (stage_in (held_of kept.now) stage).1 windows.now.firsts
        (length windows.now.firsts) slots.items) }
{
    let k = most_shift(problem);
    // The stages that are held are those of the problem.
    let _held = kept.stages();
    let firsts = windows.firsts();
    let mut slots = Vec::with_capacity(alloc, firsts.len())?;
    for j in 0..firsts.len() {
        let slot = slot_of(k, stage, kept.node(stage, firsts[j]));
        slots.push(slot)?;
    }
    Ok(slots)
}

// The pairs of all windows of a stage, each in the slot of its node.
fn gather_all(
    alloc: Global,
    problem: &Problem,
    kept: &AnyKept,
    stage: u8,
    windows: &WindowNodes,
) -> Result<Vec<NodePairs>, AllocError>
    requires held { problem_held kept.now ≡ Some problem.now }
    requires laws { StageLaws problem.now }
    requires stage { (1 ≤ stage) × (stage ≤ length problem.now.flights) }
    requires windows { AreNodesOf (held_of kept.now) stage windows.now }
    ensures { IfOk result (λ pairs. IsGathered problem.now (held_of kept.now) stage pairs.items) }
{
    let k = most_shift(problem);
    // The stages that are held are those of the problem.
    let _held = kept.stages();
    let slots = slots_of(alloc, problem, kept, stage, windows)?;
    let places = windows.places();
    let mut pairs = empty_slots(alloc, k)?;
    for i in 0..places.len() {
        let slot = slots[places[i]];
        pairs[slot].join(kept, stage, i)?;
    }
    Ok(pairs)
}

// The same for the makespan, whose pairs cost nothing, so that the earliest of a node is no worse than any other.
fn gather_earliest(
    alloc: Global,
    problem: &Problem,
    kept: &AnyKept,
    stage: u8,
    windows: &WindowNodes,
) -> Result<Vec<NodePairs>, AllocError>
    requires makespan { problem.now.objective ≡ Makespan }
    requires held { problem_held kept.now ≡ Some problem.now }
    requires laws { StageLaws problem.now }
    requires stage { (1 ≤ stage) × (stage ≤ length problem.now.flights) }
    requires windows { AreNodesOf (held_of kept.now) stage windows.now }
    ensures { IfOk result (λ pairs. IsGathered problem.now (held_of kept.now) stage pairs.items) }
{
    let k = most_shift(problem);
    // The stages that are held are those of the problem.
    let _held = kept.stages();
    let slots = slots_of(alloc, problem, kept, stage, windows)?;
    let least = kept.least_pairs(alloc, stage, windows)?;
    let mut pairs = empty_slots(alloc, k)?;
    for j in 0..least.len() {
        let slot = slots[j];
        let earliest = least[j];
        pairs[slot].keep(earliest)?;
    }
    Ok(pairs)
}

// Whether the objective is the makespan.
fn is_makespan(problem: &Problem) -> bool
    ensures { IsTrue result → problem.now.objective ≡ Makespan }
{
    match problem.head().objective {
        Objective::Makespan => true,
        Objective::Delay => false,
    }
}

// The pairs of the windows of a stage, which are put together, each in the slot of its node.
pub(crate) fn gather(
    alloc: Global,
    problem: &Problem,
    kept: &AnyKept,
    stage: u8,
    windows: &WindowNodes,
) -> Result<Vec<NodePairs>, AllocError>
    requires held { problem_held kept.now ≡ Some problem.now }
    requires laws { StageLaws problem.now }
    requires stage { (1 ≤ stage) × (stage ≤ length problem.now.flights) }
    requires windows { AreNodesOf (held_of kept.now) stage windows.now }
    ensures { IfOk result (λ pairs. IsGathered problem.now (held_of kept.now) stage pairs.items) }
{
    if is_makespan(problem) {
        let pairs = gather_earliest(alloc, problem, kept, stage, windows)?;
        return Ok(pairs);
    }
    let pairs = gather_all(alloc, problem, kept, stage, windows)?;
    Ok(pairs)
}
