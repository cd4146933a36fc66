//! The states of all stages.

ghost use Rattle.std.specs.Prelude.{◌≡◌, ◌+◌, ◌*◌, ◌^◌, ◌≤◌, ◌<◌, IfOk, OnOk, Some, length};
ghost use Rattle.cert_check.specs.Whole.{AreWholeStates};
ghost use Rattle.replan.specs.Kept.{held_of, problem_held};
ghost use Rattle.replan.specs.WindowNodes.{AreNodesOf};
ghost use Rattle.cert_writer.specs.Written.{HavePairsInRange, IsGathered, IsWritten, StageLaws};

use crate::gather::gather;
use crate::laws::{most_shift, stage_laws};
use crate::pairs::NodePairs;
use crate::slot::turned;
use certificate::{CertState, Pattern};
use cps_problem::Problem;
use replan::{AnyKept, WindowNodes};
use std::alloc::{AllocError, Global};

// Writes the state of the node of this number, where it has a pair.
fn add_state(
    problem: &Problem,
    kept: &AnyKept,
    stage: u8,
    number: usize,
    slots: &Vec<NodePairs>,
    states: &mut Vec<CertState>,
) -> Result<(), AllocError>
    requires held { problem_held kept.now ≡ Some problem.now }
    requires laws { StageLaws problem.now }
    requires stage { (1 ≤ stage) × (stage ≤ length problem.now.flights) }
    requires number { number < 8 * 2 ^ (2 * problem.now.k) }
    requires gathered { IsGathered problem.now (held_of kept.now) stage slots.now.items }
    requires written { IsWritten problem.now (held_of kept.now) stage number states.old.items }
    ensures { OnOk result (IsWritten problem.now (held_of kept.now) stage (number + 1)
        states.new.items) }
{
    let k = most_shift(problem);
    // The stages that are held are those of the problem.
    let _held = kept.stages();
    let ones = turned(k, (number / 8) as u8);
    let offset = (number % 8) as u8;
    let pairs = slots[ones as usize * 8 + offset as usize].best(*states.allocator())?;
    if pairs.as_slice().is_empty() {
        return Ok(());
    }
    let pattern = Pattern::new(2 * k, ones);
    states.push(CertState::new(stage, pattern, stage + offset - k, pairs))?;
    Ok(())
}

// Writes the states of a stage.
fn add_states(
    alloc: Global,
    problem: &Problem,
    kept: &AnyKept,
    stage: u8,
    windows: &WindowNodes,
    states: &mut Vec<CertState>,
) -> Result<(), AllocError>
    requires held { problem_held kept.now ≡ Some problem.now }
    requires laws { StageLaws problem.now }
    requires stage { (1 ≤ stage) × (stage ≤ length problem.now.flights) }
    requires windows { AreNodesOf (held_of kept.now) stage windows.now }
    requires written { IsWritten problem.now (held_of kept.now) stage 0 states.old.items }
    ensures { OnOk result (IsWritten problem.now (held_of kept.now) (stage + 1) 0
        states.new.items) }
{
    let k = most_shift(problem);
    // The stages that are held are those of the problem.
    let _held = kept.stages();
    let slots = gather(alloc, problem, kept, stage, windows)?;
    for number in 0..8usize << (2 * k) {
        add_state(problem, kept, stage, number, &slots, states)?;
    }
    Ok(())
}

// The states of all stages.
pub(crate) fn states_of(
    alloc: Global,
    problem: &Problem,
    kept: &AnyKept,
) -> Result<Vec<CertState>, AllocError>
    requires { problem_held kept.now ≡ Some problem.now }
    ensures whole { IfOk result (λ states. AreWholeStates problem.now states.items) }
    ensures in_range { IfOk result (λ states. HavePairsInRange states.items) }
{
    // The problem is well formed, and k at most 3.
    let _near = most_shift(problem);
    stage_laws(problem);
    let mut windows = WindowNodes::new(alloc)?;
    let mut states = Vec::new(alloc);
    for stage in 1..kept.stages() + 1 {
        let put = kept.nodes(alloc, stage, &windows)?;
        add_states(alloc, problem, kept, stage, &put, &mut states)?;
        windows = put;
    }
    Ok(states)
}
