//! The nodes of a stage, as early and as cheap as their windows.

ghost use Rattle.std.specs.Prelude.{◌≡◌, ◌≤◌, IfOk, Some, length};
ghost use Rattle.replan.specs.Kept.{held_of, problem_held};
ghost use Rattle.replan.specs.WindowNodes as together;
ghost use Rattle.first_best.specs.Gathered.{IsGathered};

use crate::node::EarlyNode;
use cps_problem::Problem;
use replan::{AnyKept, WindowNodes};
use std::alloc::{AllocError, Global};

// The nodes of the windows of a stage, which are put together.
pub(crate) fn gather(
    alloc: Global,
    problem: &Problem,
    kept: &AnyKept,
    stage: u8,
    windows: &WindowNodes,
) -> Result<Vec<EarlyNode>, AllocError>
    requires held { problem_held kept.now ≡ Some problem.now }
    requires stage { (1 ≤ stage) × (stage ≤ length problem.now.flights) }
    requires windows { together.AreNodesOf (held_of kept.now) stage windows.now }
    ensures { IfOk result (λ nodes.
        IsGathered (held_of kept.now) stage nodes.items windows.now.places) }
{
    // The problem is well formed, so that it has stages to hold.
    let _few = problem.len();
    // The stages that are held are those of the problem.
    let _held = kept.stages();
    let least = kept.least_pairs(alloc, stage, windows)?;
    let firsts = windows.firsts();
    let mut nodes = Vec::with_capacity(alloc, firsts.len())?;
    for j in 0..firsts.len() {
        let node = kept.node(stage, firsts[j]);
        let found = least[j];
        nodes.push(EarlyNode {
            placed: node.placed,
            last: node.last,
            earliest: found.0,
            cheapest: found.1,
        })?;
    }
    Ok(nodes)
}
