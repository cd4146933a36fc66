//! Which ranks a window places, and which one last.

ghost use Rattle.std.specs.Prelude.{◌≡◌, ◌≤◌};
ghost use Rattle.cps_base.specs.Limits.{most_waiting};
ghost use Rattle.cps_nodes.specs.Windows.{IsWindow};
ghost use Rattle.cps_network.specs.Nodes.{latest};
ghost use Rattle.cps_network.specs.WindowRanks.{TellsPlaced};

use crate::permit::{due_set, placed_set};
use cps_nodes::Window;

/// The ranks that a window of a stage places, and the last of them.
#[derive(Clone, Copy)]
pub struct Node {
    /// Bit r is set exactly where rank r, from 1 on, is placed.
    pub placed: u64,
    /// The rank that landed last, and 0 before the first landing.
    pub last: u8,
}

/// The ranks that a window of a stage up to `MOST_WAITING` places, and the last of them.
pub fn placed_node<const W: usize>(window: &Window<W>, stage: u8) -> Node
    requires { stage ≤ most_waiting }
    ensures placed { TellsPlaced window.now stage result.placed }
    ensures last { result.last ≡ latest (stage, window.now) }
{
    let last = last_placed(window, stage);
    let due = due_set(stage, (W / 2) as u8);
    let placed = placed_set(window, stage, due);
    Node {
        placed: placed / 2 * 2,
        last,
    }
}

// The rank that landed last.
fn last_placed<const W: usize>(window: &Window<W>, stage: u8) -> u8
    requires { stage ≤ most_waiting }
    ensures valid { IsWindow W window.now }
    ensures last { result ≡ latest (stage, window.now) }
{
    (stage as i32 + window.last() as i32).unsigned_abs() as u8
}
