//! The rank that landed last.

ghost use Rattle.std.specs.Prelude.{◌≡◌, pos, ◌-◌, ◌+ℤ◌, ◌≤ℤ◌};
ghost use Rattle.cps_base.specs.Limits.{most_waiting};
ghost use Rattle.cps_nodes.specs.Windows.{offset_at};

use cps_nodes::Window;

/// The rank that landed last in a window of a stage: its last offset is that rank minus the stage's number. Rank 0 stands for
/// no landing.
pub fn last_rank<const W: usize>(window: &Window<W>, stage: u8) -> u8
    requires low { pos 0 ≤ℤ (pos stage +ℤ offset_at window.now (W - 1)) }
    requires high { (pos stage +ℤ offset_at window.now (W - 1)) ≤ℤ pos most_waiting }
    ensures { pos result ≡ pos stage +ℤ offset_at window.now (W - 1) }
{
    (stage as i32 + window.last() as i32) as u8
}
