//! The windows that lead to a window.

ghost use Rattle.std.specs.Prelude.{ℕ, ◌<◌, ◌≤◌, ◌↔◌, length, IsTrue, not};
ghost use Rattle.cps_nodes.specs.Windows.{IsWidth};
ghost use Rattle.cps_network.specs.Lists.{IsAscending, node_at};
ghost use Rattle.cps_nodes.specs.Leads.{Extends, TailMeetsHead, IsBelow};

use crate::stage::Stage;
use cps_nodes::{Window, window_laws};

// The first place whose window's tail is not below the node's head.
fn first_source<const W: usize>(before: &[Window<W>], node: &Window<W>) -> usize
    requires width { IsWidth W }
    requires ascending { IsAscending before.now }
    ensures within { result ≤ length before.now }
    ensures below { (i : ℕ) → i < result → IsBelow (node_at before.now i) node.now }
    ensures above { (i : ℕ) → result ≤ i → i < length before.now
        → IsBelow (node_at before.now i) node.now → ⊥ }
{
    before.partition_point(
        |window: &Window<W>| -> bool
            ensures { IsTrue result ↔ IsBelow window.now node.entry.now }
        { window.is_below(node) },
    )
}

// The first place, from this one on, whose window does not lead to a node.
fn end_from<const W: usize>(before: &[Window<W>], node: &Window<W>, from: usize) -> usize
    requires { from ≤ length before.now }
    ensures range { (from ≤ result) × (result ≤ length before.now) }
    ensures leads { (i : ℕ) → from ≤ i → i < result
        → TailMeetsHead (node_at before.now i) node.now }
    ensures ends { result < length before.now
        → TailMeetsHead (node_at before.now result) node.now → ⊥ }
{
    (from..before.len())
        .find(
            |to: &usize| -> bool
                requires { to.now < length before.now }
                ensures { IsTrue (not result)
                    ↔ TailMeetsHead (node_at before.entry.now to.now) node.entry.now }
            { !before[*to].leads_to(node) },
        )
        .unwrap_or(before.len())
}

// The half-open range of the windows that lead to a window.
fn range_of<const W: usize>(before: &[Window<W>], node: &Window<W>) -> (usize, usize)
    requires width { IsWidth W }
    requires ascending { IsAscending before.now }
    ensures range { (result.0 ≤ result.1) × (result.1 ≤ length before.now) }
    ensures exact { (i : ℕ) → i < length before.now
        → TailMeetsHead (node_at before.now i) node.now ↔ ((result.0 ≤ i) × (i < result.1)) }
{
    let from = first_source(before, node);
    (from, end_from(before, node, from))
}

/// The half-open range of the windows of a stage that lead to a window: of which some offset extends to it.
pub fn sources<const W: usize>(before: &Stage<W>, node: &Window<W>) -> (usize, usize)
    requires width { IsWidth W }
    ensures range { (result.0 ≤ result.1) × (result.1 ≤ length before.now.1) }
    ensures exact { (i : ℕ) → i < length before.now.1
        → Extends (node_at before.now.1 i) node.now ↔ ((result.0 ≤ i) × (i < result.1)) }
{
    window_laws::<W>();
    // The node is a window, as those of the stage are.
    let _valid = node.last();
    range_of(before.windows(), node)
}
