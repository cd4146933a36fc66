//! Nodes: what a prefix of a landing order leaves to those that may follow it.

ghost use Rattle.std.specs.Prelude.{◌≤◌, ◌↔◌, IsTrue};
ghost use Rattle.cps_base.specs.Limits.{most_waiting};
ghost use Rattle.first_best.specs.Nodes.{LeadsTo};

/// The ranks that a prefix has placed, the last of them, how early it can be landed, and how cheaply.
#[derive(Clone, Copy)]
pub(crate) struct EarlyNode {
    /// Bit r is set exactly where rank r is placed.
    pub(crate) placed: u64,
    pub(crate) last: u8,
    /// The least second at which a legal prefix of this node lands its last flight.
    pub(crate) earliest: u32,
    /// No landed legal prefix of this node costs less.
    pub(crate) cheapest: u32,
}

// Whether a node places one rank more than another, its last one.
pub(crate) fn leads_to(before: EarlyNode, after: EarlyNode) -> bool
    requires { after.last ≤ most_waiting }
    ensures { IsTrue result ↔ LeadsTo before after }
{
    if (before.placed >> after.last) & 1 == 1 {
        return false;
    }
    after.placed == before.placed | (1u64 << after.last)
}
