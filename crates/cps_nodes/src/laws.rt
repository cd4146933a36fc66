//! What windows say of lists of ranks and of one another, as laws.

ghost use Rattle.cps_nodes.specs.Laws.{FollowRanks, LeadOn};
ghost use Rattle.cps_nodes.specs.Windows.{IsWidth};

/// The laws of windows of this width: they follow every list of ranks that keeps the shift rule, step by step, and they
/// lead on to one another. The call does nothing: it tells its caller the laws.
pub fn window_laws<const W: usize>()
    requires { IsWidth W }
    ensures ranks { FollowRanks W }
    ensures leads { LeadOn W }
{}
