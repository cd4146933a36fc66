//! That windows follow the legal prefixes of a problem and tell their ranks, and that problems which agree have stages in
//! common, as laws.

ghost use Rattle.std.specs.Prelude.{◌≡◌, ◌+◌, ◌*◌, ◌^◌};
ghost use Rattle.cps_network.specs.Nodes.{IsWindowNetwork, StepsAreWhole, WindowsTellNodes};
ghost use Rattle.cps_network.specs.WindowRanks.{TellTheirRanks};
ghost use Rattle.cps_network.specs.Permits.{LeadAlike};
ghost use Rattle.cps_network.specs.Due.{DueIsBounded};
ghost use Rattle.cps_network.specs.KeptStages.{EarlyStagesAreKept, UncountedStagesAreKept};
ghost use Rattle.cps_network.specs.PrefixLandings.{NeighboursSuffice, AttainsByPrefixes};

use cps_nodes::window_laws;
use cps_problem::Problem;

/// The laws of the windows of a problem: they are the nodes of the network of its legal prefixes, to be legal step by step
/// is to be legal as a whole, and windows that lead to one window do so by one permitted rank. The call does nothing: it
/// tells its caller the laws.
pub fn prefix_laws<const W: usize>(problem: &Problem)
    requires { W ≡ 2 * problem.now.k + 1 }
    ensures network { IsWindowNetwork problem.now }
    ensures whole { StepsAreWhole problem.now }
    ensures sources { LeadAlike problem.now W }
{
    // k is at most 3, each flight was passed at most k times, and each pair is of ranks up to `MOST_WAITING`.
    let _near = problem.head();
    let _in_range = problem.pairs().all_before(1, 0);
    window_laws::<W>();
}

/// The law of kept stages: problems that agree up to a rank have in common each stage from which even the greatest shift does
/// not reach that rank. Its landable windows are the same, and in each the same prefixes land, with equal last seconds and
/// costs. The call does nothing: it tells its caller the law.
pub fn kept_stages(held: &Problem, next: &Problem)
    ensures early { EarlyStagesAreKept held.now next.now }
    ensures uncounted { UncountedStagesAreKept held.now next.now }
{
    // Both problems are well formed.
    let _held_ranks = held.head();
    let _next_ranks = next.head();
}

/// What is due for a problem is at most the number of its flights times W to the power of W, whatever is held. The call does
/// nothing: it tells its caller the law.
pub fn due_is_bounded<const W: usize>(problem: &Problem)
    requires { W ≡ 2 * problem.now.k + 1 }
    ensures { DueIsBounded problem.now (W ^ W) }
{
    // k is at most 3, and at most `MOST_WAITING` flights wait.
    let _near = problem.head();
    prefix_laws::<W>(problem);
    window_laws::<W>();
}

/// The windows of a problem tell the ranks of their prefixes. The call does nothing: it tells its caller the law.
pub fn windows_tell_their_ranks<const W: usize>(problem: &Problem)
    requires { W ≡ 2 * problem.now.k + 1 }
    ensures { TellTheirRanks problem.now }
{
    // k is at most 3.
    let _near = problem.head();
    window_laws::<W>();
}

/// The stage and window of a legal prefix tell which ranks it has placed, and which one last. The call does nothing: it
/// tells its caller the law.
pub fn node_laws<const W: usize>(problem: &Problem)
    requires { W ≡ 2 * problem.now.k + 1 }
    ensures { WindowsTellNodes problem.now }
{
    prefix_laws::<W>(problem);
    windows_tell_their_ranks::<W>(problem);
}

/// A legal prefix lands with seconds of which each is late enough behind the landing before it exactly where each is open, at
/// or after the horizon, and keeps the separation after the last frozen landing and after every earlier landing of the
/// prefix. So the pairs that a window attains are those of such prefixes. The call does nothing: it tells its caller the law.
pub fn prefixes_keep_the_separation(problem: &Problem)
    ensures neighbours { NeighboursSuffice problem.now }
    ensures attained { AttainsByPrefixes problem.now }
{
    // The problem is well formed.
    let _sound = problem.head();
}
