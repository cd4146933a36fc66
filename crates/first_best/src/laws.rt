//! What the nodes of a problem rest on.

ghost use Rattle.std.specs.Prelude.{◌≡◌, ◌+◌, ◌*◌};
ghost use Rattle.cps_network.specs.Nodes.{IsWindowNetwork};
ghost use Rattle.cps_network.specs.WindowRanks.{TellTheirRanks};
ghost use Rattle.cps_problem.specs.WellFormed.{IsWellFormed};

use cps_network::{prefix_laws, windows_tell_their_ranks};
use cps_problem::Problem;

// The laws of the windows of W places. The call does nothing: it tells its caller the laws.
fn width_laws<const W: usize>(problem: &Problem)
    requires { W ≡ 2 * problem.now.k + 1 }
    ensures network { IsWindowNetwork problem.now }
    ensures tell { TellTheirRanks problem.now }
{
    prefix_laws::<W>(problem);
    windows_tell_their_ranks::<W>(problem);
}

// The laws of the windows of a problem, whatever its k. The call does nothing: it tells its caller the laws.
pub(crate) fn window_laws(problem: &Problem)
    ensures network { IsWindowNetwork problem.now }
    ensures tell { TellTheirRanks problem.now }
    ensures well_formed { IsWellFormed problem.now }
{
    match problem.head().k {
        0 => width_laws::<1>(problem),
        1 => width_laws::<3>(problem),
        2 => width_laws::<5>(problem),
        _ => width_laws::<7>(problem),
    }
}
