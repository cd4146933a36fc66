//! What the windows of a stage, with their pairs, keep of the nodes of a certificate.

ghost use Rattle.std.specs.Prelude.{◌≡◌, ◌+◌, ◌*◌};
ghost use Rattle.cert_writer.specs.StageEntries.{EntriesKeepNodes, PlacedTellNodes, EndWithFlights, StagesMakeStates};

use cert_check::patterns_are_bits;
use cps_network::{node_laws, prefix_laws, windows_tell_their_ranks};
use cps_problem::Problem;

/// The pairs of the landable windows of a stage, put together by the set of their placed ranks and their last rank, keep the
/// pairs of each node of the stage; and no node is behind the last flight. The call does nothing: it tells its caller the
/// laws.
fn stages_keep_their_patterns<const W: usize>(problem: &Problem)
    requires { W ≡ 2 * problem.now.k + 1 }
    ensures entries { EntriesKeepNodes problem.now }
    ensures placed { PlacedTellNodes problem.now }
    ensures end { EndWithFlights problem.now }
{
    // The problem is well formed, as the laws ask.
    let _well_formed = problem.head();
    patterns_are_bits();
    prefix_laws::<W>(problem);
    windows_tell_their_ranks::<W>(problem);
    node_laws::<W>(problem);
}

/// States that hold all pairs of the windows of all stages, put together by placed set and last rank, and of these nothing that
/// another is no worse than, leave nothing out. The call does nothing: it tells its caller the laws.
pub(crate) fn stages_make_whole_states<const W: usize>(problem: &Problem)
    requires { W ≡ 2 * problem.now.k + 1 }
    ensures whole { StagesMakeStates problem.now }
    ensures entries { EntriesKeepNodes problem.now }
    ensures placed { PlacedTellNodes problem.now }
{
    stages_keep_their_patterns::<W>(problem);
}
