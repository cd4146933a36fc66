//! What the writer rests on.

ghost use Rattle.std.specs.Prelude.{◌≡◌, ◌≤◌};
ghost use Rattle.cps_base.specs.Limits.{greatest_k};
ghost use Rattle.cps_problem.specs.WellFormed.{IsWellFormed};
ghost use Rattle.cert_writer.specs.Written.{StageLaws};

use crate::whole_states::stages_make_whole_states;
use cps_problem::Problem;

// The laws of the stages of a problem, whatever its k. The call does nothing: it tells its caller the laws.
pub(crate) fn stage_laws(problem: &Problem)
    ensures { StageLaws problem.now }
{
    match problem.head().k {
        0 => stages_make_whole_states::<1>(problem),
        1 => stages_make_whole_states::<3>(problem),
        2 => stages_make_whole_states::<5>(problem),
        _ => stages_make_whole_states::<7>(problem),
    }
}

// The most places by which a flight may leave its first-come place.
pub(crate) fn most_shift(problem: &Problem) -> u8
    ensures k { result ≡ problem.now.k }
    ensures near { result ≤ greatest_k }
    ensures well_formed { IsWellFormed problem.now }
{
    problem.head().k
}
