ghost use Rattle.std.specs.Prelude.{◌≡◌};
ghost use Rattle.openings.specs.Plan.{answer_by};

use endings::Answer;

/// What is answered where a plan is shown last, or none.
pub fn answer(planned: bool) -> Answer
    ensures { result ≡ answer_by planned }
{
    if planned {
        Answer::Scheduled
    } else {
        Answer::Infeasible
    }
}
