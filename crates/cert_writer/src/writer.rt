//! The writer.

ghost use Rattle.std.specs.Prelude.{◌≡◌, IfOk, Some, option_map};
ghost use Rattle.cps_problem.specs.Plans.{IsAnswerOf};
ghost use Rattle.cert_check.specs.Verdict.{verdict_of};
ghost use Rattle.cert_check.specs.Whole.{IsWhole};
ghost use Rattle.cert_check.specs.WholeLaws.{claimed};
ghost use Rattle.replan.specs.Kept.{problem_held};
ghost use Rattle.cert_writer.specs.Answer.{ShowsAnswer};

use crate::answer::answer_of;
use crate::states::states_of;
use cert_check::{whole_certificates_are_accepted, whole_states_are_fixed};
use certificate::Certificate;
use cps_problem::{Problem, Schedule};
use replan::AnyKept;
use std::alloc::{AllocError, Global};

/// The certificate of a problem, from the planner that holds it and from its answer: a best and tight schedule, or `None` where
/// no schedule is feasible.
///
/// It claims the answer's objective, in seconds or in weighted seconds of delay, or that nothing is feasible, and lists the
/// schedule's landings, the earliest first. Its states are exactly the stages, placed sets and last ranks of legal prefixes
/// that land, each with exactly the undominated pairs of a second and a cost; for the makespan each cost is 0. The judge of
/// certificates accepts it.
pub fn certify(
    alloc: Global,
    problem: &Problem,
    kept: &AnyKept,
    schedule: Option<&Schedule>,
) -> Result<Certificate, AllocError>
    requires held { problem_held kept.now ≡ Some problem.now }
    requires answer { IsAnswerOf problem.now (option_map (λ s. s.now) schedule) }
    ensures whole { IfOk result (IsWhole problem.now) }
    ensures accepted { IfOk result (λ c. verdict_of problem.now c ≡ claimed c.claim) }

    // The claim and the landings are those of the answer.
    ensures shows { IfOk result (λ c. ShowsAnswer problem.now
        (option_map (λ s. s.now) schedule.entry) c.claim c.landings) }
{
    // The problem is well formed, as the laws ask.
    let _well_formed = problem.head();
    whole_certificates_are_accepted();
    whole_states_are_fixed();
    let states = states_of(alloc, problem, kept)?;
    let (claim, landings) = answer_of(alloc, problem, schedule)?;
    Ok(Certificate::new(claim, landings, states))
}
