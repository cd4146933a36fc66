//! The claim and the landings of a certificate.

ghost use Rattle.std.specs.Prelude.{◌≡◌, ◌≤◌, All, IfOk, length, option_map};
ghost use Rattle.landing_rules.specs.Rules.{last_second};
ghost use Rattle.landing_rules.specs.Problem.{IsBestList};
ghost use Rattle.cps_problem.specs.Plans.{IsAnswerOf};
ghost use Rattle.certificate.specs.Reading.{AreLandings, IsClaim};
ghost use Rattle.cert_check.specs.Whole.{IsAnswered};
ghost use Rattle.cert_check.specs.WholeLaws.{landings_in};
ghost use Rattle.cert_writer.specs.Answer.{AreLandingsOf, ShowsAnswer};

use crate::days::seconds_are_in_days;
use crate::order::latest_first;
use cert_check::best_lists_are_shown;
use certificate::Claim;
use cps_base::Callsign;
use cps_problem::{Problem, Schedule};
use extract_plan::value_of;
use std::alloc::{AllocError, Global};

// The landings of ranks, in this order.
fn landings_in(
    alloc: Global,
    problem: &Problem,
    schedule: &Schedule,
    order: &[u8],
) -> Result<Vec<(Callsign, u32)>, AllocError>
    requires room { length schedule.now ≡ length problem.now.flights }
    requires seconds { All (λ t. t ≤ last_second) schedule.now }
    requires ranks { All (λ r. (1 ≤ r) × (r ≤ length problem.now.flights)) order.now }
    ensures listed { IfOk result (λ landings. landings.items ≡ landings_in problem.now
        schedule.now order.now) }
    ensures in_form { IfOk result (λ landings. AreLandings landings.items) }
{
    let mut landings = Vec::with_capacity(alloc, order.len())?;
    for rank in order {
        let callsign = problem.flight(*rank).callsign;
        // A callsign has the form that a certificate asks of it.
        let _known = callsign.bytes();
        landings.push((callsign, schedule.second(*rank)))?;
    }
    Ok(landings)
}

// The landings of a best schedule, the earliest first.
fn landings_of(
    alloc: Global,
    problem: &Problem,
    schedule: &Schedule,
) -> Result<Vec<(Callsign, u32)>, AllocError>
    requires best { IsBestList problem.now schedule.now }
    requires seconds { All (λ t. t ≤ last_second) schedule.now }
    ensures listed { IfOk result (λ landings. AreLandingsOf problem.now schedule.now
        landings.items) }
    ensures in_form { IfOk result (λ landings. AreLandings landings.items) }
{
    // At most `MOST_WAITING` flights wait, so that the list has few landings.
    let _well_formed = problem.len();
    let mut order = latest_first(alloc, schedule)?;
    order.reverse();
    let landings = landings_in(alloc, problem, schedule, order.as_slice())?;
    Ok(landings)
}

// What is claimed, and the landings that it rests on.
pub(crate) fn answer_of(
    alloc: Global,
    problem: &Problem,
    schedule: Option<&Schedule>,
) -> Result<(Claim, Vec<(Callsign, u32)>), AllocError>
    requires { IsAnswerOf problem.now (option_map (λ s. s.now) schedule) }
    ensures shows { IfOk result (λ answer. ShowsAnswer problem.now
        (option_map (λ s. s.now) schedule.entry) answer.0 answer.1.items) }
    ensures answered { IfOk result (λ answer. IsAnswered problem.now answer.0 answer.1.items) }
    ensures claim { IfOk result (λ answer. IsClaim answer.0) }
    ensures landings { IfOk result (λ answer. AreLandings answer.1.items) }
{
    match schedule {
        None => Ok((Claim::Infeasible, Vec::new(alloc))),
        Some(schedule) => {
            // The problem is well formed, as the laws ask.
            let _well_formed = problem.head();
            best_lists_are_shown();
            seconds_are_in_days(problem, schedule);
            let landings = landings_of(alloc, problem, schedule)?;
            let value = value_of(problem, schedule);
            Ok((Claim::Optimal(value), landings))
        }
    }
}
