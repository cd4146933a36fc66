ghost use Rattle.std.specs.Prelude.{◌≡◌, ◌<◌, length, ℕ};
ghost use Rattle.cps_base.specs.Limits.{greatest_word};
ghost use Rattle.certificate.specs.States.{AreAscending};
ghost use Rattle.certificate.specs.Reading.{AreLandings};
ghost use Rattle.cert_check.specs.Meaning.{IsShownOptimal, NothingIsFeasible};
ghost use Rattle.cert_check.specs.Verdict.{landing_reason, state_reason, failure, verdict_of};

use crate::closure::successor_failure;
use crate::landed::{
    are_not_flights, first_close_pair, first_early, first_shifted, first_shut, first_unordered_pair,
};
use crate::seconds::value;
use crate::shape::{final_failure, shape_failure};
use crate::verdict::{Reason, Verdict};
use certificate::{CertState, Certificate, Claim};
use cps_base::Callsign;
use cps_problem::Problem;

// The first rule that the landings break.
#[tactic(auto, unfolding(crate::specs::Verdict::landing_reason))]
fn landing_reason(problem: &Problem, claimed: u64, landings: &[(Callsign, u32)]) -> Option<Reason>
    requires { AreLandings landings.now }
    ensures { result ≡ landing_reason problem.now claimed landings.now }
{
    if let Some(rank) = first_shut(problem, landings) {
        return Some(Reason::Closed(rank));
    }
    if let Some(rank) = first_early(problem, landings) {
        return Some(Reason::Early(rank));
    }
    if let Some((rank, other)) = first_close_pair(problem, landings) {
        return Some(Reason::Separation(rank, other));
    }
    if let Some((rank, other)) = first_unordered_pair(problem, landings) {
        return Some(Reason::Precedence(rank, other));
    }
    if let Some(rank) = first_shifted(problem, landings) {
        return Some(Reason::Shift(rank));
    }
    let value = value(problem, landings);
    if value == claimed {
        None
    } else {
        Some(Reason::Value(value))
    }
}

// The first state that is misshapen, misses a successor, or contradicts the claim.
#[tactic(auto, unfolding(crate::specs::Verdict::state_reason))]
fn state_reason(problem: &Problem, claim: Claim, states: &[CertState]) -> Option<Reason>
    requires few { length states.now < greatest_word }
    requires ascending { AreAscending states.now }
    ensures { result ≡ state_reason problem.now claim states.now }
{
    if let Some(number) = shape_failure(problem, states) {
        return Some(Reason::Shape(number));
    }
    if let Some((number, rank)) = successor_failure(problem, states) {
        return Some(Reason::Successor(number, rank));
    }
    match final_failure(problem, claim, states) {
        None => None,
        Some(number) => Some(Reason::Final(number)),
    }
}

// The first condition that fails.
#[tactic(auto, unfolding(crate::specs::Verdict::failure))]
fn failure(problem: &Problem, certificate: &Certificate) -> Option<Reason>
    ensures { result ≡ failure problem.now certificate.now }
{
    let claim = certificate.claim();
    let landings = certificate.landings();
    if are_not_flights(problem, claim, landings) {
        return Some(Reason::Flights);
    }
    if let Claim::Optimal(value) = claim {
        if let Some(reason) = landing_reason(problem, value, landings) {
            return Some(reason);
        }
    }
    state_reason(problem, claim, certificate.states())
}

#[tactic(auto, unfolding(crate::specs::Verdict::verdict_of))]
fn decide(problem: &Problem, certificate: &Certificate) -> Verdict
    ensures { result ≡ verdict_of problem.now certificate.now }
{
    if let Some(reason) = failure(problem, certificate) {
        return Verdict::Rejected(reason);
    }
    match certificate.claim() {
        Claim::Optimal(value) => Verdict::Optimal(value),
        Claim::Infeasible => Verdict::Infeasible,
    }
}

/// What a certificate shows of a problem, or the first of its conditions that fails. It takes no memory.
///
/// Whoever wrote the certificate: an optimum is answered only where its landings are feasible with this objective and no
/// feasible schedule has a smaller one, and infeasible only where no schedule is feasible.
pub fn judge(problem: &Problem, certificate: &Certificate) -> Verdict
    ensures exact { result ≡ verdict_of problem.now certificate.now }
    ensures optimal { (v : ℕ) → result ≡ Verdict.Optimal v
        → IsShownOptimal problem.now certificate.now.landings v }
    ensures infeasible { result ≡ Verdict.Infeasible → NothingIsFeasible problem.now }
{
    // Its head tells the proof what the problem keeps.
    let _head = problem.head();
    decide(problem, certificate)
}
