// The shape of the states, and the states of the last stage.
ghost use Rattle.std.specs.Prelude.{◌≡◌, ◌≤◌, ◌<◌, ◌+◌, ◌*◌, length, count_by, nat_lt};
ghost use Rattle.std.specs.List.{list_any};
ghost use Rattle.cps_base.specs.Limits.{greatest_k, greatest_word, most_waiting};
ghost use Rattle.cps_theory.specs.FirstFound.{first_from, element_from};
ghost use Rattle.landing_joint.specs.RankedProblem.{value_at};
ghost use Rattle.cert_check.specs.Landings.{count};
ghost use Rattle.cert_check.specs.States.{digit, is_one, is_wrong_digit, is_shaped, is_misshapen, node_of, shape_failure, is_final, is_final_below, final_failure};
ghost use Rattle.cert_check.specs.Seen.{seen};

use crate::node::{StateNode, digit, is_placed, node_of};
use crate::objective::objective_of;
use certificate::{CertState, Claim, Pattern};
use cps_problem::Problem;

// Digit j tells of a rank below 1 that it is not placed, or of a rank above n that it is.
fn is_wrong_digit(k: u8, n: u8, node: &StateNode, j: u8) -> bool
    requires k { k ≤ greatest_k }
    requires n { n ≤ most_waiting }
    requires stage { node.now.stage ≤ most_waiting }
    requires j { (1 ≤ j) × (j ≤ 6) }
    ensures { result ≡ is_wrong_digit k n (seen node.now) j }
{
    let is_one = digit(&node.pattern, j);
    let at = node.stage + j;
    (at <= k && !is_one) || (n + k < at && is_one)
}

fn wrong_digit(k: u8, n: u8, node: &StateNode) -> Option<u8>
    requires k { k ≤ greatest_k }
    requires n { n ≤ most_waiting }
    requires stage { node.now.stage ≤ most_waiting }
    ensures { result ≡ first_from (is_wrong_digit k n (seen node.now)) 1 (2 * k) }
{
    (1..2 * k + 1).find(|j| is_wrong_digit(k, n, node, *j))
}

// How many digits are 1.
fn ones(pattern: &Pattern) -> u8
    ensures { result ≡ count_by is_one pattern.now }
{
    pattern.digits().iter().filter(|is_one| **is_one).count() as u8
}

#[tactic(auto, unfolding(crate::specs::States::is_shaped))]
fn is_shaped(problem: &Problem, node: &StateNode) -> bool
    requires stage { node.now.stage ≤ most_waiting }
    requires last { node.now.last ≤ most_waiting }
    ensures { result ≡ is_shaped problem.now.k (count problem.now) (seen node.now) }
{
    let n = problem.len();
    let k = problem.head().k;
    node.stage <= n
        && node.pattern.length() == 2 * k
        && ones(&node.pattern) == k
        && wrong_digit(k, n, node).is_none()
        && node.last <= n
        && (node.stage <= node.last + k && node.last <= node.stage + k)
        && is_placed(k, node, node.last)
}

fn is_misshapen(problem: &Problem, state: &CertState) -> bool
    ensures { result ≡ is_misshapen problem.now state.now }
{
    !is_shaped(problem, &node_of(state))
}

// The first state without the right shape.
pub(crate) fn shape_failure(problem: &Problem, states: &[CertState]) -> Option<u32>
    requires { length states.now < greatest_word }
    ensures { result ≡ shape_failure problem.now states.now }
{
    states
        .iter()
        .position(|state| is_misshapen(problem, state))
        .map(|at| at as u32 + 1)
}

fn has_pair_below(problem: &Problem, value: u64, pairs: &[(u32, u32)]) -> bool
    ensures { result ≡ list_any (λ q. nat_lt (value_at problem.now q) value) pairs.now }
{
    pairs.iter().any(|(second, cost)| objective_of(problem, *second, u64::from(*cost)) < value)
}

fn is_final_below(problem: &Problem, value: u64, state: &CertState) -> bool
    ensures { result ≡ is_final_below problem.now value state.now }
{
    state.stage() == problem.len() && has_pair_below(problem, value, state.pairs())
}

fn first_final_below(problem: &Problem, value: u64, states: &[CertState]) -> Option<u32>
    requires { length states.now < greatest_word }
    ensures { result ≡ element_from (is_final_below problem.now value) 1 states.now }
{
    states
        .iter()
        .position(|state| is_final_below(problem, value, state))
        .map(|at| at as u32 + 1)
}

fn first_final(problem: &Problem, states: &[CertState]) -> Option<u32>
    requires { length states.now < greatest_word }
    ensures { result ≡ element_from (is_final problem.now) 1 states.now }
{
    let n = problem.len();
    states
        .iter()
        .position(|state| state.stage() == n)
        .map(|at| at as u32 + 1)
}

// The first state that contradicts the claim; with no flight the start is one of the last stage.
pub(crate) fn final_failure(problem: &Problem, claim: Claim, states: &[CertState]) -> Option<u32>
    requires { length states.now < greatest_word }
    ensures { result ≡ final_failure problem.now claim states.now }
{
    match claim {
        Claim::Optimal(value) => first_final_below(problem, value, states),
        Claim::Infeasible if problem.is_empty() => Some(0),
        Claim::Infeasible => first_final(problem, states),
    }
}
