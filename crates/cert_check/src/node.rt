// A stage of a landing order with its pattern and its last rank, and the node behind it by one more rank.
ghost use Rattle.std.specs.Prelude.{◌≡◌, ◌≤◌, ◌<◌, ◌*◌, ◌+◌, ◌-◌, suc, [], length};
ghost use Rattle.cps_base.specs.Limits.{greatest_k, most_waiting};
ghost use Rattle.cps_theory.specs.Patterns.{pattern_digit, pattern_node, pattern_push, tests_from};
ghost use Rattle.cps_theory.specs.CertificateClosure.{is_placed_by_pattern, node_cmp};
ghost use Rattle.certificate.specs.Patterns.{bits};
ghost use Rattle.cert_check.specs.States.{digit, node_of, rules_of};
ghost use Rattle.cert_check.specs.Seen.{seen, pushed_digit};

use certificate::{CertState, Pattern};
use cps_problem::Problem;
use std::cmp::Ordering;

// The node of a state of a certificate: how many ranks are placed, which of them round the stage, and the last one.
#[derive(Clone, Copy)]
pub(crate) struct StateNode {
    pub stage: u8,
    pub pattern: Pattern,
    pub last: u8,
}

// Digit j of a pattern, from 1 on; behind its end none is set.
pub(crate) fn digit(pattern: &Pattern, j: u8) -> bool
    requires { 1 ≤ j }
    ensures { result ≡ digit pattern.now j }
{
    j <= pattern.length() && pattern.digit(j)
}

#[tactic(auto, unfolding(cps_theory::specs::CertificateClosure::is_placed_by_pattern))]
pub(crate) fn is_placed(k: u8, node: &StateNode, rank: u8) -> bool
    requires k { k ≤ greatest_k }
    requires rank { rank ≤ 200 }
    requires stage { node.now.stage ≤ most_waiting }
    ensures { result ≡ is_placed_by_pattern k (seen node.now) rank }
{
    let at = rank + k;
    at <= node.stage || digit(&node.pattern, at - node.stage)
}

// The node of a state.
pub(crate) fn node_of(state: &CertState) -> StateNode
    ensures value { seen result ≡ node_of state.now }
    ensures range { (result.stage ≤ most_waiting) × (result.last ≤ most_waiting) }
{
    StateNode {
        stage: state.stage(),
        pattern: state.pattern(),
        last: state.last(),
    }
}

// In which order a state and a node stand.
pub(crate) fn compare(state: &CertState, node: &StateNode) -> Ordering
    ensures { result ≡ node_cmp (node_of state.now) (seen node.now) }
{
    state
        .stage()
        .cmp(&node.stage)
        .then(state.pattern().cmp(&node.pattern))
        .then(state.last().cmp(&node.last))
}

// Whether the rank of `rank + k = stage + 1 + j` is placed, when `rank` has come next.
fn pushed_digit(k: u8, node: &StateNode, rank: u8, j: u8) -> bool
    requires k { k ≤ greatest_k }
    requires rank { rank ≤ most_waiting }
    requires stage { node.now.stage ≤ most_waiting }
    requires j { (1 ≤ j) × (j ≤ 6) }
    ensures { result ≡ pushed_digit k (seen node.now) rank (suc node.now.stage + j) }
{
    node.stage + 1 + j == rank + k || digit(&node.pattern, j + 1)
}

// The digits behind a node by one more rank, as the bits of a number.
fn pushed_ones(k: u8, node: &StateNode, rank: u8) -> u8
    requires k { k ≤ greatest_k }
    requires rank { rank ≤ most_waiting }
    requires stage { node.now.stage ≤ most_waiting }
    ensures { bits (2 * k) result ≡ tests_from (pushed_digit k (seen node.now) rank)
        (suc (suc node.now.stage)) (2 * k) }
{
    let digits = 2 * k;
    (0..digits).fold(
        0,
        |ones, i| 2 * ones + u8::from(pushed_digit(k, node, rank, digits - i)),
    )
}

// The node behind a node by one more rank.
pub(crate) fn pushed(problem: &Problem, node: &StateNode, rank: u8) -> StateNode
    requires rank { rank ≤ most_waiting }
    requires stage { node.now.stage ≤ most_waiting }
    ensures { seen result ≡ pattern_push (rules_of problem.now) (seen node.now) rank }
{
    let k = problem.head().k;
    StateNode {
        stage: node.stage + 1,
        pattern: Pattern::new(2 * k, pushed_ones(k, node, rank)),
        last: rank,
    }
}

// The digits of the start, where each rank below 1 is placed and no other, as the bits of a number.
fn start_ones(k: u8) -> u8
    requires { k ≤ greatest_k }
    ensures { bits (2 * k) result ≡ tests_from (pattern_digit k []) 1 (2 * k) }
{
    match k {
        0 => 0,
        1 => 1,
        2 => 3,
        _ => 7,
    }
}

// The node before the first landing.
pub(crate) fn start_node(problem: &Problem) -> StateNode
    ensures value { seen result ≡ pattern_node (rules_of problem.now) [] }
    ensures range { (result.stage ≡ 0) × (result.last ≡ 0) }
{
    let k = problem.head().k;
    StateNode {
        stage: 0,
        pattern: Pattern::new(2 * k, start_ones(k)),
        last: 0,
    }
}
