//! The pairs that complete the nodes of a stage, from those of the next.

ghost use Rattle.std.specs.Prelude.{◌≡◌, ℕ, ◌&&◌, ◌-◌, ◌*◌, ◌<◌, ◌≤◌, IfOk, IfSome, length, true};
ghost use Rattle.cps_base.specs.Limits.{dearest_landing};
ghost use Rattle.landing_rules.specs.Rules.{last_second};
ghost use Rattle.cps_theory.specs.Labels.{Pair};
ghost use Rattle.landing_joint.specs.RankedProblem.{ranked};
ghost use Rattle.landing_joint.specs.CompletingPairs.{is_low};
ghost use Rattle.first_best.specs.Nodes.{node_at};
ghost use Rattle.first_best.specs.Completing.{AreFalling, AreListsOf, ArePairsOf, AreWaysOf, IsLeastOf, IsPairOf};
ghost use Rattle.first_best.specs.Ranges.{HasRank, IsNextIn};

use crate::budget::limit_of;
use crate::node::EarlyNode;
use crate::pairs::PairList;
use crate::stage::StageAhead;
use crate::ways::{least_cost, ways_of};
use cps_problem::{Objective, Problem};
use landing_windows::LAST_SECOND;
use std::alloc::{AllocError, Global};

// Of a problem the pairs that are wanted of a stage: those at a value for which the budget has room, all where there is none.
#[derive(Clone, Copy)]
pub(crate) struct Wanted<'a> {
    pub(crate) problem: &'a Problem,
    pub(crate) value: u64,
    pub(crate) budget: Option<u64>,
    pub(crate) stage: u8,
}

// Whether the value allows a landing at a second.
fn is_low(problem: &Problem, value: u64, second: u32) -> bool
    ensures { result ≡ is_low problem.now value second }
{
    match problem.head().objective {
        Objective::Makespan => u64::from(second) <= value,
        Objective::Delay => true,
    }
}

// Whether a second is open for a rank.
fn is_open(problem: &Problem, rank: u8, second: u32) -> bool
    requires { (1 ≤ rank) × (rank ≤ length problem.now.flights) }
    ensures { result ≡ (ranked problem.now).is_open rank second }
{
    problem.flight(rank).times.is_open(second)
}

// Whether a rank may land at a second.
fn is_allowed(problem: &Problem, value: u64, rank: u8, second: u32) -> bool
    requires { (1 ≤ rank) × (rank ≤ length problem.now.flights) }
    ensures { result
        ≡ (is_low problem.now value second && (ranked problem.now).is_open rank second) }
{
    is_low(problem, value, second) && is_open(problem, rank, second)
}

// No second behind the two days is open. The call tells this, and does nothing else.
fn opens_in_days(problem: &Problem, rank: u8)
    requires { (1 ≤ rank) × (rank ≤ length problem.now.flights) }
    ensures { (t : ℕ) → (ranked problem.now).is_open rank t ≡ true → t ≤ last_second }
{
    // The first open second from the third day on is none, so no second there is open.
    let _none = problem.first_open(rank, LAST_SECOND + 1);
}

// The least cost of a pair of a node at a second, where it has one.
fn cost_of(
    wanted: &Wanted<'_>,
    node: EarlyNode,
    next: &StageAhead,
    ways: &[usize],
    second: u32,
) -> Option<u32>
    requires stage { (1 ≤ wanted.now.stage)
        × (wanted.now.stage ≤ length wanted.now.problem.now.flights) }
    requires node { HasRank wanted.now.problem.now node }
    requires next { IsNextIn wanted.now.problem.now wanted.now.stage next.now }
    requires ways { AreWaysOf node next.now.nodes ways.now }
    requires second { (node.earliest ≤ second) × (second ≤ last_second) }
    ensures least { IsLeastOf (λ c.
        IsPairOf wanted.now.problem.now wanted.now.value wanted.now.stage node
        next.now (second, c)) result }
    ensures small { IfSome result (λ c.
        c ≤ dearest_landing * (length wanted.now.problem.now.flights - wanted.now.stage)) }
{
    if is_allowed(wanted.problem, wanted.value, node.last, second) {
        least_cost(wanted.problem, wanted.stage, node, next, ways, second)
    } else {
        None
    }
}

// A second behind which none is open for a rank.
fn last_open(problem: &Problem, rank: u8) -> u32
    requires { (1 ≤ rank) × (rank ≤ length problem.now.flights) }
    ensures last { (t : ℕ) → (ranked problem.now).is_open rank t ≡ true → t ≤ result }
    ensures in_days { result ≤ last_second }
{
    opens_in_days(problem, rank);
    let mut low = 0;
    let mut high = LAST_SECOND;
    while low < high {
        let middle = low + (high - low) / 2;
        match problem.first_open(rank, middle + 1) {
            None => high = middle,
            Some(_) => low = middle + 1,
        }
    }
    high
}

// A second behind which no pair of a node is.
fn latest(problem: &Problem, stage: u8, node: EarlyNode, next: &StageAhead, ways: &[usize]) -> u32
    requires stage { (1 ≤ stage) × (stage ≤ length problem.now.flights) }
    requires node { HasRank problem.now node }
    requires next { IsNextIn problem.now stage next.now }
    requires ways { AreWaysOf node next.now.nodes ways.now }
    ensures last { (v : ℕ) → (q : Pair)
        → IsPairOf problem.now v stage node next.now q
        → q.0 ≤ result }
    ensures in_days { result ≤ last_second }
{
    let last = last_open(problem, node.last);
    if stage == problem.len() {
        return last;
    }
    let latest = ways
        .iter()
        .fold(0, |latest, way| next.latest(*way).max(latest));
    latest.min(last)
}

// The pairs of a node for which the budget has room, the latest first.
fn latest_pairs(
    alloc: Global,
    wanted: &Wanted<'_>,
    node: EarlyNode,
    next: &StageAhead,
) -> Result<Vec<(u32, u32)>, AllocError>
    requires stage { (1 ≤ wanted.now.stage)
        × (wanted.now.stage ≤ length wanted.now.problem.now.flights) }
    requires node { HasRank wanted.now.problem.now node }
    requires next { IsNextIn wanted.now.problem.now wanted.now.stage next.now }
    ensures { IfOk result (λ pairs.
        AreFalling wanted.now.problem.now wanted.now.value wanted.now.budget wanted.now.stage
        node next.now node.earliest pairs.items) }
{
    // At most `MOST_WAITING` flights wait, so that the costs fit.
    let _few = wanted.problem.len();
    let ways = ways_of(alloc, node, next)?;
    let ways = ways.as_slice();
    let end = latest(wanted.problem, wanted.stage, node, next, ways) + 1;
    let mut least = limit_of(wanted.budget, node.cheapest);
    let mut pairs = Vec::new(alloc);
    for second in (node.earliest..end).rev() {
        if least == 0 {
            return Ok(pairs);
        }
        if let Some(cost) = cost_of(wanted, node, next, ways, second) {
            if u64::from(cost) < least {
                pairs.push((second, cost))?;
                least = u64::from(cost);
            }
        }
    }
    Ok(pairs)
}

// The pairs of a node for which the budget has room, ascending.
fn pairs_of(
    alloc: Global,
    wanted: &Wanted<'_>,
    node: EarlyNode,
    next: &StageAhead,
) -> Result<PairList, AllocError>
    requires stage { (1 ≤ wanted.now.stage)
        × (wanted.now.stage ≤ length wanted.now.problem.now.flights) }
    requires node { HasRank wanted.now.problem.now node }
    requires next { IsNextIn wanted.now.problem.now wanted.now.stage next.now }
    ensures { IfOk result (λ pairs.
        ArePairsOf wanted.now.problem.now wanted.now.value wanted.now.budget wanted.now.stage
        node next.now pairs) }
{
    let mut pairs = latest_pairs(alloc, wanted, node, next)?;
    pairs.reverse();
    Ok(PairList::of(pairs))
}

/// The pairs of the nodes of a stage for which the budget has room, from those of the next; behind the last stage stands one
/// without a node. With no budget it is all pairs.
pub(crate) fn complete(
    alloc: Global,
    wanted: &Wanted<'_>,
    nodes: &[EarlyNode],
    next: &StageAhead,
) -> Result<Vec<PairList>, AllocError>
    requires stage { (1 ≤ wanted.now.stage)
        × (wanted.now.stage ≤ length wanted.now.problem.now.flights) }
    requires nodes { (j : ℕ) → j < length nodes.now
        → HasRank wanted.now.problem.now (node_at nodes.now j) }
    requires next { IsNextIn wanted.now.problem.now wanted.now.stage next.now }
    ensures { IfOk result (λ lists.
        AreListsOf wanted.now.problem.now wanted.now.value wanted.now.budget wanted.now.stage
        nodes.now next.now lists.items) }
{
    let mut lists = Vec::with_capacity(alloc, nodes.len())?;
    for node in nodes {
        lists.push(pairs_of(alloc, wanted, *node, next)?)?;
    }
    Ok(lists)
}
