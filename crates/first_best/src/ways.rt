//! Ways: what a node leads to, and what is left behind it.

ghost use Rattle.std.specs.Prelude.{◌≡◌, ℕ, ◌+◌, ◌-◌, ◌*◌, ◌<◌, ◌≤◌, IfOk, IfSome, length};
ghost use Rattle.cps_base.specs.Limits.{dearest_landing, most_waiting};
ghost use Rattle.landing_rules.specs.Rules.{last_second};
ghost use Rattle.cps_network.specs.Pairs.{list_at};
ghost use Rattle.first_best.specs.Nodes.{node_at};
ghost use Rattle.first_best.specs.Completing.{AreWaysOf, IsEnd, IsLeastOf, IsWayTo};
ghost use Rattle.first_best.specs.Ranges.{HasRank, IsNextIn};

use crate::node::{EarlyNode, leads_to};
use crate::stage::StageAhead;
use cps_problem::Problem;
use std::alloc::{AllocError, Global};

// The places of the nodes to which a node leads.
pub(crate) fn ways_of(
    alloc: Global,
    node: EarlyNode,
    next: &StageAhead,
) -> Result<Vec<usize>, AllocError>
    requires { (j : ℕ) → j < length next.now.nodes → (node_at next.now.nodes j).last ≤ most_waiting }
    ensures { IfOk result (λ ways. AreWaysOf node next.now.nodes ways.items) }
{
    let mut ways = Vec::new(alloc);
    for j in 0..next.len() {
        if leads_to(node, next.node(j)) {
            ways.push(j)?;
        }
    }
    Ok(ways)
}

// The least cost of what is left behind a node whose last flight lands at a second, by way of the node at a place of the next
// stage.
fn cost_by(
    problem: &Problem,
    stage: u8,
    node: EarlyNode,
    next: &StageAhead,
    way: usize,
    second: u32,
) -> Option<u32>
    requires stage { stage < length problem.now.flights }
    requires few { length problem.now.flights ≤ most_waiting }
    requires node { HasRank problem.now node }
    requires next { IsNextIn problem.now stage next.now }
    requires way { way < length next.now.nodes }
    requires second { second ≤ last_second }
    ensures least { IsLeastOf (IsWayTo problem.now node
        (node_at next.now.nodes way) (list_at next.now.lists way) second) result }
    ensures small { IfSome result (λ c. c ≤ dearest_landing * (length problem.now.flights - stage)) }
{
    let after = next.node(way);
    let landing = problem.landing_after(node.last, second, after.last)?;
    let rest = next.list(way).cost_from(landing)?;
    Some(problem.cost(after.last, landing) + rest)
}

// The least cost of what is left behind a node whose last flight lands at a second.
pub(crate) fn least_cost(
    problem: &Problem,
    stage: u8,
    node: EarlyNode,
    next: &StageAhead,
    ways: &[usize],
    second: u32,
) -> Option<u32>
    requires stage { (1 ≤ stage) × (stage ≤ length problem.now.flights) }
    requires node { HasRank problem.now node }
    requires next { IsNextIn problem.now stage next.now }
    requires ways { AreWaysOf node next.now.nodes ways.now }
    requires second { second ≤ last_second }
    ensures least { IsLeastOf
        (IsEnd problem.now stage node next.now second) result }
    ensures small { IfSome result (λ c. c ≤ dearest_landing * (length problem.now.flights - stage)) }
{
    if stage == problem.len() {
        return Some(0);
    }
    ways.iter()
        .filter_map(|way| cost_by(problem, stage, node, next, *way, second))
        .min()
}
