//! The order of least ranks, chosen place by place.

ghost use Rattle.std.specs.Prelude.{◌≡◌, ℕ, ◌*◌, ◌<◌, ◌≤◌, ◌⊎◌, ◌↔◌, IfOk, IfSome, Some, length};
ghost use Rattle.cps_base.specs.Limits.{dearest_landing, most_waiting};
ghost use Rattle.precedence.specs.Pairs.{HasBit};
ghost use Rattle.cps_network.specs.Pairs.{list_at};
ghost use Rattle.landing_rules.specs.Rules.{last_second};
ghost use Rattle.landing_rules.specs.FirstBest.{IsFirstBestList};
ghost use Rattle.landing_joint.specs.CompletingPairs.{IsLeastObjective};
ghost use Rattle.replan.specs.Kept.{held_of, problem_held};
ghost use Rattle.first_best.specs.Choices.{lesser_choice, FindsAffordable, FindsWay, IsLeastChoice, IsLesserBy};
ghost use Rattle.first_best.specs.Completing.{Rises};
ghost use Rattle.first_best.specs.Nodes.{node_at};
ghost use Rattle.first_best.specs.Ranges.{HasRank, IsPlacedIn};
ghost use Rattle.first_best.specs.Stages.{IsAheadWithin};

use crate::ahead::Ahead;
use crate::budget::budget_of;
use crate::laws::window_laws;
use crate::node::{EarlyNode, leads_to};
use crate::pairs::PairList;
use crate::stage::StageAhead;
use cps_base::MOST_WAITING;
use cps_problem::{Problem, Schedule};
use extract_plan::blank;
use replan::AnyKept;
use std::alloc::{AllocError, Global};

// A prefix whose order is to be ended within a budget: its node, and what it costs.
#[derive(Clone, Copy)]
struct Prefix<'a> {
    problem: &'a Problem,
    budget: u64,
    node: EarlyNode,
    cost: u64,
}

// The second at which the last flight of a node lands behind a prefix, if the order can then be ended within the budget.
fn affordable(prefix: &Prefix<'_>, after: EarlyNode, pairs: &PairList) -> Option<u32>
    requires before { IsPlacedIn prefix.now.problem.now prefix.now.node }
    requires after { HasRank prefix.now.problem.now after }
    requires rising { Rises pairs.now }
    requires cost { prefix.now.cost ≤ dearest_landing * most_waiting }
    ensures found { FindsAffordable prefix.now.problem.now prefix.now.budget prefix.now.node
        prefix.now.cost after pairs.now result }
    ensures in_days { IfSome result (λ t. t ≤ last_second) }
{
    let Prefix {
        problem,
        budget,
        node: before,
        cost,
    } = *prefix;
    let second = problem.landing_after(before.last, before.earliest, after.last)?;
    let rest = pairs.cost_from(second)?;
    if cost + u64::from(problem.cost(after.last, second)) + u64::from(rest) <= budget {
        Some(second)
    } else {
        None
    }
}

// The choice `least`, or that of `rank` at the second found, where there is one and the rank is less.
fn lesser(least: (u8, u32), rank: u8, found: Option<u32>) -> (u8, u32)
    ensures { result ≡ lesser_choice least rank found }
{
    match found {
        None => least,
        Some(second) => {
            if rank < least.0 {
                (rank, second)
            } else {
                least
            }
        }
    }
}

// As `affordable`, where the prefix leads to the node; else none.
fn found_by(prefix: &Prefix<'_>, after: EarlyNode, pairs: &PairList) -> Option<u32>
    requires before { IsPlacedIn prefix.now.problem.now prefix.now.node }
    requires after { HasRank prefix.now.problem.now after }
    requires rising { Rises pairs.now }
    requires cost { prefix.now.cost ≤ dearest_landing * most_waiting }
    ensures found { FindsWay prefix.now.problem.now prefix.now.budget prefix.now.node
        prefix.now.cost after pairs.now result }
    ensures in_days { IfSome result (λ t. t ≤ last_second) }
{
    // At most `MOST_WAITING` flights wait, so that a rank is at most that.
    let _few = prefix.problem.len();
    if leads_to(prefix.node, after) {
        affordable(prefix, after, pairs)
    } else {
        None
    }
}

// The lesser of the choice `least` and that by way of the node at place j, where there is one.
fn with_node(prefix: &Prefix<'_>, stage: &StageAhead, j: usize, least: (u8, u32)) -> (u8, u32)
    requires before { IsPlacedIn prefix.now.problem.now prefix.now.node }
    requires node { j < length stage.now.nodes }
    requires list { j < length stage.now.lists }
    requires rank { HasRank prefix.now.problem.now (node_at stage.now.nodes j) }
    requires rising { Rises (list_at stage.now.lists j) }
    requires cost { prefix.now.cost ≤ dearest_landing * most_waiting }
    ensures lesser { IsLesserBy prefix.now.problem.now prefix.now.budget prefix.now.node
        prefix.now.cost (node_at stage.now.nodes j) (list_at stage.now.lists j) least result }
    ensures in_days { least.1 ≤ last_second → result.1 ≤ last_second }
{
    let after = stage.node(j);
    let found = found_by(prefix, after, stage.list(j));
    lesser(least, after.last, found)
}

// The least rank that can come next, and its second. Where none can the rank is `MOST_WAITING` + 1, which is no flight's.
fn least_choice(prefix: &Prefix<'_>, stage: &StageAhead) -> (u8, u32)
    requires before { IsPlacedIn prefix.now.problem.now prefix.now.node }
    requires one_each { length stage.now.lists ≡ length stage.now.nodes }
    requires ranks { (j : ℕ) → j < length stage.now.nodes
        → HasRank prefix.now.problem.now (node_at stage.now.nodes j) }
    requires rising { (j : ℕ) → Rises (list_at stage.now.lists j) }
    requires cost { prefix.now.cost ≤ dearest_landing * most_waiting }
    ensures least { IsLeastChoice prefix.now.problem.now prefix.now.budget prefix.now.node
        prefix.now.cost stage.now.nodes stage.now.lists result }
    ensures in_days { result.1 ≤ last_second }
{
    // At most `MOST_WAITING` flights wait, so that one more is no rank.
    let _few = prefix.problem.len();
    (0..stage.len()).fold((MOST_WAITING + 1, 0), |least, j| {
        with_node(prefix, stage, j, least)
    })
}

// The node to which another leads where this rank lands next, at this second.
fn with_rank(before: EarlyNode, rank: u8, second: u32) -> EarlyNode
    requires { rank ≤ most_waiting }
    ensures placed { (x : ℕ) → HasBit result.placed x ↔ (HasBit before.placed x ⊎ (x ≡ rank)) }
    ensures last { result.last ≡ rank }
    ensures earliest { result.earliest ≡ second }
{
    EarlyNode {
        placed: before.placed | (1u64 << rank),
        last: rank,
        earliest: second,
        cheapest: before.cheapest,
    }
}

/// The first best schedule of a problem that the planner holds: of the best and tight ones the one whose order of ranks is
/// lexicographically least.
///
/// `ahead` is what `Ahead::within` made of this problem at this value, or `Ahead::of`, and the value is the least objective of a
/// feasible list of seconds. The least rank that still can be completed at the value comes next, each as early as it can.
pub fn first_schedule(
    alloc: Global,
    problem: &Problem,
    kept: &AnyKept,
    ahead: &Ahead,
    value: u64,
) -> Result<Schedule, AllocError>
    requires held { problem_held kept.now ≡ Some problem.now }
    requires ahead { IsAheadWithin problem.now value (held_of kept.now) ahead.now }
    requires value { IsLeastObjective problem.now value }
    ensures { IfOk result (IsFirstBestList problem.now) }
{
    window_laws(problem);
    let budget = budget_of(problem, value);
    let mut schedule = blank(alloc, problem.len())?;
    let mut before = EarlyNode {
        placed: 0,
        last: 0,
        earliest: 0,
        cheapest: 0,
    };
    let mut cost = 0u64;
    for done in 0..kept.stages() {
        let prefix = Prefix {
            problem,
            budget,
            node: before,
            cost,
        };
        let (rank, second) = least_choice(&prefix, ahead.stage(done + 1));
        schedule.set(rank, second);
        cost += u64::from(problem.cost(rank, second));
        before = with_rank(before, rank, second);
    }
    Ok(schedule)
}
