// Which rank may land next at a node.
ghost use Rattle.std.specs.Prelude.{◌≡◌, ◌≤◌, ◌+◌, ◌&&◌, suc, nat_le};
ghost use Rattle.cps_base.specs.Limits.{most_waiting};
ghost use Rattle.cps_theory.specs.FirstFound.{first_from};
ghost use Rattle.cps_theory.specs.CertificateClosure.{is_missing_predecessor, leaves_none_due, permits_next};
ghost use Rattle.cert_check.specs.Landings.{count};
ghost use Rattle.cert_check.specs.States.{rules_of};
ghost use Rattle.cert_check.specs.Seen.{seen};

use crate::node::{StateNode, is_placed};
use cps_problem::Problem;

// The flight of rank `other` must land before that of `rank`, and is not placed.
fn is_missing_predecessor(problem: &Problem, node: &StateNode, rank: u8, other: u8) -> bool
    requires stage { node.now.stage ≤ most_waiting }
    requires rank { (1 ≤ rank) × (rank ≤ count problem.now) }
    requires other { (1 ≤ other) × (other ≤ count problem.now) }
    ensures { result ≡ is_missing_predecessor (rules_of problem.now) (seen node.now) rank other }
{
    let head = problem.head();
    problem.pairs().must_precede(other, rank) && !is_placed(head.k, node, other)
}

fn missing_predecessor(problem: &Problem, node: &StateNode, rank: u8) -> Option<u8>
    requires stage { node.now.stage ≤ most_waiting }
    requires rank { (1 ≤ rank) × (rank ≤ count problem.now) }
    ensures { result ≡ first_from (is_missing_predecessor (rules_of problem.now) (seen node.now)
        rank) 1 (count problem.now) }
{
    (1..problem.len() + 1).find(|other| is_missing_predecessor(problem, node, rank, *other))
}

// After this rank, the rank that no later place could take is placed.
#[tactic(auto, unfolding(cps_theory::specs::CertificateClosure::leaves_none_due))]
fn leaves_none_due(problem: &Problem, node: &StateNode, rank: u8) -> bool
    requires { node.now.stage ≤ most_waiting }
    ensures { result ≡ leaves_none_due (rules_of problem.now) (seen node.now) rank }
{
    let k = problem.head().k;
    let next = node.stage + 1;
    next <= k || next - k == rank || is_placed(k, node, next - k)
}

// The next place is within the shift of the rank: the flights that passed it leave it fewer places behind.
fn is_near(problem: &Problem, stage: u8, rank: u8) -> bool
    requires stage { stage ≤ most_waiting }
    requires rank { (1 ≤ rank) × (rank ≤ count problem.now) }
    ensures { result ≡ (nat_le rank (suc stage + problem.now.k) && nat_le (suc stage)
        (rank + (rules_of problem.now).back rank)) }
{
    let k = problem.head().k;
    let next = stage + 1;
    rank <= next + k && next + problem.passed(rank) <= rank + k
}

#[tactic(auto, unfolding(cps_theory::specs::CertificateClosure::permits_next))]
pub(crate) fn is_permitted(problem: &Problem, node: &StateNode, rank: u8) -> bool
    requires stage { node.now.stage ≤ most_waiting }
    requires rank { (1 ≤ rank) × (rank ≤ count problem.now) }
    ensures { result ≡ permits_next (rules_of problem.now) (seen node.now) rank }
{
    let k = problem.head().k;
    is_near(problem, node.stage, rank)
        && !is_placed(k, node, rank)
        && leaves_none_due(problem, node, rank)
        && missing_predecessor(problem, node, rank).is_none()
}
