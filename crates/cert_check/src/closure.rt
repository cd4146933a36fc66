// Which successor pairs the states leave out.
ghost use Rattle.std.specs.Prelude.{◌≡◌, ◌≤◌, ◌<◌, ◌+◌, ◌-◌, true, false, length, Some, None, nat_le};
ghost use Rattle.std.specs.List.{list_any, list_all};
ghost use Rattle.std.specs.List.Sorted.{IsBinarySearchResult, IsSearchInRange};
ghost use Rattle.cps_base.specs.Limits.{greatest_word, most_waiting};
ghost use Rattle.landing_rules.specs.Rules.{last_second};
ghost use Rattle.cps_theory.specs.Labels.{no_worse};
ghost use Rattle.cps_theory.specs.CertificateClosure.{node_cmp};
ghost use Rattle.certificate.specs.States.{AreAscending, is_pair, rises};
ghost use Rattle.cert_check.specs.Landings.{count};
ghost use Rattle.cert_check.specs.States.{node_of, ready, successor, covers, is_missed, misses, first_missed, missed_from, successor_failure, shape_failure, is_misshapen, start_node};
ghost use Rattle.cert_check.specs.Seen.{seen};

use crate::node::{StateNode, compare, node_of, pushed, start_node};
use crate::permitted::is_permitted;
use certificate::CertState;
use cps_problem::Problem;

// From when on a rank may land behind a pair of another, or as the first behind rank 0.
fn ready(problem: &Problem, last: u8, second: u32, rank: u8) -> u32
    requires last { last ≤ count problem.now }
    requires second { second ≤ last_second }
    requires rank { (1 ≤ rank) × (rank ≤ count problem.now) }
    ensures { result ≡ ready problem.now last second rank }
{
    if last == 0 {
        return problem.start(rank);
    }
    problem
        .head()
        .horizon
        .max(second + problem.separation(last, rank))
}

// The pair behind another of this last rank, by one more rank.
fn successor(problem: &Problem, last: u8, pair: (u32, u32), rank: u8) -> Option<(u32, u64)>
    requires last { last ≤ count problem.now }
    requires pair { pair.0 ≤ last_second }
    requires rank { (1 ≤ rank) × (rank ≤ count problem.now) }
    ensures { result ≡ successor problem.now last pair rank }
{
    let second = problem.first_open(rank, ready(problem, last, pair.0, rank))?;
    let cost = u64::from(pair.1) + u64::from(problem.cost(rank, second));
    Some((second, cost))
}

// Where the state of a node stands among states in their order.
fn find(states: &[CertState], node: &StateNode) -> Result<usize, usize>
    ensures found { IsBinarySearchResult (λ s. node_cmp (node_of s) (seen node.now)) states.now
        result }
    ensures bound { IsSearchInRange result (length states.now) }
{
    states.binary_search_by(|state| compare(state, node))
}

// Whether a pair of these is no later and no dearer. Of those that are no later the last is the cheapest.
fn has_no_worse(pairs: &[(u32, u32)], pair: (u32, u64)) -> bool
    requires { rises pairs.now ≡ true }
    ensures { result ≡ list_any (λ o. no_worse o pair) pairs.now }
{
    let later = pairs.partition_point(
        |listed: &(u32, u32)| -> bool
            ensures { result ≡ nat_le listed.now.0 pair.0 }
        { listed.0 <= pair.0 },
    );
    later > 0 && u64::from(pairs[later - 1].1) <= pair.1
}

// Whether the state of this node lists a pair that is no later and no dearer.
fn covers(states: &[CertState], node: &StateNode, pair: (u32, u64)) -> bool
    requires { AreAscending states.now }
    ensures { result ≡ covers states.now (seen node.now) pair }
{
    match find(states, node) {
        Ok(at) => has_no_worse(states[at].pairs(), pair),
        Err(_) => false,
    }
}

fn is_missed(
    problem: &Problem,
    states: &[CertState],
    node: &StateNode,
    rank: u8,
    pair: (u32, u32),
) -> bool
    requires ascending { AreAscending states.now }
    requires stage { node.now.stage ≤ most_waiting }
    requires last { node.now.last ≤ count problem.now }
    requires rank { (1 ≤ rank) × (rank ≤ count problem.now) }
    requires pair { pair.0 ≤ last_second }
    ensures { result ≡ is_missed problem.now states.now (seen node.now) rank pair }
{
    // Its head tells the proof that a rank is at most `MOST_WAITING`.
    let _head = problem.head();
    match successor(problem, node.last, pair, rank) {
        None => false,
        Some(next) => !covers(states, &pushed(problem, node, rank), next),
    }
}

fn misses_any(
    problem: &Problem,
    states: &[CertState],
    node: &StateNode,
    rank: u8,
    pairs: &[(u32, u32)],
) -> bool
    requires ascending { AreAscending states.now }
    requires stage { node.now.stage ≤ most_waiting }
    requires last { node.now.last ≤ count problem.now }
    requires rank { (1 ≤ rank) × (rank ≤ count problem.now) }
    requires pairs { list_all is_pair pairs.now ≡ true }
    ensures { result ≡ list_any (is_missed problem.now states.now (seen node.now) rank) pairs.now }
{
    pairs
        .iter()
        .any(|pair| is_missed(problem, states, node, rank, *pair))
}

fn misses(
    problem: &Problem,
    states: &[CertState],
    node: &StateNode,
    rank: u8,
    pairs: &[(u32, u32)],
) -> bool
    requires ascending { AreAscending states.now }
    requires stage { node.now.stage ≤ most_waiting }
    requires last { node.now.last ≤ count problem.now }
    requires rank { (1 ≤ rank) × (rank ≤ count problem.now) }
    requires pairs { list_all is_pair pairs.now ≡ true }
    ensures { result ≡ misses problem.now states.now (seen node.now) pairs.now rank }
{
    is_permitted(problem, node, rank) && misses_any(problem, states, node, rank, pairs)
}

fn first_missed(
    problem: &Problem,
    states: &[CertState],
    node: &StateNode,
    pairs: &[(u32, u32)],
) -> Option<u8>
    requires ascending { AreAscending states.now }
    requires stage { node.now.stage ≤ most_waiting }
    requires last { node.now.last ≤ count problem.now }
    requires pairs { list_all is_pair pairs.now ≡ true }
    ensures { result ≡ first_missed problem.now states.now (seen node.now) pairs.now }
{
    (1..problem.len() + 1).find(|rank| misses(problem, states, node, *rank, pairs))
}

// The first rank by which a pair of the state has a successor that is not covered.
fn missed_at(problem: &Problem, states: &[CertState], state: &CertState) -> Option<u8>
    requires ascending { AreAscending states.now }
    requires shaped { is_misshapen problem.now state.now ≡ false }
    ensures { result ≡ first_missed problem.now states.now (node_of state.now) state.now.pairs }
{
    first_missed(problem, states, &node_of(state), state.pairs())
}

// The first state from the first on, and rank, whose successor pair is not covered.
fn missed_state(problem: &Problem, states: &[CertState]) -> Option<(u32, u8)>
    requires few { length states.now < greatest_word }
    requires ascending { AreAscending states.now }
    requires shaped { shape_failure problem.now states.now ≡ None }
    ensures { result ≡ missed_from problem.now states.now 1 states.now }
{
    states.iter().enumerate().find_map(|(at, state)| {
        let rank = missed_at(problem, states, state)?;
        Some((at as u32 + 1, rank))
    })
}

// The first state and rank whose successor pair is not covered, the start being state 0.
pub(crate) fn successor_failure(problem: &Problem, states: &[CertState]) -> Option<(u32, u8)>
    requires few { length states.now < greatest_word }
    requires ascending { AreAscending states.now }
    requires shaped { shape_failure problem.now states.now ≡ None }
    ensures { result ≡ successor_failure problem.now states.now }
{
    let start = start_node(problem);
    if let Some(rank) = first_missed(problem, states, &start, &[(0, 0)]) {
        return Some((0, rank));
    }
    missed_state(problem, states)
}
