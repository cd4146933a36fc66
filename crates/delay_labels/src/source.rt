//! Back from a pair to a pair of the stage before from which it comes.

ghost use Rattle.std.specs.Prelude.{◌≡◌, ℕ, ◌+◌, ◌*◌, ◌<◌, ◌≤◌, ◌⊎◌, All, length, Some, MatchOption, IsTrue, ◌↔◌};
ghost use Rattle.cps_network.specs.Pairs.{list_at, pair_at, successor, HoldsCosts, GivesPair};
ghost use Rattle.delay_labels.specs.Bounds.{IsInDays, most_before};
ghost use Rattle.delay_labels.specs.Sources.{GivesNone, IsFirstSource};

use crate::costs::Costs;
use cps_network::{Stage, last_rank, prefix_laws, sources};
use cps_nodes::{Window, window_laws};
use cps_problem::Problem;

// Whether the successor of a pair, by a rank behind another, is this pair.
fn gives(problem: &Problem, last: u8, pair: (u32, u32), rank: u8, wanted: (u32, u32)) -> bool
    requires last { last ≤ length problem.now.flights }
    requires rank { (1 ≤ rank) × (rank ≤ length problem.now.flights) }
    requires in_days { IsInDays pair }
    requires cost { pair.1 ≤ most_before }
    ensures { IsTrue result ↔ (successor problem.now last pair rank ≡ Some wanted) }
{
    match problem.landing_after(last, pair.0, rank) {
        None => false,
        Some(second) => (second, pair.1 + problem.cost(rank, second)) == wanted,
    }
}

// The first index of a list whose pair has this successor.
fn first_giving(
    problem: &Problem,
    last: u8,
    rank: u8,
    pairs: &[(u32, u32)],
    wanted: (u32, u32),
) -> Option<usize>
    requires last { last ≤ length problem.now.flights }
    requires rank { (1 ≤ rank) × (rank ≤ length problem.now.flights) }
    requires in_days { All IsInDays pairs.now }
    requires costs { All (λ q. q.1 ≤ most_before) pairs.now }
    ensures { MatchOption result
        ((i : ℕ) → i < length pairs.now → successor problem.now last (pair_at pairs.now i) rank
        ≡ Some wanted → ⊥)
        (λ index. (index < length pairs.now) × (successor problem.now last
        (pair_at pairs.now index) rank ≡ Some wanted)
        × ((i : ℕ) → i < index → successor problem.now last (pair_at pairs.now i) rank
        ≡ Some wanted → ⊥)) }
{
    pairs
        .iter()
        .position(|pair| gives(problem, last, *pair, rank, wanted))
}

// The same in the list at a place, with that place.
fn first_giving_at(
    problem: &Problem,
    last: u8,
    rank: u8,
    labels: &Costs,
    place: usize,
    wanted: (u32, u32),
) -> Option<(usize, usize)>
    requires last { last ≤ length problem.now.flights }
    requires rank { (1 ≤ rank) × (rank ≤ length problem.now.flights) }
    requires place { place < length labels.now }
    requires costs { All (λ q. q.1 ≤ most_before) (list_at labels.now place) }
    ensures { MatchOption result
        ((i : ℕ) → i < length (list_at labels.now place) → successor problem.now last
        (pair_at (list_at labels.now place) i) rank ≡ Some wanted → ⊥)
        (λ at. (at.0 ≡ place) × (at.1 < length (list_at labels.now place))
        × (successor problem.now last (pair_at (list_at labels.now place) at.1) rank
        ≡ Some wanted)
        × ((i : ℕ) → i < at.1 → successor problem.now last
        (pair_at (list_at labels.now place) i) rank ≡ Some wanted → ⊥)) }
{
    let index = first_giving(problem, last, rank, labels.list(place), wanted)?;
    Some((place, index))
}

// The first place of a range of lists, and the first index of the list there, whose pair has this successor.
fn first_source(
    problem: &Problem,
    last: u8,
    rank: u8,
    labels: &Costs,
    range: (usize, usize),
    wanted: (u32, u32),
) -> Option<(usize, usize)>
    requires last { last ≤ length problem.now.flights }
    requires rank { (1 ≤ rank) × (rank ≤ length problem.now.flights) }
    requires range { range.1 ≤ length labels.now }
    requires costs { (i : ℕ) → range.0 ≤ i → i < range.1
        → All (λ q. q.1 ≤ most_before) (list_at labels.now i) }
    ensures { MatchOption result
        ((i : ℕ) → range.0 ≤ i → i < range.1
        → GivesNone problem.now last rank (list_at labels.now i) wanted)
        (IsFirstSource problem.now last rank labels.now range.0 range.1 wanted) }
{
    (range.0..range.1).find_map(|i| first_giving_at(problem, last, rank, labels, i, wanted))
}

/// The first place of a stage, and the first index of the list there, whose pair gives this pair to a window of the next
/// stage: by a permitted rank, whose landing behind it is the pair's second and adds up to the pair's cost.
///
/// The stage holds the landable windows with their pairs, and some pair of it gives the pair of the window of the next stage.
pub fn source_pair<const W: usize>(
    problem: &Problem,
    before: &Stage<W>,
    labels: &Costs,
    node: &Window<W>,
    second: u32,
    cost: u32,
) -> (usize, usize)
    requires width { W ≡ 2 * problem.now.k + 1 }
    requires before { HoldsCosts problem.now before.now labels.now }
    requires given { (place : ℕ) × (index : ℕ)
        × GivesPair problem.now before.now labels.now node.now (second, cost) place index }
    ensures gives { GivesPair problem.now before.now labels.now node.now (second, cost) result.0
        result.1 }
    ensures first { (place : ℕ) → (index : ℕ)
        → (place < result.0) ⊎ ((place ≡ result.0) × (index < result.1))
        → GivesPair problem.now before.now labels.now node.now (second, cost) place index → ⊥ }
{
    // The problem is well formed.
    let _near = problem.head();
    // The seconds of all lists are in the days.
    let _in_days = labels.len();
    prefix_laws::<W>(problem);
    window_laws::<W>();
    let range = sources(before, node);
    let last = last_rank(&before.node(range.0), before.number());
    let rank = last_rank(node, before.number() + 1);
    first_source(problem, last, rank, labels, range, (second, cost)).unwrap()
}
