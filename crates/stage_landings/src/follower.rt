//! What the landings of one rank need.

ghost use Rattle.std.specs.Prelude.{◌≡◌, ℕ, ◌%◌, ◌*◌, ◌-◌, ◌<◌, ◌≤◌, length};
ghost use Rattle.cps_base.specs.Limits.{greatest_weight};
ghost use Rattle.landing_joint.specs.RankedProblem.{cost_at};
ghost use Rattle.stage_landings.specs.Followers.{AreApart, IsApart, IsFirstSpan, IsFollower};

use cps_problem::{Objective, Problem};

// How far a rank lands behind each that may have landed just before, at the places of these; its first open span, from a second
// on and before another; its estimate, and what each second behind that costs.
#[derive(Clone, Copy)]
pub(crate) struct Follower {
    pub(crate) apart: [u32; 8],
    pub(crate) open: (u32, u32),
    pub(crate) eta: u32,
    pub(crate) price: u32,
}

// The place of a rank among eight: the last three bits. Ranks in reach of a stage are less than eight apart.
#[inline]
pub(crate) fn place_of(rank: u8) -> usize
    ensures value { result ≡ rank % 8 }
    ensures within { result < 8 }
{
    usize::from(rank % 8)
}

// How far a rank lands behind another. Behind rank 0, which is no landing, it is from when on it may land as the first.
fn seconds_behind(problem: &Problem, leader: u8, rank: u8) -> u32
    requires leader { leader ≤ length problem.now.flights }
    requires rank { (1 ≤ rank) × (rank ≤ length problem.now.flights) }
    ensures { IsApart problem.now leader rank result }
{
    if leader == 0 {
        return problem.start(rank);
    }
    problem.separation(leader, rank)
}

// The same behind each rank that may have landed before the flight of a number, at its place.
fn apart_of(problem: &Problem, number: u8, rank: u8) -> [u32; 8]
    requires { (1 ≤ rank) × (rank ≤ length problem.now.flights) }
    ensures { AreApart problem.now number rank result }
{
    // k is at most 3, and at most `MOST_WAITING` flights wait.
    let k = problem.head().k;
    let first = number.saturating_sub(k + 1);
    let end = number.saturating_add(k).min(problem.len() + 1);
    let mut apart = [0; 8];
    for leader in first..end {
        apart[place_of(leader)] = seconds_behind(problem, leader, rank);
    }
    apart
}

// The first span of open seconds of a rank from when on it may land as the first: from a second on and before another.
fn first_span(problem: &Problem, rank: u8) -> (u32, u32)
    requires { (1 ≤ rank) × (rank ≤ length problem.now.flights) }
    ensures { IsFirstSpan problem.now rank result }
{
    match problem.open_span(rank, problem.start(rank)) {
        None => (0, 0),
        Some((begin, end)) => (begin, end + 1),
    }
}

// The estimate of a rank, and what each second behind it costs: the flight's weight, and for the makespan nothing.
fn price_of(problem: &Problem, rank: u8) -> (u32, u32)
    requires { (1 ≤ rank) × (rank ≤ length problem.now.flights) }
    ensures cost { (t : ℕ) → cost_at problem.now rank t ≡ result.1 * (t - result.0) }
    ensures light { result.1 ≤ greatest_weight }
{
    let flight = problem.flight(rank);
    match problem.head().objective {
        Objective::Makespan => (flight.eta, 0),
        Objective::Delay => (flight.eta, flight.weight),
    }
}

impl Follower {
    // What no landing needs.
    pub(crate) fn none() -> Follower {
        Follower {
            apart: [0; 8],
            open: (0, 0),
            eta: 0,
            price: 0,
        }
    }

    // What a rank needs that lands as the flight of a number.
    pub(crate) fn of(problem: &Problem, number: u8, rank: u8) -> Follower
        requires { (1 ≤ rank) × (rank ≤ length problem.now.flights) }
        ensures { IsFollower problem.now number rank result }
    {
        let (eta, price) = price_of(problem, rank);
        Follower {
            apart: apart_of(problem, number, rank),
            open: first_span(problem, rank),
            eta,
            price,
        }
    }
}
