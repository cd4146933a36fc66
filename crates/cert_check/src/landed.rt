// Which rule the landings break first.
ghost use Rattle.std.specs.Prelude.{◌≡◌, ◌≤◌, ◌+◌, bytes_eq, count_by};
ghost use Rattle.cps_theory.specs.FirstFound.{first_from, first_pair_from};
ghost use Rattle.certificate.specs.Reading.{AreLandings};
ghost use Rattle.cert_check.specs.Landings.{count, is_not_once, are_not_flights, is_shut, is_early, is_close_behind, are_too_close, are_out_of_order, first_too_close, first_out_of_order, is_shifted};

use crate::seconds::{callsign, place, second};
use certificate::Claim;
use cps_base::Callsign;
use cps_problem::Problem;

fn count_of(landings: &[(Callsign, u32)], name: Callsign) -> usize
    ensures { result ≡ count_by (λ l. bytes_eq l.0 name) landings.now }
{
    landings.iter().filter(|landing| landing.0 == name).count()
}

// The landings have the callsign of this rank not exactly once.
fn is_not_once(problem: &Problem, landings: &[(Callsign, u32)], rank: u8) -> bool
    requires { (1 ≤ rank) × (rank ≤ count problem.now) }
    ensures { result ≡ is_not_once problem.now landings.now rank }
{
    count_of(landings, callsign(problem, rank)) != 1
}

// Its second is not open.
fn is_shut(problem: &Problem, landings: &[(Callsign, u32)], rank: u8) -> bool
    requires landings { AreLandings landings.now }
    requires rank { (1 ≤ rank) × (rank ≤ count problem.now) }
    ensures { result ≡ is_shut problem.now landings.now rank }
{
    let second = second(problem, landings, rank);
    !problem.flight(rank).times.is_open(second)
}

// It is before the horizon, or too close behind the last frozen landing.
fn is_early(problem: &Problem, landings: &[(Callsign, u32)], rank: u8) -> bool
    requires landings { AreLandings landings.now }
    requires rank { (1 ≤ rank) × (rank ≤ count problem.now) }
    ensures { result ≡ is_early problem.now landings.now rank }
{
    second(problem, landings, rank) < problem.start(rank)
}

// The other rank lands with this one or behind it, and too close.
fn is_close_behind(problem: &Problem, landings: &[(Callsign, u32)], rank: u8, other: u8) -> bool
    requires landings { AreLandings landings.now }
    requires rank { (1 ≤ rank) × (rank ≤ count problem.now) }
    requires other { (1 ≤ other) × (other ≤ count problem.now) }
    ensures { result ≡ is_close_behind problem.now landings.now rank other }
{
    let first = second(problem, landings, rank);
    let next = second(problem, landings, other);
    first <= next && next < first + problem.separation(rank, other)
}

fn are_too_close(problem: &Problem, landings: &[(Callsign, u32)], rank: u8, other: u8) -> bool
    requires landings { AreLandings landings.now }
    requires rank { (1 ≤ rank) × (rank ≤ count problem.now) }
    requires other { (1 ≤ other) × (other ≤ count problem.now) }
    ensures { result ≡ are_too_close problem.now landings.now rank other }
{
    rank < other
        && (is_close_behind(problem, landings, rank, other)
            || is_close_behind(problem, landings, other, rank))
}

fn are_out_of_order(problem: &Problem, landings: &[(Callsign, u32)], rank: u8, other: u8) -> bool
    requires landings { AreLandings landings.now }
    requires rank { (1 ≤ rank) × (rank ≤ count problem.now) }
    requires other { (1 ≤ other) × (other ≤ count problem.now) }
    ensures { result ≡ are_out_of_order problem.now landings.now rank other }
{
    // Its head tells the proof that ranks are at most `MOST_WAITING`.
    let _head = problem.head();
    problem.pairs().must_precede(rank, other)
        && !(second(problem, landings, rank) < second(problem, landings, other))
}

// The flight lands further ahead of its rank than the shift allows, or further behind it than the shift less the flights that
// passed it.
fn is_shifted(problem: &Problem, landings: &[(Callsign, u32)], rank: u8) -> bool
    requires landings { AreLandings landings.now }
    requires rank { (1 ≤ rank) × (rank ≤ count problem.now) }
    ensures { result ≡ is_shifted problem.now landings.now rank }
{
    let k = problem.head().k;
    let place = place(problem, landings, rank);
    place + k < rank || rank + k < place + problem.passed(rank)
}

// The landings are not each waiting flight once; or are some, though nothing is claimed to land.
pub(crate) fn are_not_flights(problem: &Problem, claim: Claim, landings: &[(Callsign, u32)]) -> bool
    ensures { result ≡ are_not_flights problem.now claim landings.now }
{
    match claim {
        Claim::Optimal(_) => {
            landings.len() != usize::from(problem.len())
                || first_not_once(problem, landings).is_some()
        }
        Claim::Infeasible => !landings.is_empty(),
    }
}

fn first_not_once(problem: &Problem, landings: &[(Callsign, u32)]) -> Option<u8>
    ensures { result ≡ first_from (is_not_once problem.now landings.now) 1 (count problem.now) }
{
    (1..problem.len() + 1).find(|rank| is_not_once(problem, landings, *rank))
}

// The least rank whose second is not open.
pub(crate) fn first_shut(problem: &Problem, landings: &[(Callsign, u32)]) -> Option<u8>
    requires { AreLandings landings.now }
    ensures { result ≡ first_from (is_shut problem.now landings.now) 1 (count problem.now) }
{
    (1..problem.len() + 1).find(|rank| is_shut(problem, landings, *rank))
}

// The least rank that is too early.
pub(crate) fn first_early(problem: &Problem, landings: &[(Callsign, u32)]) -> Option<u8>
    requires { AreLandings landings.now }
    ensures { result ≡ first_from (is_early problem.now landings.now) 1 (count problem.now) }
{
    (1..problem.len() + 1).find(|rank| is_early(problem, landings, *rank))
}

// The least rank too far from its place.
pub(crate) fn first_shifted(problem: &Problem, landings: &[(Callsign, u32)]) -> Option<u8>
    requires { AreLandings landings.now }
    ensures { result ≡ first_from (is_shifted problem.now landings.now) 1 (count problem.now) }
{
    (1..problem.len() + 1).find(|rank| is_shifted(problem, landings, *rank))
}

fn first_too_close(problem: &Problem, landings: &[(Callsign, u32)], rank: u8) -> Option<u8>
    requires landings { AreLandings landings.now }
    requires rank { (1 ≤ rank) × (rank ≤ count problem.now) }
    ensures { result ≡ first_too_close problem.now landings.now rank }
{
    (1..problem.len() + 1).find(|other| are_too_close(problem, landings, rank, *other))
}

// The first two ranks, the lower one first, that land too close to one another.
pub(crate) fn first_close_pair(problem: &Problem, landings: &[(Callsign, u32)]) -> Option<(u8, u8)>
    requires { AreLandings landings.now }
    ensures { result ≡ first_pair_from (first_too_close problem.now landings.now) 1
        (count problem.now) }
{
    (1..problem.len() + 1).find_map(|rank| {
        let other = first_too_close(problem, landings, rank)?;
        Some((rank, other))
    })
}

fn first_out_of_order(problem: &Problem, landings: &[(Callsign, u32)], rank: u8) -> Option<u8>
    requires landings { AreLandings landings.now }
    requires rank { (1 ≤ rank) × (rank ≤ count problem.now) }
    ensures { result ≡ first_out_of_order problem.now landings.now rank }
{
    (1..problem.len() + 1).find(|other| are_out_of_order(problem, landings, rank, *other))
}

// The first two ranks of which the one must precede the other and does not.
pub(crate) fn first_unordered_pair(
    problem: &Problem,
    landings: &[(Callsign, u32)],
) -> Option<(u8, u8)>
    requires { AreLandings landings.now }
    ensures { result ≡ first_pair_from (first_out_of_order problem.now landings.now) 1
        (count problem.now) }
{
    (1..problem.len() + 1).find_map(|rank| {
        let other = first_out_of_order(problem, landings, rank)?;
        Some((rank, other))
    })
}
