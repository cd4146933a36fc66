ghost use Rattle.std.specs.Prelude.{◌≡◌, ◌-◌, ◌≤◌, IfOk, Some, length, nat_eq, slice_get};
ghost use Rattle.cps_problem.specs.Seen.{waiting_of, seen_problem};
ghost use Rattle.cps_problem.specs.WellFormed.{CanBuild, IsWellFormed};

use cps_base::Callsign;
use landing_rules::Objective;
use landing_windows::OpenTimes;
use precedence::Pairs;
use std::alloc::AllocError;
use std::marker::Model;
use wake_table::{Category, PairTable};

/// A waiting flight.
#[derive(Drop)]
pub struct Waiting {
    /// Its callsign.
    pub callsign: Callsign,
    /// Its wake category.
    pub category: Category,
    /// Its estimated second, 0 to 172,799.
    pub eta: u32,
    /// Its weight, 1 to 100.
    pub weight: u32,
    /// How many flights behind it in first-come order froze ahead of it, at most k.
    pub passed: u8,
    /// Its open seconds.
    pub times: OpenTimes,
}

/// What all waiting flights share.
#[derive(Clone, Copy)]
pub struct Head {
    /// The separation of each leader and follower.
    pub table: PairTable,
    /// The most places by which a flight may leave its first-come place: 0 to 3.
    pub k: u8,
    /// What a plan makes least.
    pub objective: Objective,
    /// The second before which no waiting flight may land.
    pub horizon: u32,
    /// The frozen flight that lands last, by its second and category.
    pub last: Option<(u32, Category)>,
    /// The delay of the frozen flights, and 0 for the makespan.
    pub base: u64,
}

/// The waiting flights by rank, the first of rank 1, with their head and the pairs of ranks that precedence asks for.
///
/// Contracts see the rules' problem (`landing_rules`, `Problem`). This project's own form.
#[derive(Drop)]
pub struct Problem {
    head: Head,
    waiting: Vec<Waiting>,
    pairs: Pairs,
}

impl Model for Problem {
    ghost use Rattle.landing_rules.specs.Problem as rules;

    ghost Value = { rules.Problem };

    ghost use Rattle.cps_problem.specs.Inside.{seen};
    ghost use Rattle.cps_problem.specs.WellFormed.{IsWellFormed};

    ghost view = { seen };

    ghost invariant = { λ p. IsWellFormed (seen p) };
}

impl Problem {
    /// The problem of these flights by rank. At most `MOST_WAITING` flights, ascending by estimate and callsign, no callsign
    /// twice, each estimate at most 172,799 and each weight 1 to 100; the pairs are over their ranks; k is at most 3, and at most k flights
    /// passed each; the last frozen landing is before the horizon, which is at most 179,999; the base plus 17,279,900 for each
    /// flight is at most 8,639,950,000.
    pub fn build(head: Head, waiting: Vec<Waiting>, pairs: Pairs) -> Problem
        requires { CanBuild (seen_problem head waiting.items pairs) }
        ensures { result ≡ seen_problem head waiting.items pairs }
    {
        // The table is one of separations, as its type keeps.
        let _is_table = head.table.sep(Category::A, Category::A);
        Problem {
            head,
            waiting,
            pairs,
        }
    }

    /// What all waiting flights share.
    pub fn head(&self) -> &Head
        ensures value { self.now ≡ record self.now {
          table = result.now.table;
          k = result.now.k;
          objective = result.now.objective;
          horizon = result.now.horizon;
          last = result.now.last;
          base = result.now.base;
        } }
        ensures well_formed { IsWellFormed self.now }
    {
        &self.head
    }

    /// The number of waiting flights: 0 to `MOST_WAITING`.
    pub fn len(&self) -> u8
        ensures value { result ≡ length self.now.flights }
        ensures well_formed { IsWellFormed self.now }
    {
        self.waiting.len() as u8
    }

    /// Whether no flight waits.
    pub fn is_empty(&self) -> bool
        ensures { result ≡ nat_eq (length self.now.flights) 0 }
    {
        self.waiting.is_empty()
    }

    /// The flight of a rank.
    pub fn flight(&self, rank: u8) -> &Waiting
        requires { (1 ≤ rank) × (rank ≤ length self.now.flights) }
        ensures { slice_get self.now.flights (rank - 1) ≡ Some (waiting_of result.now) }
    {
        &self.waiting[rank as usize - 1]
    }

    /// The pairs of ranks, the first of which must land before the next.
    pub fn pairs(&self) -> &Pairs
        ensures { result.now ≡ self.now.pairs }
    {
        &self.pairs
    }

    /// The same problem.
    pub fn copy(&self) -> Result<Problem, AllocError>
        ensures { IfOk result (λ problem. problem ≡ self.now) }
    {
        let waiting = copy_all(&self.waiting)?;
        Ok(Problem {
            head: self.head,
            waiting,
            pairs: self.pairs,
        })
    }
}

fn copy_all(waiting: &Vec<Waiting>) -> Result<Vec<Waiting>, AllocError>
    ensures { IfOk result (λ copied. copied.items ≡ waiting.now.items) }
{
    let mut copied = Vec::with_capacity(*waiting.allocator(), waiting.len())?;
    for flight in waiting {
        let times = flight.times.copy()?;
        copied.push(Waiting {
            callsign: flight.callsign,
            category: flight.category,
            eta: flight.eta,
            weight: flight.weight,
            passed: flight.passed,
            times,
        })?;
    }
    Ok(copied)
}
