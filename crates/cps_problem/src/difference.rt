//! Up to which rank two problems are the same.

ghost use Rattle.std.specs.Prelude.{◌≡◌, ℕ, ◌+◌, ◌<◌, ◌≤◌, ◌↔◌, IsTrue, length};
ghost use Rattle.cps_base.specs.Limits.{most_waiting};
ghost use Rattle.precedence.specs.Pairs.{must_precede};
ghost use Rattle.cps_problem.specs.FirstDifference.{HaveSameHead, HaveSameFlights, HaveSameBelow, HasPredecessorFrom, HaveSameAt, HaveSamePredecessors, IsWithinBoth, IsFirstDifference};
ghost use Rattle.cps_problem.specs.Seen.{waiting_of};

use crate::{Problem, Waiting};
use cps_base::Callsign;
use landing_rules::Objective;
use landing_windows::OpenTimes;
use wake_table::{Category, PairTable};

fn is_same_callsign(a: &Callsign, b: &Callsign) -> bool
    ensures { IsTrue result ↔ (a.now ≡ b.now) }
{
    a == b
}

fn is_same_category(a: Category, b: Category) -> bool
    ensures { IsTrue result ↔ (a ≡ b) }
{
    a == b
}

fn are_same_times(a: &OpenTimes, b: &OpenTimes) -> bool
    ensures { IsTrue result ↔ (a.now ≡ b.now) }
{
    a == b
}

// Whether two waiting flights are the same.
fn is_same_flight(a: &Waiting, b: &Waiting) -> bool
    ensures { IsTrue result ↔ (waiting_of a.now ≡ waiting_of b.now) }
{
    if !is_same_callsign(&a.callsign, &b.callsign) || !is_same_category(a.category, b.category) {
        return false;
    }
    if a.eta != b.eta || a.weight != b.weight || a.passed != b.passed {
        return false;
    }
    are_same_times(&a.times, &b.times)
}

fn is_same_table(a: &PairTable, b: &PairTable) -> bool
    ensures { IsTrue result ↔ (a.now ≡ b.now) }
{
    a == b
}

fn is_same_objective(a: Objective, b: Objective) -> bool
    ensures { IsTrue result ↔ (a ≡ b) }
{
    a == b
}

// Whether the frozen flights that land last are the same in second and category, or none is frozen.
fn is_same_last(a: Option<(u32, Category)>, b: Option<(u32, Category)>) -> bool
    ensures { IsTrue result ↔ (a ≡ b) }
{
    match (a, b) {
        (None, None) => true,
        (Some(a), Some(b)) => a.0 == b.0 && is_same_category(a.1, b.1),
        _ => false,
    }
}

impl Problem {
    // Whether both problems have the same separations, limit of shift, objective, horizon and last frozen landing.
    fn has_same_head(&self, other: &Problem) -> bool
        ensures { IsTrue result ↔ HaveSameHead self.now other.now }
    {
        let a = self.head();
        let b = other.head();
        if !is_same_table(&a.table, &b.table) || a.k != b.k {
            return false;
        }
        if !is_same_objective(a.objective, b.objective) || a.horizon != b.horizon {
            return false;
        }
        is_same_last(a.last, b.last)
    }

    // The greatest number, at most one above the smaller number of flights, below which the flights are equal.
    fn same_flights(&self, other: &Problem) -> u8
        ensures from_one { 1 ≤ result }
        ensures within { IsWithinBoth self.now other.now result }
        ensures same { HaveSameFlights self.now other.now result }
        ensures greatest { (s : ℕ) → IsWithinBoth self.now other.now s
            → HaveSameFlights self.now other.now s → s ≤ result }
    {
        let n = self.len().min(other.len());
        let differs = |rank: &u8| !is_same_flight(self.flight(*rank), other.flight(*rank));
        (1..n + 1).find(differs).unwrap_or(n + 1)
    }

    // Whether rank j has the same predecessors below r in both problems.
    fn has_same_below(&self, other: &Problem, r: u8, j: u8) -> bool
        requires r { (1 ≤ r) × (r ≤ most_waiting + 1) }
        requires j { (1 ≤ j) × (j < r) }
        ensures { IsTrue result ↔ HaveSameBelow self.now other.now r j }
    {
        (1..r).all(|i| self.pairs().must_precede(i, j) == other.pairs().must_precede(i, j))
    }

    // Whether rank j has a predecessor of rank r or above.
    fn has_predecessor_from(&self, r: u8, j: u8) -> bool
        requires r { 1 ≤ r }
        requires j { (1 ≤ j) × (j ≤ length self.now.flights) }
        ensures { IsTrue result ↔ HasPredecessorFrom self.now r j }
    {
        // The problem is well formed, and its pairs are of its ranks.
        let _ranks = self.head();
        (r..self.len() + 1).any(|i| self.pairs().must_precede(i, j))
    }

    // The same, and whether it has a predecessor of rank r or above in both or in neither.
    fn has_same_at(&self, other: &Problem, r: u8, j: u8) -> bool
        requires within { IsWithinBoth self.now other.now r }
        requires j { (1 ≤ j) × (j < r) }
        ensures { IsTrue result ↔ HaveSameAt self.now other.now r j }
    {
        // At most `MOST_WAITING` flights wait, so that j is a rank of both problems.
        let _few = self.len();
        if !self.has_same_below(other, r, j) {
            return false;
        }
        self.has_predecessor_from(r, j) == other.has_predecessor_from(r, j)
    }

    // Whether it is so with each rank below r.
    fn has_same_predecessors(&self, other: &Problem, r: u8) -> bool
        requires from_one { 1 ≤ r }
        requires within { IsWithinBoth self.now other.now r }
        ensures { IsTrue result ↔ HaveSamePredecessors self.now other.now r }
    {
        // At most `MOST_WAITING` flights wait, so that each j below r is a rank of both problems.
        let _few = self.len();
        (1..r).all(|j| self.has_same_at(other, r, j))
    }

    /// The first rank at which two problems differ for those who land early: the greatest number, at most one above the
    /// smaller number of flights, up to which they agree. It is 1 where their heads differ in more than the base.
    pub fn first_difference(&self, other: &Problem) -> u8
        ensures { IsFirstDifference self.now other.now result }
    {
        if !self.has_same_head(other) {
            return 1;
        }
        let most = self.same_flights(other);
        let agreed = (2..=most)
            .rev()
            .find(|r| self.has_same_predecessors(other, *r));
        agreed.unwrap_or(1)
    }
}
