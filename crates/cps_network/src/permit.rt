//! Whether a rank may land next, and the window that then follows.

ghost use Rattle.std.specs.Prelude.{◌≡◌, ℕ, pos, ◌+◌, ◌*◌, ◌/◌, ◌<◌, ◌-◌, ◌≤◌, ◌↔◌, List, ◌∷◌, length, max, min, reverse, IsTrue};
ghost use Rattle.cps_base.specs.Limits.{greatest_k, most_waiting};
ghost use Rattle.precedence.specs.Pairs.{HasBit};
ghost use Rattle.cps_nodes.specs.Windows.{IsPlaced};
ghost use Rattle.cps_nodes.specs.Ranks.{window_of};
ghost use Rattle.cps_nodes.specs.Laws.{offset_after};
ghost use Rattle.cps_problem.specs.Seen.{passed_at};
ghost use Rattle.cps_network.specs.Permits.{IsPermitted};
ghost use Rattle.cps_theory.specs.LegalPrefix.{IsLegalPrefix};
ghost use Rattle.landing_joint.specs.RankedProblem.{ranked};

use crate::laws::prefix_laws;
use cps_nodes::Window;
use cps_problem::Problem;

// The most places by which a flight may leave its first-come place.
pub(crate) fn most_shift(problem: &Problem) -> u8
    ensures k { result ≡ problem.now.k }
    ensures near { result ≤ greatest_k }
    ensures few { length problem.now.flights ≤ most_waiting }
{
    problem.head().k
}

// The half-open range of the ranks in reach of a stage: those at most k places from the next one.
pub(crate) fn reach(problem: &Problem, stage: u8) -> (u8, u8)
    requires { stage < length problem.now.flights }
    ensures first { result.0 ≡ max (stage + 1 - problem.now.k) 1 }
    ensures end { result.1 ≡ min (stage + 1 + problem.now.k) (length problem.now.flights) + 1 }
    ensures few { length problem.now.flights ≤ most_waiting }
{
    let k = most_shift(problem);
    let first = (stage + 1).saturating_sub(k).max(1);
    let end = (stage + 1 + k).min(problem.len()) + 1;
    (first, end)
}

// The ranks that are due by a stage, as bits: those at most stage - k.
pub(crate) fn due_set(stage: u8, k: u8) -> u64
    requires stage { stage ≤ most_waiting }
    requires near { k ≤ greatest_k }
    ensures { (rank : ℕ) → HasBit result rank ↔ (rank + k ≤ stage) }
{
    if stage < k {
        return 0;
    }
    (1 << (stage - k + 1)) - 1
}

// The ranks that a window of a stage places, as bits.
pub(crate) fn placed_set<const W: usize>(window: &Window<W>, stage: u8, due: u64) -> u64
    requires stage { stage ≤ most_waiting }
    requires due { (rank : ℕ) → HasBit due rank ↔ (rank + W / 2 ≤ stage) }
    ensures { (rank : ℕ) → 1 ≤ rank → HasBit result rank ↔ IsPlaced window.now (pos stage) (pos
        rank) }
{
    due | window.held_at(stage)
}

// The offset of a rank that lands after so many.
fn offset_of(landed: u8, rank: u8) -> i8
    requires landed { landed ≤ most_waiting }
    requires rank { rank ≤ most_waiting }
    ensures { result ≡ offset_after landed rank }
{
    rank as i8 - (landed + 1) as i8
}

// Whether a rank that lands after so many is no further behind its place than the flights that passed it leave.
pub(crate) fn is_in_time(problem: &Problem, landed: u8, rank: u8) -> bool
    requires landed { landed < length problem.now.flights }
    requires rank { (1 ≤ rank) × (rank ≤ length problem.now.flights) }
    ensures { IsTrue result ↔ (landed + 1 + passed_at problem.now rank ≤ rank + problem.now.k) }
{
    let k = most_shift(problem);
    landed + 1 + problem.passed(rank) <= rank + k
}

// Whether a rank that is at most k from the next place is permitted after a window. Each test is made, since to foresee which
// of them fails first costs more.
pub(crate) fn may_follow<const W: usize>(
    problem: &Problem,
    window: &Window<W>,
    stage: u8,
    rank: u8,
    placed: u64,
) -> bool
    requires width { W ≡ 2 * problem.now.k + 1 }
    requires stage { stage < length problem.now.flights }
    requires placed { (first : ℕ) → 1 ≤ first → HasBit placed first ↔ IsPlaced window.now (pos
        stage) (pos first) }
    requires rank { (1 ≤ rank) × (rank ≤ length problem.now.flights) }
    requires reach { (rank ≤ stage + 1 + problem.now.k) × (stage + 1 ≤ rank + problem.now.k) }
    ensures { IsTrue result ↔ IsPermitted problem.now stage window.now rank }
{
    // k is at most 3, and at most `MOST_WAITING` flights wait.
    let _near = problem.head();
    let is_accepted = window.accepts(offset_of(stage, rank));
    let in_time = is_in_time(problem, stage, rank);
    let follows_all = problem.pairs().all_before(rank, placed);
    is_accepted & in_time & follows_all
}

// Whether a rank is permitted after a window of a stage.
fn permits<const W: usize>(problem: &Problem, window: &Window<W>, stage: u8, rank: u8) -> bool
    requires width { W ≡ 2 * problem.now.k + 1 }
    requires stage { stage < length problem.now.flights }
    ensures { IsTrue result ↔ IsPermitted problem.now stage window.now rank }
{
    let k = most_shift(problem);
    let n = problem.len();
    if rank < 1 || rank > n {
        return false;
    }
    if rank > stage + 1 + k || stage + 1 > rank + k {
        return false;
    }
    let placed = placed_set(window, stage, due_set(stage, k));
    may_follow(problem, window, stage, rank, placed)
}

/// Whether a rank is permitted after a window of a stage. To be permitted step by step is to be legal as a whole: for every
/// legal prefix that ends in the window, the prefix with the rank is legal exactly where the rank is permitted.
pub fn is_permitted<const W: usize>(
    problem: &Problem,
    window: &Window<W>,
    stage: u8,
    rank: u8,
) -> bool
    requires width { W ≡ 2 * problem.now.k + 1 }
    requires stage { stage < length problem.now.flights }
    ensures step { IsTrue result ↔ IsPermitted problem.now stage window.now rank }

    // A prefix is a list of ranks, the latest first.
    ensures whole { (ranks : List ℕ) → IsLegalPrefix (ranked problem.now).rules ranks
        → window.now ≡ window_of W (reverse ranks) → stage ≡ length ranks
        → (IsTrue result ↔ IsLegalPrefix (ranked problem.now).rules (rank ∷ ranks)) }
{
    prefix_laws::<W>(problem);
    permits(problem, window, stage, rank)
}
