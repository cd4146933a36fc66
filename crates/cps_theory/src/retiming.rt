//! An order landed at its earliest seconds.

ghost use Rattle.std.specs.Prelude.{◌≡◌, ℕ, ◌≤◌, Option, Some};
ghost use Rattle.cps_theory.specs.RankLists.{IsRank};
ghost use Rattle.cps_theory.specs.Feasible.{Feasible, RankedProblem, SameOrder, SoundProblem, Tight, at_seconds, earliest, next_from};
ghost use Rattle.cps_theory.specs.ProblemNetwork.{FindsFirstOpen};
ghost use Rattle.cps_theory.specs.laws.LandingOrder.{sorted};

/// Landing a feasible order at its earliest seconds gives a tight schedule in the same order, no later for
/// any flight; in one order there is one tight schedule.
pub fn tight_in_its_order()
    ensures tightens { (p : RankedProblem) → SoundProblem p →
        (first : ℕ → ℕ → Option ℕ) → FindsFirstOpen p first →
        (t : ℕ → ℕ) → Feasible p t →
        (u : ℕ → ℕ) × Tight p u × SameOrder p.rules.count t u
        × ((r : ℕ) → IsRank p.rules.count r → u r ≤ t r)
        × (earliest first (next_from p) (sorted t p.rules.count)
        ≡ Some (at_seconds u (sorted t p.rules.count))) }
    ensures unique { (p : RankedProblem) (t u : ℕ → ℕ) → Tight p t → Tight p u
        → SameOrder p.rules.count t u →
        (r : ℕ) → IsRank p.rules.count r → t r ≡ u r }
{}
