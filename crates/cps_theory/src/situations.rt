//! The problem of a situation.

ghost use Rattle.std.specs.Prelude.{◌≡◌, ◌↔◌, ℕ};
ghost use Rattle.cps_theory.specs.RankLists.{In};
ghost use Rattle.cps_theory.specs.Feasible.{Feasible, RankedProblem};
ghost use Rattle.cps_theory.specs.NumberedSituation.{FeasibleIn, NumberedSituation, ProblemOf, SoundSituation};
ghost use Rattle.cps_theory.specs.Objectives.{SameObjectives};

/// The feasible schedules of a situation are its frozen landings with feasible seconds of its problem, and
/// its objective is that of its problem with the frozen part.
pub fn problem_of_a_situation()
    ensures feasible { (s : NumberedSituation) (p : RankedProblem) (at : ℕ → ℕ)
        → SoundSituation s → ProblemOf s p at →
        (t : ℕ → ℕ) →
        FeasibleIn s t ↔ (((x : ℕ) → In x s.frozen → t x ≡ s.frozen_at x)
        × Feasible p (λ r. t (at r))) }
    ensures objectives { (s : NumberedSituation) (p : RankedProblem) (at : ℕ → ℕ)
        → SoundSituation s → ProblemOf s p at →
        (t : ℕ → ℕ) → FeasibleIn s t → SameObjectives s p at t }
{}
