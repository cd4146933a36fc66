//! Least labels, pairs and their dominance.

ghost use Rattle.std.specs.Prelude.{◌≡◌, ℕ, ◌≤◌, ◌⊎◌, ◌∷◌, List, Option};
ghost use Rattle.cps_theory.specs.Separation.{Landing};
ghost use Rattle.cps_theory.specs.LandingTrail.{pair_of, ranks};
ghost use Rattle.cps_theory.specs.Labels.{InPairs, NeverCheaper, NoWorse, Pair};
ghost use Rattle.cps_theory.specs.LegalPrefix.{Legal};
ghost use Rattle.cps_theory.specs.UndominatedPairs.{Covers, InPairOrder, Staircase, add_pair, sweep};
ghost use Rattle.cps_theory.specs.ClosedSets.{ClosedPairs};
ghost use Rattle.cps_theory.specs.Feasible.{RankedProblem, next_from};
ghost use Rattle.cps_theory.specs.ProblemNetwork.{FindsFirstOpen, LandedIn};

/// Pairs listed for each legal prefix that are closed under successor pairs have one no later and no dearer
/// for every landing of a legal prefix.
pub fn closed_pairs_cover()
    ensures { (p : RankedProblem) (cost : ℕ → ℕ → ℕ) → NeverCheaper cost →
        (first : ℕ → ℕ → Option ℕ) → FindsFirstOpen p first →
        (lists : List ℕ → List Pair) →
        ClosedPairs first (next_from p) cost (Legal p.rules) (λ rs q. InPairs q (lists rs)) →
        (xs : List Landing) → Legal p.rules (ranks xs) → LandedIn p xs →
        (q : Pair) × InPairs q (lists (ranks xs)) × NoWorse q (pair_of cost xs) }
{}

/// A pair put among others in place of those that it is no worse than, and a sweep of a sorted list into a
/// staircase, leave for each pair one no later and no dearer; a staircase is told by its pairs.
pub fn dropping_worse_pairs_loses_nothing()
    ensures added { (q : Pair) (qs : List Pair) → Covers (q ∷ qs) (add_pair q qs) }
    ensures swept { (c : ℕ) (ps : List Pair) → InPairOrder ps → (q : Pair) → InPairs q ps →
        ((o : Pair) × InPairs o (sweep c ps) × NoWorse o q) ⊎ (c ≤ q.1) }
    ensures staircase { (c : ℕ) (ps : List Pair) → InPairOrder ps → Staircase (sweep c ps) }
    ensures same { (ps qs : List Pair) → Staircase ps → Staircase qs →
        ((q : Pair) → InPairs q ps → InPairs q qs) → ((q : Pair) → InPairs q qs → InPairs q ps)
        → ps ≡ qs }
{}
