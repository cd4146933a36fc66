//! Least values, best schedules, and the first of them.

ghost use Rattle.std.specs.Prelude.{◌≡◌, ℕ, ◌+◌, ◌≤◌, List, length, Bool, true, Option, Some, nat_le};
ghost use Rattle.cps_theory.specs.RankLists.{IsRank};
ghost use Rattle.cps_theory.specs.Separation.{Landing};
ghost use Rattle.cps_theory.specs.LandingTrail.{pair_of, ranks};
ghost use Rattle.cps_theory.specs.Labels.{InPairs, NeverCheaper, Pair};
ghost use Rattle.cps_theory.specs.LegalPrefix.{Legal};
ghost use Rattle.cps_theory.specs.Patterns.{PatternNode, PatternPermits, pattern_newest, pattern_push};
ghost use Rattle.cps_theory.specs.Feasible.{Feasible, IsBest, RankedProblem, SoundProblem, Tight, earliest, next_from, second_and_cost, second_in};
ghost use Rattle.cps_theory.specs.ProblemNetwork.{FindsFirstOpen, IsObjective, LandedIn};
ghost use Rattle.cps_theory.specs.CompletingPairs.{KeptCompleting, NoEarlierNoDearer};
ghost use Rattle.cps_theory.specs.FirstBest.{BuiltByNodes, CompletesNode, FirstBest, ListsCompleting, ReachedIn};

/// The seconds of a feasible schedule land a legal order of all flights, and such landings are those of a
/// feasible schedule.
pub fn legal_landings_are_feasible()
    ensures lands { (p : RankedProblem) (cost : ℕ → ℕ → ℕ) → SoundProblem p → (t : ℕ → ℕ)
        → Feasible p t →
        (xs : List Landing) × Legal p.rules (ranks xs) × LandedIn p xs
        × (length (ranks xs) ≡ p.rules.count)
        × (pair_of cost xs ≡ second_and_cost cost p.rules.count t) }
    ensures feasible { (p : RankedProblem) (cost : ℕ → ℕ → ℕ) → SoundProblem p →
        (xs : List Landing) → Legal p.rules (ranks xs) → LandedIn p xs → length (ranks xs)
        ≡ p.rules.count →
        Feasible p (second_in xs) × (pair_of cost xs ≡ second_and_cost cost p.rules.count (second_in xs)) }
{}

/// Of a feasible schedule of least value, the earliest landings in its order are best and tight.
pub fn least_is_best_and_tight()
    ensures { (p : RankedProblem) → SoundProblem p → (first : ℕ → ℕ → Option ℕ)
        → FindsFirstOpen p first →
        (cost : ℕ → ℕ → ℕ) → NeverCheaper cost → (value : Pair → ℕ) → IsObjective value →
        (t : ℕ → ℕ) → Feasible p t →
        ((u : ℕ → ℕ) → Feasible p u → value (second_and_cost cost p.rules.count t)
        ≤ value (second_and_cost cost p.rules.count u)) →
        (u : ℕ → ℕ) × IsBest p (λ v. value (second_and_cost cost p.rules.count v)) u × Tight p u
        × (value (second_and_cost cost p.rules.count u) ≡ value (second_and_cost cost p.rules.count t)) }
{}

/// The completing pairs of a node that is not of the last stage, from those kept of its successors.
pub fn completing_pairs_from_successors()
    ensures { (p : RankedProblem) (cost : ℕ → ℕ → ℕ) → SoundProblem p → NeverCheaper cost →
        (first : ℕ → ℕ → Option ℕ) → FindsFirstOpen p first →
        (low : ℕ → Bool) → ((t u : ℕ) → t ≤ u → low u ≡ true → low t ≡ true) →
        (lists : PatternNode → List Pair) (w : PatternNode) (fresh : List Pair)
        → (w.0 ≡ p.rules.count → ⊥) →
        ((r : ℕ) → PatternPermits p.rules w r →
        KeptCompleting (CompletesNode p cost low (pattern_push p.rules w r))
        (λ q. InPairs q (lists (pattern_push p.rules w r)))) →
        ((q : Pair) → InPairs q fresh →
        (p.is_open (pattern_newest w) q.0 ≡ true) × ReachedIn p w q.0 × (low q.0 ≡ true)
        × ((r : ℕ) × (x : ℕ) × (o : Pair) × PatternPermits p.rules w r
        × (first r (next_from p (pattern_newest w) q.0 r) ≡ Some x)
        × InPairs o (lists (pattern_push p.rules w r))
        × (x ≤ o.0) × (cost r x + o.1 ≡ q.1))) →
        ((b r x : ℕ) (o : Pair) → p.is_open (pattern_newest w) b ≡ true → ReachedIn p w b → low b
        ≡ true →
        PatternPermits p.rules w r → first r (next_from p (pattern_newest w) b r) ≡ Some x →
        InPairs o (lists (pattern_push p.rules w r)) → x ≤ o.0 →
        (q : Pair) × InPairs q fresh × NoEarlierNoDearer q (b, cost r x + o.1)) →
        KeptCompleting (CompletesNode p cost low w) (λ q. InPairs q fresh) }
{}

/// Where a schedule is feasible there is a first best one.
pub fn feasible_has_first_best()
    ensures { (p : RankedProblem) → SoundProblem p → (first : ℕ → ℕ → Option ℕ)
        → FindsFirstOpen p first →
        (cost : ℕ → ℕ → ℕ) → NeverCheaper cost → (value : Pair → ℕ) → IsObjective value →
        (t : ℕ → ℕ) → Feasible p t →
        (u : ℕ → ℕ) × FirstBest p (λ v. value (second_and_cost cost p.rules.count v)) u }
{}

/// Taking at each place the least rank that can still be completed builds the first best schedule, and there
/// is at most one.
pub fn least_choices_are_first_best()
    ensures makespan { (p : RankedProblem) → SoundProblem p → (first : ℕ → ℕ → Option ℕ)
        → FindsFirstOpen p first →
        (v : ℕ) (lists : PatternNode → List Pair)
        → ListsCompleting p (λ x u. 0) (λ t. nat_le t v) lists →
        ((u : ℕ → ℕ) → Feasible p u → v ≤ (second_and_cost (λ x t. 0) p.rules.count u).0) →
        (zs : List Landing) → Legal p.rules (ranks zs) → length (ranks zs) ≡ p.rules.count →
        BuiltByNodes p first (λ x t. 0) lists 0 zs →
        FirstBest p (λ u. (second_and_cost (λ x t. 0) p.rules.count u).0) (second_in zs)
        × (earliest first (next_from p) (ranks zs) ≡ Some zs) }
    ensures delay { (p : RankedProblem) → SoundProblem p → (first : ℕ → ℕ → Option ℕ)
        → FindsFirstOpen p first →
        (cost : ℕ → ℕ → ℕ) → NeverCheaper cost →
        (base budget : ℕ) (lists : PatternNode → List Pair)
        → ListsCompleting p cost (λ t. true) lists →
        ((u : ℕ → ℕ) → Feasible p u → base + budget ≤ base + (second_and_cost cost p.rules.count u).1) →
        (zs : List Landing) → Legal p.rules (ranks zs) → length (ranks zs) ≡ p.rules.count →
        BuiltByNodes p first cost lists budget zs →
        FirstBest p (λ u. base + (second_and_cost cost p.rules.count u).1) (second_in zs)
        × (earliest first (next_from p) (ranks zs) ≡ Some zs) }
    ensures unique { (p : RankedProblem) → SoundProblem p → (value : (ℕ → ℕ) → ℕ) (t u : ℕ → ℕ) →
        FirstBest p value t → FirstBest p value u →
        (r : ℕ) → IsRank p.rules.count r → t r ≡ u r }
{}
