//! Certificates and their checker.

ghost use Rattle.std.specs.Prelude.{◌≡◌, ℕ, ◌<◌, ◌≤◌, ◌∷◌, List, [], length, true, Option, None, get_or};
ghost use Rattle.std.specs.List.{list_any};
ghost use Rattle.std.specs.List.Sorted.{IsNonDecreasingBy};
ghost use Rattle.std.specs.Ordering.{ordering_index};
ghost use Rattle.std.specs.declared.cmp.Ordering.TheVariants.{Equal};
ghost use Rattle.cps_theory.specs.Separation.{Landing};
ghost use Rattle.cps_theory.specs.LandingTrail.{pair_of, ranks};
ghost use Rattle.cps_theory.specs.Labels.{InPairs, NeverCheaper, NoWorse, Pair, no_worse};
ghost use Rattle.cps_theory.specs.LegalPrefix.{Legal, OrderRules};
ghost use Rattle.cps_theory.specs.Network.{Network};
ghost use Rattle.cps_theory.specs.Patterns.{IsShaped, PatternNode, PatternPermits, pattern_newest, pattern_node, pattern_push};
ghost use Rattle.cps_theory.specs.FirstFound.{element_from};
ghost use Rattle.cps_theory.specs.CertificateClosure.{InNodeOrder, covers, first_missed, is_final, is_final_below, missed_from, node_cmp};
ghost use Rattle.cps_theory.specs.Feasible.{Feasible, RankedProblem, SoundProblem, next_from, second_and_cost};
ghost use Rattle.cps_theory.specs.ProblemNetwork.{FindsFirstOpen, IsClosedCertificate, IsObjective, LandedIn};

/// The patterns of placed ranks are the nodes of a network of legal prefixes.
pub fn patterns_are_nodes()
    ensures { (g : OrderRules) → ((a r : ℕ) → g.before a r ≡ true → 1 ≤ a) →
        Network PatternNode (Legal g) (pattern_node g) (PatternPermits g) (pattern_push g) pattern_newest }
{}

/// The pattern of a legal prefix has the shape that a state of a certificate is to have: k of its 2k digits
/// are set, and its latest rank is near its place and placed.
pub fn legal_prefixes_have_their_shape()
    ensures { (g : OrderRules) → ((r : ℕ) → g.back r ≤ g.most) →
        (r : ℕ) (rs : List ℕ) → Legal g (r ∷ rs) →
        IsShaped g.most g.count (pattern_node g (r ∷ rs)) }
{}

/// A closed certificate has, for each landing of a legal prefix, a listed pair of its node that is no later
/// and no dearer.
pub fn closed_certificate_covers()
    ensures { (p : RankedProblem) (cost : ℕ → ℕ → ℕ) → SoundProblem p → NeverCheaper cost →
        (first : ℕ → ℕ → Option ℕ) → FindsFirstOpen p first →
        (lists : PatternNode → List Pair) → IsClosedCertificate p first cost lists →
        (xs : List Landing) → Legal p.rules (ranks xs) → LandedIn p xs →
        (q : Pair) × InPairs q (lists (pattern_node p.rules (ranks xs)))
        × NoWorse q (pair_of cost xs) }
{}

/// A certificate whose listed pairs are closed under successor pairs bounds every feasible schedule by the
/// least value of its pairs of the last stage; with no pair of the last stage nothing is feasible.
pub fn closed_certificate_bounds()
    ensures optimal { (p : RankedProblem) (cost : ℕ → ℕ → ℕ) → SoundProblem p → NeverCheaper cost →
        (first : ℕ → ℕ → Option ℕ) → FindsFirstOpen p first →
        (lists : PatternNode → List Pair) → IsClosedCertificate p first cost lists →
        (value : Pair → ℕ) → IsObjective value →
        (v : ℕ) → ((w : PatternNode) (q : Pair) → w.0 ≡ p.rules.count → InPairs q (lists w)
        → v ≤ value q) →
        (t : ℕ → ℕ) → Feasible p t → v ≤ value (second_and_cost cost p.rules.count t) }
    ensures infeasible { (p : RankedProblem) (cost : ℕ → ℕ → ℕ) → SoundProblem p
        → NeverCheaper cost →
        (first : ℕ → ℕ → Option ℕ) → FindsFirstOpen p first →
        (lists : PatternNode → List Pair) → IsClosedCertificate p first cost lists →
        ((w : PatternNode) (q : Pair) → w.0 ≡ p.rules.count → InPairs q (lists w) → ⊥) →
        (t : ℕ → ℕ) → Feasible p t → ⊥ }
{}

/// The tests of a checker: where no successor pair of the start or of a listed state is missed, and no state
/// of the last stage is below v, no feasible schedule is; and where there is no state of the last stage,
/// nothing is feasible. What else the states list does not matter.
pub fn accepted_certificate_bounds<S>()
    ensures optimal { (node_of : S → PatternNode) (pairs_of : S → List Pair) (p : RankedProblem)
        (cost : ℕ → ℕ → ℕ) → SoundProblem p →
        (first : ℕ → ℕ → Option ℕ) → FindsFirstOpen p first → NeverCheaper cost
        → (states : List S) →
        first_missed node_of pairs_of p.rules first (next_from p) cost states (pattern_node
        p.rules []) ((0, 0) ∷ []) ≡ None →
        missed_from node_of pairs_of p.rules first (next_from p) cost states 1 states ≡ None →
        (value : Pair → ℕ) → IsObjective value → 1 ≤ p.rules.count → (v : ℕ) →
        element_from (is_final_below node_of pairs_of p.rules.count value v) 1 states ≡ None →
        (t : ℕ → ℕ) → Feasible p t → v ≤ value (second_and_cost cost p.rules.count t) }
    ensures infeasible { (node_of : S → PatternNode) (pairs_of : S → List Pair)
        (p : RankedProblem) (cost : ℕ → ℕ → ℕ) → SoundProblem p →
        (first : ℕ → ℕ → Option ℕ) → FindsFirstOpen p first → NeverCheaper cost
        → (states : List S) →
        first_missed node_of pairs_of p.rules first (next_from p) cost states (pattern_node
        p.rules []) ((0, 0) ∷ []) ≡ None →
        missed_from node_of pairs_of p.rules first (next_from p) cost states 1 states ≡ None →
        1 ≤ p.rules.count → element_from (is_final node_of pairs_of p.rules.count) 1 states
        ≡ None →
        (t : ℕ → ℕ) → Feasible p t → ⊥ }
{}

/// Where the states stand in the order of their nodes, a binary search finds the state of a node, and what it
/// lists is all that is listed there.
pub fn states_in_order_are_found<S>()
    ensures found { (node_of : S → PatternNode) (pairs_of : S → List Pair) (w : PatternNode)
        (q : Pair) (states : List S) →
        InNodeOrder node_of pairs_of states → (i : ℕ) (d : S) → i < length states →
        node_cmp (node_of (get_or states i d)) w ≡ Equal →
        covers node_of pairs_of states w q ≡ list_any (λ o. no_worse o q) (pairs_of
        (get_or states i d)) }
    ensures rising { (node_of : S → PatternNode) (pairs_of : S → List Pair) (w : PatternNode)
        (states : List S) →
        InNodeOrder node_of pairs_of states →
        IsNonDecreasingBy (λ s. ordering_index (node_cmp (node_of s) w)) states }
{}
