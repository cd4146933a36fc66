//! Loops over a landing order.

ghost use Rattle.std.specs.Prelude.{◌≡◌, ℕ, ◌+◌, ◌-◌, ◌<◌, ◌≤◌, ◌∷◌, List, All, length, Option, Some, None, take, reverse, get_or, set};
ghost use Rattle.cps_theory.specs.RankLists.{Distinct};
ghost use Rattle.cps_theory.specs.Separation.{Landing};
ghost use Rattle.cps_theory.specs.LandingTrail.{latest_landing};
ghost use Rattle.cps_theory.specs.Feasible.{at_seconds, earliest};

/// What a loop over a landing order needs: its front so far, reversed, is a landing trail, and one more
/// flight lands behind it at its first open second or nowhere.
pub fn one_more_of_an_order()
    ensures front { (order : List ℕ) (i d : ℕ) → i < length order →
        reverse (take (i + 1) order) ≡ get_or order i d ∷ reverse (take i order) }
    ensures lands { (first : ℕ → ℕ → Option ℕ) (after : ℕ → ℕ → ℕ → ℕ) (r u : ℕ) (rs : List ℕ)
        (xs : List Landing) →
        earliest first after rs ≡ Some xs →
        first r (after (latest_landing xs).0 (latest_landing xs).1 r) ≡ Some u →
        earliest first after (r ∷ rs) ≡ Some ((r, u) ∷ xs) }
    ensures stops { (first : ℕ → ℕ → Option ℕ) (after : ℕ → ℕ → ℕ → ℕ) (order : List ℕ) (i d : ℕ)
        (xs : List Landing) → i < length order →
        earliest first after (reverse (take i order)) ≡ Some xs →
        first (get_or order i d) (after (latest_landing xs).0 (latest_landing xs).1 (get_or order
        i d)) ≡ None →
        earliest first after (reverse order) ≡ None }
    ensures seconds { (into order : List ℕ) (i u : ℕ) → i < length order →
        All (λ r. (1 ≤ r) × (r ≤ length into)) order → Distinct (reverse order) →
        at_seconds (λ x. get_or (set into (get_or order i 0 - 1) u) (x - 1) 0)
        (reverse (take (i + 1) order))
        ≡ (get_or order i 0, u) ∷ at_seconds (λ x. get_or into (x - 1) 0)
        (reverse (take i order)) }
{}
