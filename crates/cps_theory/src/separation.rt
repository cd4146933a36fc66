//! Separation of neighbours, of all pairs, and behind frozen landings.

ghost use Rattle.std.specs.Prelude.{ℕ, ◌+◌, ◌<◌, ◌≤◌, ◌++◌, List};
ghost use Rattle.cps_theory.specs.RankLists.{In};
ghost use Rattle.cps_theory.specs.NumberedSituation.{AllSeparated};

/// Where x is the last of the frozen flights, which land before the horizon: all flights keep the separation
/// exactly where the frozen ones do, the waiting ones do, and each waiting one does after x.
pub fn last_frozen_separates_all()
    ensures joined { (s : ℕ → ℕ → ℕ) → ((a b c : ℕ) → s a c ≤ s a b + s b c) →
        (t : ℕ → ℕ) (h x : ℕ) (frozen waiting : List ℕ) →
        In x frozen → ((f : ℕ) → In f frozen → t f ≤ t x) →
        ((f : ℕ) → In f frozen → t f < h) → ((g : ℕ) → In g waiting → h ≤ t g) →
        AllSeparated s t frozen → AllSeparated s t waiting →
        ((g : ℕ) → In g waiting → t x + s x g ≤ t g) →
        AllSeparated s t (frozen ++ waiting) }
    ensures parts { (s : ℕ → ℕ → ℕ) → ((a b c : ℕ) → s a c ≤ s a b + s b c) →
        (t : ℕ → ℕ) (h x : ℕ) (frozen waiting : List ℕ) →
        In x frozen → ((f : ℕ) → In f frozen → t f ≤ t x) →
        ((f : ℕ) → In f frozen → t f < h) → ((g : ℕ) → In g waiting → h ≤ t g) →
        AllSeparated s t (frozen ++ waiting) →
        AllSeparated s t waiting × ((g : ℕ) → In g waiting → t x + s x g ≤ t g) }
{}
