ghost use Rattle.std.specs.Prelude.{◌≡◌, ℕ};
ghost use Rattle.landing_rules.specs.Problem as rules;

/// What plans a problem, again and again.
///
/// A planner has three meanings: its `k`, which no call changes; how many steps are `due` for a problem, which is one
/// number; and whether it `holds` a problem, as it does with each problem that it planned last. The call that plans is a
/// method of the planner's own type: what passes a gate in threads can't stand in a trait.
pub trait Planner: Drop {
    ghost k: { Self → ℕ };

    ghost due: { Self → rules.Problem → ℕ → Type 0 };

    ghost due_is_one: { (planner : Self) (p : rules.Problem) (a b : ℕ) → due planner p a
        → due planner p b → a ≡ b };

    ghost holds: { Self → rules.Problem → Type 0 };
}
