//! Legal prefixes.

ghost use Rattle.std.specs.Prelude.{◌↔◌, ℕ, ◌≤◌, List};
ghost use Rattle.cps_theory.specs.LegalPrefix.{IsLegalPrefix, Legal, OrderRules};

/// A prefix that is permitted step by step is legal as a whole, and a legal one is permitted step by step.
pub fn legal_step_by_step()
    ensures { (g : OrderRules) → ((r : ℕ) → g.back r ≤ g.most) → (rs : List ℕ)
        → Legal g rs ↔ IsLegalPrefix g rs }
{}
