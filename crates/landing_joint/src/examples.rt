//! What the laws of the carry ask is needed: a small run, checked against the definitions by computation.
#![tactic(auto, unfolding(wake_table::specs::Table::separation))]

ghost use Rattle.std.specs.Prelude.{◌≡◌, ◌∷◌, [], IsTrue, IsFalse, codes, None, map};
ghost use Rattle.landing_rules.specs.Events.{Clock};
ghost use Rattle.landing_rules.specs.Testing.{is_feasible};
ghost use Rattle.landing_joint.specs.PassedOver.{stands_ahead, passing_in_step};
ghost use Rattle.landing_joint.specs.PassedExamples.{line, passed_plan, passed_line, longer_line, newcomer_ahead, again_plan, newcomer_plan, shown};

/// At k = 2 a flight that is first in line is passed by two. A third may not pass it, unless a newcomer comes to stand
/// ahead of it.
pub fn newcomers_ahead_let_more_pass()
    ensures keeps { IsTrue (is_feasible line passed_plan) }
    ensures two { passing_in_step (shown line passed_plan) (Clock 950) None (codes "X1") ≡ 2 }
    ensures counts { map (λ a. a.passed) passed_line.active ≡ 2 ∷ 0 ∷ 0 ∷ [] }
    ensures no_third { IsFalse (is_feasible longer_line again_plan) }
    ensures ahead { IsTrue (stands_ahead newcomer_ahead (codes "Z1") (codes "X1")) }
    ensures third { IsTrue (is_feasible newcomer_ahead newcomer_plan) }
    ensures passes { passing_in_step (shown newcomer_ahead newcomer_plan) (Clock 1080) None
        (codes "X1") ≡ 1 }
{}
