//! Small situations whose best schedules are known, checked against the definitions by computation. Some schedules stand
//! beside one that breaks a rule: with another k, or a second earlier.
#![tactic(auto, unfolding(wake_table::specs::Table::separation))]

ghost use Rattle.std.specs.Prelude.{◌≡◌, ◌∷◌, [], ℕ, IsTrue, IsFalse, codes, None, Some, ◌++◌, ◌≤◌};
ghost use Rattle.landing_rules.specs.Testing.{is_feasible};
ghost use Rattle.landing_rules.specs.Examples.{pair, tight_pair, three};
ghost use Rattle.landing_rules.specs.Rules.{objective, IsBest};

/// Known schedules keep the rules, and break them with another k or a second less.
pub fn known_schedules_keep_the_rules()
    ensures first_come { IsTrue (is_feasible (pair 0) (1000 ∷ 1180 ∷ [])) }
    ensures too_early { IsFalse (is_feasible (pair 0) (1000 ∷ 1179 ∷ [])) }
    ensures swapped { IsTrue (is_feasible (pair 1) (1070 ∷ 1010 ∷ [])) }
    ensures not_swapped { IsFalse (is_feasible (pair 0) (1070 ∷ 1010 ∷ [])) }
    ensures three_one { IsTrue (is_feasible (three 1) (1000 ∷ 1240 ∷ 1180 ∷ [])) }
    ensures three_two { IsTrue (is_feasible (three 2) (1070 ∷ 1160 ∷ 1010 ∷ [])) }
    ensures three_not { IsFalse (is_feasible (three 1) (1070 ∷ 1160 ∷ 1010 ∷ [])) }
    ensures makespan { objective (three 2) (1070 ∷ 1160 ∷ 1010 ∷ []) ≡ 1160 }
{}

ghost use Rattle.landing_rules.specs.Text.{lines_text, plan_lines};

/// What is printed of known schedules.
pub fn known_schedules_print()
    ensures pair { lines_text (plan_lines
        (record { situation = pair 1; plan = Some (1070 ∷ 1010 ∷ []) })) ≡
        codes "makespan 1070" ++ 10 ∷ [] ++ codes "land F1 1010 waiting" ++ 10 ∷ [] ++ codes "land A1 1070 waiting" ++ 10 ∷ [] }
    ensures none { lines_text (plan_lines (record { situation = tight_pair; plan = None }))
        ≡ codes "infeasible" ++ 10 ∷ [] }
{}

/// No schedule of two flights at k = 0 ends before 1180.
pub fn first_come_ends_at_1180()
    ensures { (a b : ℕ) → IsTrue (is_feasible (pair 0) (a ∷ b ∷ []))
        → 1180 ≤ objective (pair 0) (a ∷ b ∷ []) }
{}

/// With windows that are too short there is no schedule.
pub fn short_windows_are_infeasible()
    ensures { (a b : ℕ) → IsFalse (is_feasible tight_pair (a ∷ b ∷ [])) }
{}

/// The best schedules of small situations.
pub fn known_schedules_are_best()
    ensures first_come { IsBest (pair 0) (1000 ∷ 1180 ∷ []) }
    ensures swapped { IsBest (pair 1) (1070 ∷ 1010 ∷ []) }
{}

/// No three flights end sooner.
pub fn three_flights_end_at_1240()
    ensures one { (a b c : ℕ) → IsTrue (is_feasible (three 1) (a ∷ b ∷ c ∷ []))
        → 1240 ≤ objective (three 1) (a ∷ b ∷ c ∷ []) }
{}

ghost use Rattle.std.specs.Prelude.{map};
ghost use Rattle.landing_rules.specs.Events.{refusal, situation_after, Clock, Close, Cancel, Add, Frozen, CoversFrozen, ClockBack, UnknownFlight};
ghost use Rattle.landing_rules.specs.Examples.{pair_at_900, carried_at_900, opened_at_900, f2};

/// What a clock event freezes, and what is refused then.
pub fn known_events_answer()
    ensures freezes { map (λ a. a.frozen) pair_at_900.active ≡ None ∷ Some 1010 ∷ [] }
    ensures covers { refusal pair_at_900 (Close (1000, 1020))
        ≡ Some (CoversFrozen (codes "F1") 1010) }
    ensures cancels { refusal pair_at_900 (Cancel (codes "F1")) ≡ Some (Frozen 1010) }
    ensures back { refusal pair_at_900 (Clock 800) ≡ Some (ClockBack 900) }
    ensures again { refusal pair_at_900 (Clock 900) ≡ None }
    ensures unknown { refusal pair_at_900 (Cancel (codes "A2"))
        ≡ Some (UnknownFlight (codes "A2")) }
    ensures added { IsTrue (is_feasible (situation_after pair_at_900 None (Add f2))
        (1130 ∷ 1010 ∷ 1070 ∷ [])) }
{}

/// A flight that was passed is not passed again.
pub fn passed_flights_are_not_passed_again()
    ensures count { map (λ a. a.passed) carried_at_900.active ≡ 1 ∷ 0 ∷ [] }
    ensures first { IsTrue (is_feasible (situation_after carried_at_900 None (Add f2))
        (1070 ∷ 1010 ∷ 1250 ∷ [])) }
    ensures not_passed { IsFalse (is_feasible (situation_after carried_at_900 None (Add f2))
        (1130 ∷ 1010 ∷ 1070 ∷ [])) }
    ensures opened { opened_at_900 ≡ pair_at_900 }
{}

ghost use Rattle.landing_rules.specs.Examples.{five};

/// Five flights by delay.
pub fn five_flights_by_delay()
    ensures keeps { IsTrue (is_feasible five (1000 ∷ 1180 ∷ 1240 ∷ 1350 ∷ 1410 ∷ [])) }
    ensures delay { objective five (1000 ∷ 1180 ∷ 1240 ∷ 1350 ∷ 1410 ∷ []) ≡ 1080 }
    ensures other { IsTrue (is_feasible five (1070 ∷ 1010 ∷ 1180 ∷ 1290 ∷ 1350 ∷ [])) }
    ensures more { objective five (1070 ∷ 1010 ∷ 1180 ∷ 1290 ∷ 1350 ∷ []) ≡ 1430 }
    ensures unlisted { IsFalse (is_feasible five (1000 ∷ 1180 ∷ 1240 ∷ 1410 ∷ 1350 ∷ [])) }
{}

ghost use Rattle.landing_rules.specs.Events.{Run, IsPlanShown};

/// A whole run of the pair with one clock event, and a pair without a plan.
pub fn known_runs_are_runs()
    ensures opened { IsPlanShown (pair 1) (Some (1070 ∷ 1010 ∷ [])) }
    ensures run { Run (record { situation = pair 1; plan = Some (1070 ∷ 1010 ∷ []) })
        (Clock 900 ∷ [])
        (record { answer = None; state = record { situation = pair_at_900; plan = Some (1070 ∷ 1010 ∷ []) } } ∷ []) }
    ensures none { IsPlanShown tight_pair None }
{}

ghost use Rattle.std.specs.Ordering.{nat_cmp, is_le};
ghost use Rattle.std.specs.Cmp.Lexicographic.{slice_cmp};
ghost use Rattle.landing_rules.specs.Examples.{closed_pair};
ghost use Rattle.landing_rules.specs.FirstBest.{order_of, order_of_list, IsFirstBest};

/// The ranks of waiting flights in landing order, and which order comes first.
pub fn known_orders_of_ranks()
    ensures three { order_of (three 2) (1070 ∷ 1160 ∷ 1010 ∷ []) ≡ 3 ∷ 1 ∷ 2 ∷ [] }
    ensures list { order_of_list (1070 ∷ 1160 ∷ 1010 ∷ []) ≡ 3 ∷ 1 ∷ 2 ∷ [] }
    ensures waiting { order_of pair_at_900 (1070 ∷ 1010 ∷ []) ≡ 1 ∷ [] }
    ensures before { IsTrue (is_le (slice_cmp nat_cmp (1 ∷ 3 ∷ 2 ∷ []) (2 ∷ 1 ∷ 3 ∷ []))) }
    ensures after { IsFalse (is_le (slice_cmp nat_cmp (1 ∷ 3 ∷ 2 ∷ []) (1 ∷ 2 ∷ 3 ∷ []))) }
{}

/// Of two best schedules with one makespan the first is the one that lands rank 1 first.
pub fn first_best_of_two_orders()
    ensures first { IsFirstBest closed_pair (1000 ∷ 1200 ∷ []) }
    ensures best { IsBest closed_pair (1200 ∷ 1010 ∷ []) }
    ensures not_first { IsFirstBest closed_pair (1200 ∷ 1010 ∷ []) → ⊥ }
{}

ghost use Rattle.landing_rules.specs.Audit.{findings, Missing, Unknown, Twice, Order, Mark, Closed, Separation, Precedence, Moved, Early, Shift, OtherObjective, Value};
ghost use Rattle.landing_rules.specs.declared.objective.Objective.TheVariants.{Delay};
ghost use Rattle.landing_rules.specs.Examples.{waiting_line, frozen_line, makespan_block, block_of_pair, delay_block_of_five};

/// What is found in blocks whose names are wrong, whatever else is.
pub fn blocks_are_audited_by_name()
    ensures missing { findings (pair 1) (makespan_block 1000
        (waiting_line (codes "A1") 1000 ∷ [])) ≡ Missing (codes "F1") ∷ [] }
    ensures twice { findings (pair 1) (makespan_block 0
        (waiting_line (codes "ZZ9") 1000 ∷ waiting_line (codes "ZZ9") 1000 ∷ [])) ≡
        Missing (codes "A1") ∷ Missing (codes "F1") ∷ Unknown (codes "ZZ9") ∷ Unknown (codes "ZZ9") ∷ Twice (codes "ZZ9") ∷ [] }
{}

/// What is found in blocks of the pair whose names are right.
pub fn blocks_are_audited_by_rule()
    ensures clean { findings (pair 1) (block_of_pair 1070 1010 1070) ≡ [] }
    ensures separation { findings (pair 1) (block_of_pair 1069 1010 1069)
        ≡ Separation (codes "F1") (codes "A1") ∷ [] }
    ensures shift { findings (pair 0) (block_of_pair 1070 1010 1070)
        ≡ Shift (codes "F1") 1 2 ∷ Shift (codes "A1") 2 1 ∷ [] }
    ensures level { findings (pair 1) (makespan_block 1000
        (frozen_line (codes "A1") 1000 ∷ waiting_line (codes "F1") 1000 ∷ [])) ≡
        Order 2 ∷ Mark (codes "A1") ∷ Closed (codes "F1") 1000 ∷ Separation (codes "A1") (codes "F1") ∷ [] }
    ensures frozen { findings pair_at_900 (makespan_block 1180
        (waiting_line (codes "A1") 1000 ∷ frozen_line (codes "F1") 1180 ∷ [])) ≡
        Moved (codes "F1") 1010 ∷ Early (codes "A1") ∷ [] }
    ensures every_pair { findings (three 1)
        (makespan_block 1010 (waiting_line (codes "A1") 1000 ∷ waiting_line (codes "A2") 1001
        ∷ waiting_line (codes "F1") 1010 ∷ [])) ≡
        Separation (codes "A1") (codes "A2") ∷ Separation (codes "A1") (codes "F1") ∷ Separation (codes "A2") (codes "F1") ∷ [] }
{}

/// What is found in blocks of five flights by delay.
pub fn blocks_are_audited_by_delay()
    ensures clean { findings five (delay_block_of_five 1080 (waiting_line (codes "D1") 1350)
        (waiting_line (codes "E1") 1410)) ≡ [] }
    ensures value { findings five (delay_block_of_five 1079 (waiting_line (codes "D1") 1350)
        (waiting_line (codes "E1") 1410)) ≡ Value 1080 ∷ [] }
    ensures precedence { findings five (delay_block_of_five 1100 (waiting_line (codes "E1") 1360)
        (waiting_line (codes "D1") 1420)) ≡
        Precedence (codes "D1") (codes "E1") ∷ [] }
    ensures objective { findings (pair 1) (record {
      objective = Delay;
      plan = record {
        value = 1070;
        landings = (block_of_pair 0 1010 1070).plan.landings;
      };
    }) ≡ OtherObjective ∷ [] }
{}
