//! What holds of every situation, problem and clock event.

ghost use Rattle.landing_joint.specs.ProblemLaws.{ListGivesScheduleLaw, ScheduleGivesListLaw, SameObjectiveLaw, BestListLaw, TightListLaw, NoListLaw};
ghost use Rattle.landing_joint.specs.FirstBestLaws.{FirstBestListLaw, FirstBestIsOneLaw, FirstBestObjectiveLaw, FirstBestExistsLaw, FirstPlanIsOneLaw, FirstPlanIsShownLaw, FirstListGivesPlanLaw, SoundProblemLaw, FirstBestListIsOneLaw, FirstBestListExistsLaw};
ghost use Rattle.landing_joint.specs.LeastChoiceLaws.{LeastChoicesLaw, ChoiceLaw, LastPairsLaw, SuccessorPairsLaw, OneNodeLaw, EarliestOfNodeLaw, UndominatedPairsLaw};
ghost use Rattle.landing_joint.specs.ClockLaws.{ClockKeepsPlanLaw, ClockShowsPlanLaw, ClockKeepsSoundLaw};
ghost use Rattle.landing_joint.specs.StepLaws.{EventKeepsSoundLaw, StepKeepsSoundLaw, RunKeepsSoundLaw};
ghost use Rattle.landing_joint.specs.PassedOver.{ClockCountsLaw, StepCountsLaw, FewPassLaw, FewPassLaterLaw, FewPassFirstLaw, ClockCountsExactlyLaw, FewPassAnyoneLaw};
ghost use Rattle.landing_joint.specs.AuditLaws.{AuditLaw, ShownPlanIsCleanLaw};
ghost use Rattle.landing_joint.specs.Shift.{MoreShiftLaw, MoreShiftIsNoWorseLaw, LessShiftIsInfeasibleLaw};

/// The feasible schedules of a sound situation are its frozen landings joined with a feasible list of its problem, with
/// equal objectives, and best and tight ones are best and tight.
pub fn problem_stands_for_situation()
    ensures feasible { ListGivesScheduleLaw }
    ensures every { ScheduleGivesListLaw }
    ensures objectives { SameObjectiveLaw }
    ensures best { BestListLaw }
    ensures tight { TightListLaw }
    ensures none { NoListLaw }
{}

/// The first best schedule of a sound situation is its frozen landings joined with a first best list of its problem. There
/// is one where a schedule is feasible. It is one, so its plan block is one text, and it costs what every best schedule
/// costs.
pub fn first_best_schedule_is_one()
    ensures list { FirstBestListLaw }
    ensures exists { FirstBestExistsLaw }
    ensures one { FirstBestIsOneLaw }
    ensures objective { FirstBestObjectiveLaw }
{}

/// The first plan of a sound situation is a first best schedule, or none where none is feasible. It is one, it is a plan
/// that may be shown, and it is the first list of the problem, if there is one, joined with the frozen landings.
pub fn first_plan_is_one()
    ensures one { FirstPlanIsOneLaw }
    ensures shown { FirstPlanIsShownLaw }
    ensures list { FirstListGivesPlanLaw }
{}

/// Where a list of seconds by rank is feasible for a sound problem there is a first best list, and it is one. The problem
/// of a sound situation is sound.
pub fn first_best_list_is_one()
    ensures sound { SoundProblemLaw }
    ensures exists { FirstBestListExistsLaw }
    ensures one { FirstBestListIsOneLaw }
{}

/// Where a list of pairs for each prefix that can land are the completing pairs of its node, taking at each place the least
/// rank that can be chosen by them lands the first best list; and some rank can be chosen until all have landed.
pub fn least_choices_are_first_best()
    ensures whole { LeastChoicesLaw }
    ensures next { ChoiceLaw }
{}

/// The completing pairs of a node of the last stage are those of the open seconds by which it can land; those of another
/// node come from those of the nodes behind it. Prefixes of one node have the same, a node can land from its earliest
/// second on, and the undominated pairs are those that are kept where none of them is the worse.
pub fn completing_pairs_from_successors()
    ensures last { LastPairsLaw }
    ensures before { SuccessorPairsLaw }
    ensures node { OneNodeLaw }
    ensures earliest { EarliestOfNodeLaw }
    ensures undominated { UndominatedPairsLaw }
{}

/// An accepted clock event that finds a plan shown keeps it feasible with an equal objective, shows a plan again that is
/// no dearer, and keeps the situation sound; passed-over counts included.
pub fn clock_keeps_plans()
    ensures keeps { ClockKeepsPlanLaw }
    ensures shows { ClockShowsPlanLaw }
    ensures sound { ClockKeepsSoundLaw }
{}

/// Every kind of event keeps a situation sound: an event that is not refused leads from a sound situation to a sound one,
/// a step from a sound state to a sound state, and each state of a run from a sound state is sound. The events are
/// asked to have their numbers in range.
pub fn every_step_keeps_soundness()
    ensures situation { EventKeepsSoundLaw }
    ensures step { StepKeepsSoundLaw }
    ensures run { RunKeepsSoundLaw }
{}

/// With a greater limit of shift each feasible schedule stays feasible, and the least objective is no greater.
pub fn more_shift_is_never_worse()
    ensures feasible { MoreShiftLaw }
    ensures no_worse { MoreShiftIsNoWorseLaw }
    ensures infeasible { LessShiftIsInfeasibleLaw }
{}

/// With the carry, a flight that stays waiting through some steps of a run, in which nobody comes to stand ahead of it
/// who did not before, is passed by at most k flights in all of them together: these stand behind it and freeze while it
/// waits on. One clock event keeps this by any feasible plan, and each step by the plan shown. Of a flight that is first
/// in line and stays so, those that passed it before count too. Where k is at most 1, nothing is asked of who comes to
/// stand ahead.
pub fn few_pass_a_waiting_flight()
    ensures clock { ClockCountsLaw }
    ensures step { StepCountsLaw }
    ensures run { FewPassLaw }
    ensures later { FewPassLaterLaw }
    ensures first { FewPassFirstLaw }
    ensures exactly { ClockCountsExactlyLaw }
    ensures anyone { FewPassAnyoneLaw }
{}

/// In a sound situation nothing is found in a plan block exactly where it is that of a feasible schedule, and so nothing
/// in the block of the plan that a sound state shows.
pub fn findings_are_whole()
    ensures clean { AuditLaw }
    ensures shown { ShownPlanIsCleanLaw }
{}
