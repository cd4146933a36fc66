//! What the printed text of a replay fixes and promises, as laws over the bytes of its files.

ghost use Rattle.planning_commands.specs.ReplayLaws.{TextFixesReplayLaw, ReplayIsSoundLaw, ClockIsNoDearerLaw, FewPassReplayLaw};

use landing_joint::laws::{
    clock_keeps_plans, every_step_keeps_soundness, few_pass_a_waiting_flight,
};
use replay_law::text_fixes_the_run;

/// Two replays of the same files that print the same text have the same opening plan, and the same answers and plans after it.
/// The call does nothing: it tells its caller the law.
pub fn text_fixes_the_replay()
    ensures { TextFixesReplayLaw }
{
    text_fixes_the_run();
}

/// Every state of a printed replay is sound: its plan is best and tight, and there is none exactly where nothing is feasible.
/// The call does nothing: it tells its caller the law.
pub fn printed_states_are_sound()
    ensures { ReplayIsSoundLaw }
{
    every_step_keeps_soundness();
}

/// Where an accepted clock event of a printed replay finds a plan shown, a plan is shown after it, and it is no dearer. The call
/// does nothing: it tells its caller the law.
pub fn clock_shows_no_dearer_plan()
    ensures { ClockIsNoDearerLaw }
{
    every_step_keeps_soundness();
    clock_keeps_plans();
}

/// With the carry, a flight that waits through a printed replay, while nobody comes to stand ahead of it in first-come order who
/// did not before, is passed by at most k flights in all of it. The call does nothing: it tells its caller the law.
pub fn few_pass_in_a_printed_replay()
    ensures { FewPassReplayLaw }
{
    few_pass_a_waiting_flight();
}
