//! How long the printed texts of these commands are, as laws over the bytes of their files.

ghost use Rattle.planning_commands.specs.TextLengths.{EffortTextIsBoundedLaw, PlanTextIsBoundedLaw};
ghost use Rattle.planning_commands.specs.TextLengths.{ReplayTextIsBoundedLaw, TrialTextIsBoundedLaw};

use landing_joint::laws::every_step_keeps_soundness;
use plan_file::laws::printed_plans_read_back;
use text_bounds::{plan_blocks_are_bounded, runs_are_bounded, trial_summaries_are_bounded};

/// How many bytes `plan`, `replay`, `effort` and `trial` print at most, for n flights and e events: 20 + 29n; (e + 1)(50 + 29m),
/// where m is the lesser of 500 and n + e; 47 + 50e; and 50. The call does nothing: it tells its caller the law.
pub fn planning_texts_are_bounded()
    ensures plan { PlanTextIsBoundedLaw }
    ensures replay { ReplayTextIsBoundedLaw }
    ensures effort { EffortTextIsBoundedLaw }
    ensures trial { TrialTextIsBoundedLaw }
{
    plan_blocks_are_bounded();
    runs_are_bounded();
    trial_summaries_are_bounded();
    every_step_keeps_soundness();
    printed_plans_read_back();
}
