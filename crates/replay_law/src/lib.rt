//! That the printed text of a run fixes the run.
#![tactic(auto)]

ghost use Rattle.replay_law.specs.Runs.{TextLaw};

use landing_joint::laws::every_step_keeps_soundness;
use landing_rules::laws::block_tells_plan;
use plan_file::laws::printed_plans_read_back;

/// Two runs of the same files with the same text are one run: they have the same answers, situations and plans, also
/// where each is over some of the events only. The opening situation is asked to be sound, and the events to have
/// their numbers in their ranges.
pub fn text_fixes_the_run()
    ensures { TextLaw }
{
    every_step_keeps_soundness();
    block_tells_plan();
    printed_plans_read_back();
}
