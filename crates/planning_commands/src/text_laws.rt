//! What the printed texts of `trial` and `effort` have in common, as laws over the numbers and over the bytes of the files.

ghost use Rattle.planning_commands.specs.TextLaws.{EffortTextIsOneLaw, TrialTextIsOneLaw};

use replays::steps_are_one;

/// Two texts that `trial` may print for the same three numbers are one, with one answer: the text is a function of the numbers. The
/// call does nothing: it tells its caller the law.
pub fn trial_text_is_one()
    ensures { TrialTextIsOneLaw }
{}

/// Two texts that `effort` may print for the same files and the same run, which is its opening plan and its answers and plans after
/// it, are one, with one answer: the steps are those of that run. The call does nothing: it tells its caller the law.
pub fn effort_text_is_one()
    ensures { EffortTextIsOneLaw }
{
    steps_are_one();
}
