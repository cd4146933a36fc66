//! What the printed text of the first plan promises, as laws over the bytes of its files.

ghost use Rattle.inquiry_commands.specs.First.{FirstCostsAsPlanLaw, FirstIsBoundedLaw, FirstTextIsOneLaw};

use landing_joint::laws::{first_best_schedule_is_one, first_plan_is_one};
use text_bounds::plan_blocks_are_bounded;

/// Two texts that `first` may print for the same files are one, with one answer: the text is a function of the files' bytes.
/// The call does nothing: it tells its caller the law.
pub fn first_text_is_one()
    ensures { FirstTextIsOneLaw }
{
    first_plan_is_one();
}

/// The plan that `first` prints costs what each plan costs that `plan` may print for the same files, and there is one exactly
/// where that has one. The call does nothing: it tells its caller the law.
pub fn first_costs_as_every_plan()
    ensures { FirstCostsAsPlanLaw }
{
    first_best_schedule_is_one();
}

/// How many bytes `first` prints at most: 20 + 29n for n flights. The call does nothing: it tells its caller the law.
pub fn first_texts_are_bounded()
    ensures { FirstIsBoundedLaw }
{
    plan_blocks_are_bounded();
    first_plan_is_one();
}
