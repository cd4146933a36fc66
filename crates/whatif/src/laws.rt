//! What holds of the outcomes of trials.

ghost use Rattle.whatif.specs.Laws.{MoreShiftOutcomeLaw, NoClosureOutcomeLaw, InnerClosureOutcomeLaw};
ghost use Rattle.whatif.specs.OneText.{OutcomesAreOneLaw};

use landing_joint::laws::more_shift_is_never_worse;

/// With a greater limit of shift, where neither is refused, the outcome is no worse: its value is no greater, and it has one
/// where the other has.
pub fn more_shift_gives_no_worse_outcome()
    ensures { MoreShiftOutcomeLaw }
{
    more_shift_is_never_worse();
}

/// A closure gives no better outcome than none, and than one that lies inside it.
pub fn closure_gives_no_better_outcome()
    ensures none { NoClosureOutcomeLaw }
    ensures inner { InnerClosureOutcomeLaw }
{}

/// Two lists of the outcomes of the same trials of the same files are one. The call does nothing: it tells its caller the law.
pub fn outcomes_are_one()
    ensures { OutcomesAreOneLaw }
{}
