//! A best and tight schedule.

ghost use Rattle.std.specs.Prelude.{◌≡◌, ◌+◌, ◌*◌, length, IfOk};
ghost use Rattle.cps_problem.specs.Plans.{IsAnswerOf};
ghost use Rattle.replan.specs.Stages.{AreStages};

use crate::stages::LabelledStage;
use crate::trace::{least_place, trace};
use cps_problem::{Problem, Schedule};
use extract_plan::{blank, retime};
use std::alloc::{AllocError, Global};

/// A best and tight schedule of a problem, from all of its stages, or `None` exactly where no schedule is feasible: the order
/// of the least label or the cheapest pair of the last stage, with each flight at its earliest second.
pub(crate) fn schedule_of<const W: usize>(
    alloc: Global,
    problem: &Problem,
    kept: &[LabelledStage<W>],
) -> Result<Option<Schedule>, AllocError>
    requires width { W ≡ 2 * problem.now.k + 1 }
    requires held { AreStages problem.now kept.now }
    requires whole { length kept.now ≡ length problem.now.flights + 1 }
    ensures { IfOk result (IsAnswerOf problem.now) }
{
    let n = problem.len();
    let mut schedule = blank(alloc, n)?;
    let last = &kept[n as usize];
    match least_place(&last.labels) {
        None => Ok(None),
        Some(place) => {
            let mut order = vec![in alloc; 0u8; n as usize]?;
            trace(problem, kept, place, &mut order);
            let is_landed = retime(problem, order.as_slice(), &mut schedule);
            prove!(is_landed);
            Ok(Some(schedule))
        }
    }
}
