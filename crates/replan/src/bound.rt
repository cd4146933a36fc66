//! What is known of the steps that are due.

ghost use Rattle.cps_network.specs.Nodes.{IsWindowNetwork};
ghost use Rattle.replan.specs.Bound.{DueIsSmall, HasCounts, HasDue};
ghost use Rattle.replan.specs.Held.{held_problem};
ghost use Rattle.replan.specs.Kept.{problem_held};

use crate::{AnyKept, Kept};
use cps_network::{due_is_bounded, prefix_laws};
use cps_problem::Problem;

/// What is due for a problem is at most 49,412,580 steps, whatever is held: 7 to the power of 7 for each of 60 flights. The
/// call does nothing: it tells its caller the law.
pub fn due_is_small(problem: &Problem)
    ensures { DueIsSmall problem.now }
{
    match problem.head().k {
        0 => due_is_bounded::<1>(problem),
        1 => due_is_bounded::<3>(problem),
        2 => due_is_bounded::<5>(problem),
        _ => due_is_bounded::<7>(problem),
    }
}

// The windows of a problem are the nodes of its network.
fn windows_are_nodes(problem: &Problem)
    ensures { IsWindowNetwork problem.now }
{
    match problem.head().k {
        0 => prefix_laws::<1>(problem),
        1 => prefix_laws::<3>(problem),
        2 => prefix_laws::<5>(problem),
        _ => prefix_laws::<7>(problem),
    }
}

// The candidates of each stage have a number.
fn counts_exist(problem: &Problem)
    ensures { HasCounts problem.now }
{
    // The problem is well formed, and k at most 3.
    let _near = problem.head();
    windows_are_nodes(problem);
}

impl<const W: usize> Kept<W> {
    // Some number of steps is due for the problem.
    fn due_exists(&self, problem: &Problem)
        ensures { HasDue (held_problem self.now) problem.now }
    {
        counts_exist(problem);
        match &self.held {
            None => (),
            Some(held) => {
                // The two problems have a first rank at which they differ.
                let _difference = held.problem.first_difference(problem);
            }
        }
    }
}

impl AnyKept {
    /// Some number of steps is due for any problem, whatever is held; that it is one number the planner's `due_is_one` says. The
    /// call does nothing: it tells its caller the law.
    pub fn due_exists(&self, problem: &Problem)
        ensures { HasDue (problem_held self.now) problem.now }
    {
        match self {
            AnyKept::One(kept) => kept.due_exists(problem),
            AnyKept::Three(kept) => kept.due_exists(problem),
            AnyKept::Five(kept) => kept.due_exists(problem),
            AnyKept::Seven(kept) => kept.due_exists(problem),
        }
    }
}
