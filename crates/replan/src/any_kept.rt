//! The planner that is kept from event to event.

ghost use Rattle.std.specs.Prelude.{◌≡◌, ℕ, ◌≤◌, IfOk, OnOk, OnErr, None, Some};
ghost use Rattle.cps_base.specs.Limits.{greatest_k};
ghost use Rattle.cps_base.specs.Tally.{raised_by};
ghost use Rattle.cps_network.specs.Due.{IsDue};
ghost use Rattle.cps_network.specs.shared.OneDue.{one_due};
ghost use Rattle.cps_problem.specs.Plans.{IsPlannable, IsAnswerOf};
ghost use Rattle.replan.specs.Kept.{k_of, held_of, problem_held};

use crate::Kept;
use cps_base::{Ledger, Steps};
use cps_outside::Gate;
use cps_problem::{Planner, Problem, Schedule};
use std::alloc::{AllocError, Global};
use std::thread::Threads;

/// The planner for each k from 0 to 3, by windows of 1, 3, 5 or 7 places.
#[derive(Drop)]
pub enum AnyKept {
    /// k = 0.
    One(Kept<1>),
    /// k = 1.
    Three(Kept<3>),
    /// k = 2.
    Five(Kept<5>),
    /// k = 3.
    Seven(Kept<7>),
}

impl AnyKept {
    /// The planner for this k, which holds no problem yet. It takes no memory.
    pub fn fresh(k: u8) -> AnyKept
        requires { k ≤ greatest_k }
        ensures k { k_of result ≡ k }
        ensures none { problem_held result ≡ None }
    {
        match k {
            0 => AnyKept::One(Kept::new()),
            1 => AnyKept::Three(Kept::new()),
            2 => AnyKept::Five(Kept::new()),
            _ => AnyKept::Seven(Kept::new()),
        }
    }
}

impl Planner for AnyKept {
    ghost k = { k_of };

    // One step for each candidate of the stages that the problem does not have in common with the one that is held.
    ghost due = { λ planner p n. IsDue (problem_held planner) p n };

    ghost due_is_one = { λ planner p a b x y. one_due (problem_held planner) p a b x y };

    ghost holds = { λ planner p. problem_held planner ≡ Some p };
}

impl AnyKept {
    /// A best and tight schedule of the problem, or `None` exactly where no schedule is feasible. It ticks exactly the steps that
    /// are due. Labels are filled by pieces, each behind the gate.
    ///
    /// After want of memory it holds no problem, and may still be used.
    pub fn replan<R: Threads + Sync, G: Gate + Sync, L: Ledger>(
        &mut self,
        rt: &R,
        alloc: Global,
        problem: &Problem,
        gate: &G,
        steps: &mut Steps<L>,
    ) -> Result<Option<Schedule>, AllocError>
        requires same_k { problem.now.k ≡ k_of self.old }
        requires plannable { IsPlannable problem.now }
        ensures k { k_of self.new ≡ k_of self.old }
        ensures answer { IfOk result (λ answer. IsAnswerOf problem.now answer) }
        ensures holds { OnOk result (problem_held self.new ≡ Some problem.now) }
        ensures lost { OnErr result (held_of self.new ≡ None) }
        ensures steps { OnOk result ((n : ℕ) × IsDue (problem_held self.old) problem.now n
            × (L.count steps.new ≡ raised_by n (L.count steps.old))) }
    {
        match self {
            AnyKept::One(kept) => kept.replan(rt, alloc, problem, gate, steps),
            AnyKept::Three(kept) => kept.replan(rt, alloc, problem, gate, steps),
            AnyKept::Five(kept) => kept.replan(rt, alloc, problem, gate, steps),
            AnyKept::Seven(kept) => kept.replan(rt, alloc, problem, gate, steps),
        }
    }
}
