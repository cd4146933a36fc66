//! The outcomes of trials.

ghost use Rattle.std.specs.Prelude.{◌≤◌, ◌<◌, ◌+◌, All, IfOk, length};
ghost use Rattle.cps_base.specs.Limits.{greatest_k};
ghost use Rattle.landing_rules.specs.Rules.{last_second};
ghost use Rattle.cps_problem.specs.Plans.{IsWithinShift};
ghost use Rattle.landing_rules.specs.Sound.{IsSound};
ghost use Rattle.trial_file.specs.declared.trial.Trial.TheVariants.{Shift, Close};
ghost use Rattle.trial_file.specs.Trials.{IsGood, most_trials};
ghost use Rattle.situations.specs.Refused.{IsOpenable};
ghost use Rattle.whatif.specs.Outcomes.{HasLeast, IsOutcomeOf, IsAnswerAt, AreOutcomes};
ghost use Rattle.situations.specs.Opened.{opened};

use crate::outcome::Outcome;
use crate::refusal::{closure_refusal, shift_refusal};
use arrivals::{Aerodrome, Event, Flight};
use cps_outside::Gate;
use label_workers::fill_lists;
use landing_joint::laws::{every_step_keeps_soundness, problem_stands_for_situation};
use replan::least_value;
use sequencer::problem_of;
use situations::Situation;
use std::alloc::{AllocError, Global};
use std::thread::Threads;
use trial_file::Trial;

// The least objective of a situation.
fn least_of(alloc: Global, situation: &Situation) -> Result<Outcome, AllocError>
    requires sound { IsSound situation.now }
    requires plannable { IsWithinShift situation.now.aerodrome.objective
        situation.now.aerodrome.k }
    ensures { IfOk result (HasLeast situation.now) }
{
    problem_stands_for_situation();
    let problem = problem_of(alloc, situation)?;
    match least_value(alloc, &problem)? {
        None => Ok(Outcome::Infeasible),
        Some(value) => Ok(Outcome::Value(value)),
    }
}

// The outcome without a change.
fn unchanged(
    alloc: Global,
    aerodrome: &Aerodrome,
    flights: &[Flight],
) -> Result<Outcome, AllocError>
    requires { IsOpenable aerodrome.now flights.now }
    ensures { IfOk result (HasLeast (opened aerodrome.now flights.now)) }
{
    let situation = Situation::opening(alloc, aerodrome, flights)?;
    least_of(alloc, &situation)
}

// The outcome with another limit of shift.
fn with_shift(
    alloc: Global,
    aerodrome: &Aerodrome,
    flights: &[Flight],
    k: u8,
) -> Result<Outcome, AllocError>
    requires opens { IsOpenable aerodrome.now flights.now }
    requires few { k ≤ greatest_k }
    ensures { IfOk result (IsOutcomeOf aerodrome.now flights.now (Shift k)) }
{
    if let Some(refusal) = shift_refusal(aerodrome, k) {
        return Ok(Outcome::Refused(refusal));
    }
    let mut other = aerodrome.copy()?;
    other.k = k;
    unchanged(alloc, &other, flights)
}

// The outcome with one closure more.
fn with_closure(
    alloc: Global,
    aerodrome: &Aerodrome,
    flights: &[Flight],
    from: u32,
    to: u32,
) -> Result<Outcome, AllocError>
    requires opens { IsOpenable aerodrome.now flights.now }
    requires span { (from < to) × (to ≤ last_second + 1) }
    ensures { IfOk result (IsOutcomeOf aerodrome.now flights.now (Close from to)) }
{
    every_step_keeps_soundness();
    let situation = Situation::opening(alloc, aerodrome, flights)?;
    if let Some(refusal) = closure_refusal(&situation, from, to) {
        return Ok(Outcome::Refused(refusal));
    }
    let closed = situation.after(alloc, None, &Event::Close(from, to))?;
    least_of(alloc, &closed)
}

// The outcome of a trial.
fn outcome_of(
    alloc: Global,
    aerodrome: &Aerodrome,
    flights: &[Flight],
    trial: Trial,
) -> Result<Outcome, AllocError>
    requires opens { IsOpenable aerodrome.now flights.now }
    requires good { IsGood trial }
    ensures { IfOk result (IsOutcomeOf aerodrome.now flights.now trial) }
{
    match trial {
        Trial::Shift(k) => with_shift(alloc, aerodrome, flights, k),
        Trial::Close(from, to) => with_closure(alloc, aerodrome, flights, from, to),
    }
}

// The outcome at a place: at 0 the one without a change, and at i that of trial i, counted from 1.
fn outcome_at(
    alloc: Global,
    aerodrome: &Aerodrome,
    flights: &[Flight],
    trials: &[Trial],
    i: usize,
) -> Result<Outcome, AllocError>
    requires opens { IsOpenable aerodrome.now flights.now }
    requires good { All IsGood trials.now }
    requires within { i ≤ length trials.now }
    ensures { IsAnswerAt aerodrome.now flights.now trials.now i result }
{
    if i == 0 {
        return unchanged(alloc, aerodrome, flights);
    }
    outcome_of(alloc, aerodrome, flights, trials[i - 1])
}

/// What comes of the files as they are, and then of each trial, in their order: the first refusal of the trial, or else the
/// least objective of the opening situation with its one change. No trial has to do with another.
///
/// It is asked that the aerodrome and the flights open, and that there are at most 16 trials with numbers in their ranges.
/// Outcome i passes the gate as number i, and several may be worked out beside each other.
pub fn run_trials<R: Threads + Sync, G: Gate + Sync>(
    rt: &R,
    alloc: Global,
    aerodrome: &Aerodrome,
    flights: &[Flight],
    trials: &[Trial],
    gate: &G,
) -> Result<Vec<Outcome>, AllocError>
    requires opens { IsOpenable aerodrome.now flights.now }
    requires good { All IsGood trials.now }
    requires few { length trials.now ≤ most_trials }
    ensures value { IfOk result (λ v. AreOutcomes aerodrome.now flights.now trials.now v.items) }
    ensures few { IfOk result (λ v. length v.items ≤ most_trials + 1) }
{
    let outcome = move |i: usize| -> Result<Outcome, AllocError>
        requires opens { IsOpenable aerodrome.now flights.now }
        requires good { All IsGood trials.now }
        requires within { i ≤ length trials.now }
        ensures { IsAnswerAt aerodrome.entry.now flights.entry.now trials.entry.now i result }
    { outcome_at(alloc, aerodrome, flights, trials, i) };
    let outcomes = fill_lists(rt, alloc, trials.len() + 1, gate, &outcome)?;
    Ok(outcomes)
}
