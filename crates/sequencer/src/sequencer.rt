ghost use Rattle.std.specs.Prelude.{◌≡◌, ℕ, Option, Some, None, IfOk, IfErr, OnOk, OnErr, MatchOption, map, option_map, ⊤};
ghost use Rattle.std.specs.Option.{ForSome};
ghost use Rattle.cps_base.specs.Tally.{raised_by};
ghost use Rattle.landing_rules.specs.Events.{refusal, IsPlanShown, IsAcceptedStep, IsOpeningState, Step};
ghost use Rattle.landing_rules.specs.Problem.{IsProblemOf};
ghost use Rattle.landing_rules.specs.Sound.{IsSound, IsSoundState, IsGoodEvent};
ghost use Rattle.landing_rules.specs.Text.{shown_plan, plan_shown};
ghost use Rattle.arrivals.specs.Seen.{event_of, flight_of};
ghost use Rattle.cps_network.specs.Due.{IsDue};
ghost use Rattle.cps_problem.specs.Plans.{IsAnswerOf, IsWithinShift};
ghost use Rattle.replan.specs.Kept.{k_of, problem_held, Holds};
ghost use Rattle.sequencer.specs.Frozen.{BeginsWithFrozen};
ghost use Rattle.sequencer.specs.Ranked.{ArePlacesByRank};
ghost use Rattle.situations.specs.Answers.{refusal_of};
ghost use Rattle.situations.specs.Opened.{CanOpen, opening_of};
ghost use Rattle.situations.specs.Refused.{opening_fault};
ghost use Rattle.situations.specs.Begun.{IsRefusedBy, opening_fault_of};

use crate::begin::opening;
use crate::plan::plan_of;
use crate::problem::posed;
use crate::seconds::joined_seconds;
use arrivals::{Aerodrome, Event, Flight};
use cps_base::{Ledger, Steps};
use cps_outside::Gate;
use cps_problem::{Objective, Planner, Problem, Schedule};
use extract_plan::value_of;
use landing_joint::laws::{
    clock_keeps_plans, every_step_keeps_soundness, problem_stands_for_situation,
};
use plan_file::Plan;
use replan::AnyKept;
use situations::{BeginFault, Refusal, Situation};
use std::alloc::{AllocError, Global};
use std::marker::Model;
use std::thread::Threads;

// The plan that is shown, and its seconds in order of arrival.
#[derive(Drop)]
struct Shown {
    seconds: Vec<u32>,
    plan: Plan,
}

/// The situation on the approach, the plan that is shown, the problem of the situation, and the planner.
///
/// Contracts see the rules' state (`landing_rules`, `State`), the problem and the planner. The state is always sound: the
/// plan shown is best and tight, and there is none exactly where no schedule is feasible.
#[derive(Drop)]
pub struct Sequencer<P: Planner> {
    pub(crate) situation: Situation,
    shown: Option<Shown>,
    problem: Problem,
    planner: P,
}

impl<P: Planner> Model for Sequencer<P> {
    ghost use Rattle.std.specs.Prelude.{option_map};
    ghost use Rattle.sequencer.specs.Standing.{Standing, IsInStep};

    ghost Value = { Standing P };

    ghost view = { λ s. record {
      state = record
          { situation = s.situation; plan = option_map (λ p. p.seconds.items) s.shown };
      problem = s.problem;
      planner = s.planner;
    } };

    ghost invariant = { λ s. IsInStep (record
        { situation = s.situation; plan = option_map (λ p. p.seconds.items) s.shown })
        (option_map (λ p. p.plan) s.shown) s.problem (P.k s.planner) };
}

// The seconds of what is shown.
fn seconds_of(shown: &Option<Shown>) -> Option<&[u32]>
    ensures { option_map (λ p. p.now) result ≡ option_map (λ p. p.seconds.items) shown.now }
{
    match shown {
        None => None,
        Some(shown) => Some(&shown.seconds),
    }
}

// The plan that is shown.
fn plan_in(shown: &Option<Shown>) -> Option<&Plan>
    ensures { option_map (λ p. p.now) result ≡ option_map (λ s. s.plan) shown.now }
{
    match shown {
        None => None,
        Some(shown) => Some(&shown.plan),
    }
}

// What is shown for a best and tight schedule by rank.
fn shown_schedule(
    alloc: Global,
    situation: &Situation,
    front: Option<&Plan>,
    problem: &Problem,
    places: &[usize],
    schedule: &Schedule,
) -> Result<Shown, AllocError>
    requires sound { IsSound situation.now }
    requires front { ForSome front (λ plan. BeginsWithFrozen situation.now plan.now) }
    requires places { ArePlacesByRank situation.now places.now }
    requires problem { IsProblemOf situation.now problem.now }
    requires answer { IsAnswerOf problem.now (Some schedule.now) }
    ensures shown { IfOk result (λ shown. IsPlanShown situation.now (Some shown.seconds.items)) }
    ensures plan { IfOk result (λ shown. shown.plan ≡ shown_plan situation.now
        shown.seconds.items) }
{
    problem_stands_for_situation();
    let seconds = joined_seconds(alloc, situation, places, schedule)?;
    let value = value_of(problem, schedule);
    let plan = plan_of(alloc, situation, front, places, schedule, value)?;
    Ok(Shown { seconds, plan })
}

// What is shown for the planner's answer.
fn shown_answer(
    alloc: Global,
    situation: &Situation,
    front: Option<&Plan>,
    problem: &Problem,
    places: &[usize],
    answer: &Option<Schedule>,
) -> Result<Option<Shown>, AllocError>
    requires sound { IsSound situation.now }
    requires front { ForSome front (λ plan. BeginsWithFrozen situation.now plan.now) }
    requires places { ArePlacesByRank situation.now places.now }
    requires problem { IsProblemOf situation.now problem.now }
    requires answer { IsAnswerOf problem.now answer.now }
    ensures shown { IfOk result (λ shown. IsPlanShown situation.now
        (option_map (λ p. p.seconds.items) shown)) }
    ensures plan { IfOk result (λ shown. option_map (λ p. p.plan) shown ≡ plan_shown
        (record { situation = situation.now; plan = option_map (λ p. p.seconds.items) shown })) }
{
    problem_stands_for_situation();
    match answer {
        None => Ok(None),
        Some(schedule) => {
            let shown = shown_schedule(alloc, situation, front, problem, places, schedule)?;
            Ok(Some(shown))
        }
    }
}

// A situation, and a plan that begins with its frozen landings, where one is at hand.
#[derive(Clone, Copy)]
struct Asked<'a, 'p> {
    situation: &'a Situation,
    front: Option<&'p Plan>,
}

// The problem of a situation, and what is shown for the planner's answer to it.
fn planned<R: Threads + Sync, G: Gate + Sync, L: Ledger>(
    rt: &R,
    alloc: Global,
    asked: Asked<'_, '_>,
    planner: &mut AnyKept,
    gate: &G,
    steps: &mut Steps<L>,
) -> Result<(Problem, Option<Shown>), AllocError>
    requires sound { IsSound asked.situation.now }
    requires front { ForSome asked.front (λ plan. BeginsWithFrozen asked.situation.now plan.now) }
    requires same_k { asked.situation.now.aerodrome.k ≡ k_of planner.old }
    requires plannable { IsWithinShift asked.situation.now.aerodrome.objective
        asked.situation.now.aerodrome.k }
    ensures problem { IfOk result (λ planned. IsProblemOf asked.entry.situation.now planned.0) }
    ensures shown { IfOk result (λ planned. IsPlanShown asked.entry.situation.now
        (option_map (λ p. p.seconds.items) planned.1)) }
    ensures plan { IfOk result (λ planned. option_map (λ p. p.plan) planned.1 ≡ plan_shown
        (record {
          situation = asked.entry.situation.now;
          plan = option_map (λ p. p.seconds.items) planned.1;
        })) }
    ensures k { k_of planner.new ≡ k_of planner.old }
    ensures holds { IfOk result (λ planned. Holds planner.new planned.0) }
    ensures steps { IfOk result (λ planned. (n : ℕ) × IsDue (problem_held planner.old) planned.0 n
        × (L.count steps.new ≡ raised_by n (L.count steps.old))) }
{
    let Asked { situation, front } = asked;
    let (problem, places) = posed(alloc, situation, front)?;
    let answer = planner.replan(rt, alloc, &problem, gate, steps)?;
    let shown = shown_answer(alloc, situation, front, &problem, &places, &answer)?;
    Ok((problem, shown))
}

impl<P: Planner> Sequencer<P> {
    /// The plan that is shown. `None` exactly where no schedule is feasible in the situation.
    pub fn plan(&self) -> Option<&Plan>
        ensures plan { option_map (λ p. p.now) result ≡ plan_shown self.now.state }
        ensures shown { IsPlanShown self.now.state.situation self.now.state.plan }
    {
        match &self.shown {
            None => None,
            Some(shown) => Some(&shown.plan),
        }
    }

    /// The situation on the approach: what the aerodrome fixes, the active flights, the closures that stand, the horizon.
    pub fn situation(&self) -> &Situation
        ensures value { result.now ≡ self.now.state.situation }
        ensures sound { IsSound result.now }
    {
        &self.situation
    }

    /// The problem of the situation.
    pub fn problem(&self) -> &Problem
        ensures value { result.now ≡ self.now.problem }
        ensures problem { IsProblemOf self.now.state.situation self.now.problem }
        ensures sound { IsSoundState self.now.state }
    {
        &self.problem
    }

    /// The planner. After `begin` and after each accepted event it holds the problem.
    pub fn planner(&self) -> &P
        ensures { result.now ≡ self.now.planner }
    {
        &self.planner
    }

    /// What a plan makes least.
    pub fn objective(&self) -> Objective
        ensures { result ≡ self.now.state.situation.aerodrome.objective }
    {
        self.situation.fixed().objective
    }
}

impl Sequencer<AnyKept> {
    // Goes on by an accepted event: the situation after it and its plan are made aside, and then take the place of these.
    fn advance<R: Threads + Sync, G: Gate + Sync, L: Ledger>(
        &mut self,
        rt: &R,
        alloc: Global,
        event: &Event,
        gate: &G,
        steps: &mut Steps<L>,
    ) -> Result<(), AllocError>
        requires good { IsGoodEvent (event_of event.now) }
        requires accepted { refusal self.old.state.situation (event_of event.now) ≡ None }
        ensures step { OnOk result (IsAcceptedStep self.old.state (event_of event.now)
            self.new.state) }
        ensures holds { OnOk result (Holds self.new.planner self.new.problem) }
        ensures steps { OnOk result ((n : ℕ) × IsDue (problem_held self.old.planner) self.new.problem n
            × (L.count steps.new ≡ raised_by n (L.count steps.old))) }
        ensures unchanged { OnErr result (self.new.state ≡ self.old.state) }
        ensures same_problem { OnErr result (self.new.problem ≡ self.old.problem) }
    {
        every_step_keeps_soundness();
        clock_keeps_plans();
        let next = self.situation.after(alloc, seconds_of(&self.shown), event)?;
        let front = plan_in(&self.shown);
        let asked = Asked {
            situation: &next,
            front,
        };
        let (problem, shown) = planned(rt, alloc, asked, &mut self.planner, gate, steps)?;
        self.situation = next;
        self.shown = shown;
        self.problem = problem;
        Ok(())
    }

    /// Answers an event, and where it is accepted makes one step by it: the situation changes as the rules say, and a
    /// plan that is best and tight there is shown, or none where there is none.
    ///
    /// It asks that the event's numbers are in their ranges. A refusal is the first whose condition holds, with its value.
    /// After any refusal the situation, the plan and the problem are as they were; after one other than want of memory the
    /// planner and the steps are too. Where the event is accepted, the steps rose by what was due.
    pub fn apply<R: Threads + Sync, G: Gate + Sync, L: Ledger>(
        &mut self,
        rt: &R,
        alloc: Global,
        event: &Event,
        gate: &G,
        steps: &mut Steps<L>,
    ) -> Result<(), Refusal>
        requires { IsGoodEvent (event_of event.now) }
        ensures accepted { OnOk result (Step self.old.state (event_of event.now) None
            self.new.state) }
        ensures holds { OnOk result (Holds self.new.planner self.new.problem) }
        ensures steps { OnOk result ((n : ℕ) × IsDue (problem_held self.old.planner) self.new.problem n
            × (L.count steps.new ≡ raised_by n (L.count steps.old))) }
        ensures refused { IfErr result (λ fault. MatchOption (refusal_of fault) ⊤
            (λ answer. Step self.old.state (event_of event.now) (Some answer) self.new.state)) }
        ensures kept { IfErr result (λ fault. MatchOption (refusal_of fault) ⊤
            (λ answer. (self.new ≡ self.old) × (steps.new ≡ steps.old))) }
        ensures unchanged { OnErr result (self.new.state ≡ self.old.state) }
        ensures same_problem { OnErr result (self.new.problem ≡ self.old.problem) }
    {
        if let Some(refusal) = self.situation.refusal(event) {
            return Err(refusal);
        }
        self.advance(rt, alloc, event, gate, steps)?;
        Ok(())
    }

    // Begins in a sound situation.
    fn start<R: Threads + Sync, G: Gate + Sync, L: Ledger>(
        rt: &R,
        alloc: Global,
        situation: Situation,
        mut planner: AnyKept,
        gate: &G,
        steps: &mut Steps<L>,
    ) -> Result<Sequencer<AnyKept>, AllocError>
        requires sound { IsSound situation }
        requires same_k { situation.aerodrome.k ≡ k_of planner }
        requires plannable { IsWithinShift situation.aerodrome.objective situation.aerodrome.k }
        ensures opening { IfOk result (λ s. s.state.situation ≡ situation) }
        ensures shown { IfOk result (λ s. IsPlanShown s.state.situation s.state.plan) }
        ensures holds { IfOk result (λ s. Holds s.planner s.problem) }
        ensures steps { IfOk result (λ s. (n : ℕ) × IsDue (problem_held planner) s.problem n
            × (L.count steps.new ≡ raised_by n (L.count steps.old))) }
    {
        let asked = Asked {
            situation: &situation,
            front: None,
        };
        let (problem, shown) = planned(rt, alloc, asked, &mut planner, gate, steps)?;
        Ok(Sequencer {
            situation,
            shown,
            problem,
            planner,
        })
    }

    /// Begins with the situation that an aerodrome and its flights open, and with a plan that is best and tight there, or
    /// none where there is none.
    ///
    /// It asks that there are at most 500 flights, with callsigns apart, that all numbers are in their ranges, and
    /// that the planner's k is the aerodrome's. A refusal is the first opening refusal that holds, with its value, and then
    /// the steps are as they were; or it is want of memory. The steps rose by what was due.
    pub fn begin<R: Threads + Sync, G: Gate + Sync, L: Ledger>(
        rt: &R,
        alloc: Global,
        aerodrome: Aerodrome,
        flights: Vec<Flight>,
        planner: AnyKept,
        gate: &G,
        steps: &mut Steps<L>,
    ) -> Result<Sequencer<AnyKept>, BeginFault>
        requires can { CanOpen aerodrome flights.items }
        requires same_k { aerodrome.k ≡ k_of planner }
        ensures opening { IfOk result (λ s. IsOpeningState (opening_of aerodrome)
            (map flight_of flights.items) s.state) }
        ensures holds { IfOk result (λ s. Holds s.planner s.problem) }
        ensures steps { IfOk result (λ s. (n : ℕ) × IsDue (problem_held planner) s.problem n
            × (L.count steps.new ≡ raised_by n (L.count steps.old))) }
        ensures openable { IfOk result (λ _. opening_fault aerodrome flights.items ≡ None) }
        ensures refused { IfErr result (IsRefusedBy (opening_fault aerodrome flights.items)) }
        ensures kept { IfErr result (λ fault. MatchOption (opening_fault_of fault) ⊤
            (λ _. steps.new ≡ steps.old)) }
    {
        let situation = opening(alloc, &aerodrome, flights.as_slice())?;
        let sequencer = Sequencer::start(rt, alloc, situation, planner, gate, steps)?;
        Ok(sequencer)
    }
}
