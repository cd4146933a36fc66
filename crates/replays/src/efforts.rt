ghost use Rattle.std.specs.Prelude.{◌≡◌, ◌≤◌, ◌<◌, ◌^◌, All, Some, None, MatchOption, MatchResult, is_some, length, map, ⊤};
ghost use Rattle.cps_base.specs.Limits.{most_events};
ghost use Rattle.landing_rules.specs.Sound.{IsGoodEvent};
ghost use Rattle.cps_network.specs.Due.{IsDue};
ghost use Rattle.arrivals.specs.Seen.{event_of, IsGood};
ghost use Rattle.situations.specs.Answers.{refusal_of};
ghost use Rattle.replan.specs.Kept.{Holds};
ghost use Rattle.replays.specs.Written.{PutsText};
ghost use Rattle.replays.specs.Efforts.{begun_line, total_line};
ghost use Rattle.replays.specs.Ends.{Plans, StepPlans, EventsPlan, EffortEnds};

use crate::effort_lines::{accepted, begun, total};
use crate::lines::refused;
use crate::stops::Stop;
use arrivals::Event;
use cps_base::{Counted, Steps};
use cps_outside::{Gate, Sink};
use replan::{AnyKept, due_is_small};
use sequencer::Sequencer;
use situations::Refusal;
use std::alloc::Global;
use std::thread::Threads;

// The steps of the planning after an event, counted from 0.
fn plan_event<R: Threads + Sync, G: Gate + Sync>(
    rt: &R,
    alloc: Global,
    sequencer: &mut Sequencer<AnyKept>,
    event: &Event,
    gate: &G,
) -> Result<u64, Refusal>
    requires good { IsGoodEvent (event_of event.now) }
    requires held { Holds sequencer.old.planner sequencer.old.problem }
    ensures { MatchResult result
        (λ steps. Plans sequencer.old sequencer.new (event_of event.now) None steps)
        (λ fault. MatchOption (refusal_of fault) ⊤
        (λ answer. Plans sequencer.old sequencer.new (event_of event.now) (Some answer) 0)) }
{
    // Before the event the problem is that of the situation.
    let _standing = sequencer.problem();
    let mut steps = Steps::new(Counted::new());
    sequencer.apply(rt, alloc, event, gate, &mut steps)?;
    due_is_small(sequencer.problem());
    Ok(steps.ledger().value())
}

// An event with its number in the log, from 1 on.
#[derive(Clone, Copy)]
struct Numbered<'a> {
    number: u32,
    event: &'a Event,
}

// One event: its planning, and one put of its line.
fn step<R: Threads + Sync, S: Sink, G: Gate + Sync>(
    rt: &R,
    alloc: Global,
    sequencer: &mut Sequencer<AnyKept>,
    numbered: Numbered<'_>,
    out: &mut S,
    gate: &G,
) -> Result<u64, Stop>
    requires good { IsGoodEvent (event_of numbered.event.now) }
    requires held { Holds sequencer.old.planner sequencer.old.problem }
    ensures { StepPlans sequencer.old sequencer.new numbered.entry.number
        (event_of numbered.entry.event.now)
        (S.state out.old) (S.state out.new) result }
{
    let Numbered { number, event } = numbered;
    match plan_event(rt, alloc, sequencer, event, gate) {
        Ok(steps) => {
            let text = accepted(alloc, number, steps)?;
            out.put(text.as_slice())?;
            Ok(steps)
        }
        Err(Refusal::Memory) => Err(Stop::NoMemory),
        Err(refusal) => {
            let text = refused(alloc, number, &refusal)?;
            out.put(text.as_slice())?;
            Ok(0)
        }
    }
}

// The events, in their order, and the steps of all together.
fn plan_events<R: Threads + Sync, S: Sink, G: Gate + Sync>(
    rt: &R,
    alloc: Global,
    sequencer: &mut Sequencer<AnyKept>,
    events: &[Event],
    out: &mut S,
    gate: &G,
) -> Result<u64, Stop>
    requires good { All IsGood events.now }
    requires few { length events.now ≤ most_events }
    requires held { Holds sequencer.old.planner sequencer.old.problem }
    requires fits { (S.state out.old).puts < 2 ^ 64 }
    ensures { EventsPlan sequencer.old sequencer.new (map event_of events.now) (S.state out.old)
        (S.state out.new) result }
{
    let mut total: u64 = 0;
    for i in 0..events.len() {
        let numbered = Numbered {
            number: i as u32 + 1,
            event: &events[i],
        };
        let steps = step(rt, alloc, sequencer, numbered, out, gate)?;
        total += steps;
    }
    Ok(total)
}

// The line of the opening, in one put.
fn open<S: Sink>(alloc: Global, steps: u64, out: &mut S) -> Result<(), Stop>
    ensures { PutsText (begun_line steps) (S.state out.old) (S.state out.new) result }
{
    let text = begun(alloc, steps)?;
    out.put(text.as_slice())?;
    Ok(())
}

// The last line, in one put.
fn close<S: Sink>(alloc: Global, steps: u64, out: &mut S) -> Result<(), Stop>
    ensures { PutsText (total_line steps) (S.state out.old) (S.state out.new) result }
{
    let text = total(alloc, steps)?;
    out.put(text.as_slice())?;
    Ok(())
}

// Whether a plan is shown.
fn is_planned(sequencer: &Sequencer<AnyKept>) -> bool
    ensures { result ≡ is_some sequencer.now.state.plan }
{
    sequencer.plan().is_some()
}

/// A sequencer that has begun, and the steps of its planning.
#[derive(Drop)]
pub struct Opened {
    /// The sequencer.
    pub sequencer: Sequencer<AnyKept>,
    /// How many steps the planning of its problem took.
    pub steps: u64,
}

/// Replays the events from the state of the sequencer, and prints how many steps its planning took at the opening, after
/// each accepted event, and in all. Each line is one put. It answers whether a plan is shown at the end.
///
/// It asks that the planner holds the sequencer's problem, which was planned in so many steps with nothing held, that the
/// events' numbers are in their ranges, and that there are at most 2,000. Where it answers a plan, or none, `out` grew by the
/// text of a run of the rules over all of the events, with the steps that are due at each planning. After a put that failed
/// the lines before stand whole, and behind them a part of that one; where memory ran out, the lines of the first puts, or
/// none. The steps of the opening stay as they are.
pub fn effort<R: Threads + Sync, S: Sink, G: Gate + Sync>(
    rt: &R,
    alloc: Global,
    opened: &mut Opened,
    events: &[Event],
    out: &mut S,
    gate: &G,
) -> Result<bool, Stop>
    requires good { All IsGood events.now }
    requires few { length events.now ≤ most_events }
    requires held { Holds opened.old.sequencer.planner opened.old.sequencer.problem }
    requires planned { IsDue None opened.old.sequencer.problem opened.old.steps }
    ensures outcome { EffortEnds opened.old.sequencer.state opened.new.sequencer.state
        (map event_of events.now) (S.state out.old) (S.state out.new) result }
    ensures kept { opened.new.steps ≡ opened.old.steps }
{
    due_is_small(opened.sequencer.problem());
    open(alloc, opened.steps, out)?;
    let steps = plan_events(rt, alloc, &mut opened.sequencer, events, out, gate)?;
    close(alloc, opened.steps + steps, out)?;
    Ok(is_planned(&opened.sequencer))
}
