ghost use Rattle.std.specs.Prelude.{◌<◌, ◌^◌, All, length, map};
ghost use Rattle.landing_rules.specs.Text.{begun_text};
ghost use Rattle.arrivals.specs.Seen.{event_of, IsGood};
ghost use Rattle.replays.specs.Written.{PutsText};
ghost use Rattle.replays.specs.Runs.{PutsAnswer, ReplayEnds};

use crate::lines::{begun, refused, write_accepted};
use crate::stops::Stop;
use arrivals::Event;
use cps_base::{Silent, Steps};
use cps_outside::{Gate, Sink};
use cps_problem::Planner;
use plan_text::KeptText;
use replan::AnyKept;
use sequencer::Sequencer;
use situations::Refusal;
use std::alloc::Global;
use std::thread::Threads;

// The answer of an event that was tried, in one put.
fn put_answer<P: Planner, S: Sink>(
    alloc: Global,
    sequencer: &Sequencer<P>,
    number: u32,
    outcome: Result<(), Refusal>,
    answer: &mut KeptText,
    out: &mut S,
) -> Result<(), Stop>
    ensures { PutsAnswer sequencer.now.state number outcome
        (S.state out.old) (S.state out.new) result }
{
    match outcome {
        Ok(()) => {
            write_accepted(alloc, sequencer, number, answer)?;
            out.put(answer.text())?;
        }
        Err(Refusal::Memory) => return Err(Stop::NoMemory),
        Err(refusal) => {
            let text = refused(alloc, number, &refusal)?;
            out.put(text.as_slice())?;
        }
    }
    Ok(())
}

// The opening plan, in one put.
fn open<P: Planner, S: Sink>(
    alloc: Global,
    sequencer: &Sequencer<P>,
    out: &mut S,
) -> Result<(), Stop>
    ensures { PutsText (begun_text sequencer.now.state) (S.state out.old) (S.state out.new) result }
{
    let text = begun(alloc, sequencer)?;
    out.put(text.as_slice())?;
    Ok(())
}

/// Replays the events from the state of the sequencer: prints its plan, then for each event its answer, and the plan
/// after it where it was accepted. The opening plan is one put, and so is each answer. It answers whether a plan is shown
/// at the end.
///
/// It asks that the events' numbers are in their ranges, and that there are fewer than 2^31. Where it answers a plan, or
/// none, `out` grew by the text of a run of the rules over all of the events. After a put that failed the text of a run over
/// the events before stands whole, and behind it a part of that put's; where memory ran out, nothing or the whole of such a
/// text.
pub fn replay<R: Threads + Sync, S: Sink, G: Gate + Sync>(
    rt: &R,
    alloc: Global,
    sequencer: &mut Sequencer<AnyKept>,
    events: &[Event],
    out: &mut S,
    gate: &G,
) -> Result<bool, Stop>
    requires good { All IsGood events.now }
    requires few { length events.now < 2 ^ 31 }
    ensures outcome { ReplayEnds sequencer.old.state sequencer.new.state
        (map event_of events.now) (S.state out.old) (S.state out.new) result }
{
    open(alloc, &*sequencer, out)?;
    let mut answer = KeptText::new(alloc);
    let mut steps = Steps::new(Silent);
    for i in 0..events.len() {
        let outcome = sequencer.apply(rt, alloc, &events[i], gate, &mut steps);
        put_answer(alloc, &*sequencer, i as u32 + 1, outcome, &mut answer, out)?;
    }
    Ok(sequencer.plan().is_some())
}
