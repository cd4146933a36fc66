ghost use Rattle.arrivals.specs.Seen.{IsGood};

use super::day::{aerodrome, events, flights};
use super::picture::{is_last, picture_of};
use arrivals::Event;
use cps_base::{Counted, Steps};
use cps_outside::FreeGate;
use plan_text::plan_block;
use replan::AnyKept;
use sequencer::{Refusal, Sequencer};
use std::alloc::{AllocError, Global};
use std::test::Fail;
use std::thread::Threads;

// The plan that is shown, as it is printed.
fn block(alloc: Global, sequencer: &Sequencer<AnyKept>) -> Result<Vec<u8>, AllocError> {
    let mut text = Vec::new(alloc);
    plan_block(sequencer.objective(), sequencer.plan(), &mut text)?;
    Ok(text)
}

// One step by the event. Where memory is refused it has changed nothing, and is made again.
fn step<R: Threads + Sync>(
    rt: &R,
    alloc: Global,
    sequencer: &mut Sequencer<AnyKept>,
    event: &Event,
) -> Result<(), Fail>
    requires { IsGood event.now }
{
    let mut steps = Steps::new(Counted::new());
    let before = picture_of(alloc, sequencer.situation())?;
    let shown = block(alloc, sequencer)?;
    match sequencer.apply(rt, alloc, event, &FreeGate, &mut steps) {
        Ok(()) => return Ok(()),
        Err(Refusal::Memory) => {}
        Err(_) => return Err(Fail::new("an event is refused")),
    }
    if !picture_of(alloc, sequencer.situation())?.is(&before) || block(alloc, sequencer)? != shown {
        return Err(Fail::new("want of memory, and not as before"));
    }
    let again = sequencer.apply(rt, alloc, event, &FreeGate, &mut steps);
    Ok(again.ok().ok_or("not accepted once there is memory")?)
}

#[test]
fn want_of_memory_changes_nothing(rt: HostRuntime) -> Result<(), Fail> {
    let alloc = rt.alloc();
    let mut steps = Steps::new(Counted::new());
    let (aerodrome, flights) = (aerodrome(alloc)?, flights(alloc)?);
    let planner = AnyKept::fresh(aerodrome.k);
    let begun = Sequencer::begin(
        &rt, alloc, aerodrome, flights, planner, &FreeGate, &mut steps,
    );
    let mut sequencer = begun.ok().ok_or("the files open no situation")?;
    let events = events(alloc)?;
    for event in &events {
        step(&rt, alloc, &mut sequencer, event)?;
    }
    assert!(rt; is_last(&picture_of(alloc, sequencer.situation())?)?);
    Ok(())
}
