use aerodrome_file::read_aerodrome;
use audit::audit;
use cps_base::{Counted, Steps};
use cps_outside::FreeGate;
use event_log::read_events;
use flight_file::read_flights;
use plan_file::{PlanText, read_plan};
use plan_text::plan_block;
use replan::AnyKept;
use sequencer::Sequencer;
use std::alloc::Global;
use std::test::Fail;
use wake_table::{PairTable, SAMPLE, SAMPLE_TEXT};

const HEAD: &str = "version = 1
k = 1
freeze = 150
objective = \"makespan\"
";

const FLIGHTS: &str = "callsign,category,eta,weight,windows,after
A1,A,1000,1,1000-2000,
F1,F,1010,1,1010-2000,
";

// The clock event freezes the light one, which lands first.
const EVENTS: &str = "kind,callsign,category,eta,weight,windows,after
clock,,,900,,,
";

// How many findings the printed block of the plan that is shown has, in the sequencer's own situation.
fn findings(alloc: Global, sequencer: &Sequencer<AnyKept>) -> Result<usize, Fail> {
    let mut text = Vec::new(alloc);
    plan_block(sequencer.objective(), sequencer.plan(), &mut text)?;
    let PlanText::Block(block) = read_plan(alloc, &text)? else {
        return Err(Fail::new("no plan is shown"));
    };
    Ok(audit(alloc, sequencer.situation(), &block)?.len())
}

#[test]
fn nothing_is_found_in_the_plans_that_are_shown(rt: HostRuntime) -> Result<(), Fail> {
    let alloc = rt.alloc();
    let mut text = Vec::from_slice(alloc, HEAD.as_bytes())?;
    text.extend_from_slice(SAMPLE_TEXT.as_bytes())?;
    let aerodrome = read_aerodrome(alloc, text.as_slice())?;
    assert!(rt; PairTable::new(SAMPLE) == Ok(aerodrome.table));
    let flights = read_flights(alloc, FLIGHTS.as_bytes())?;
    let events = read_events(alloc, EVENTS.as_bytes())?;
    let planner = AnyKept::fresh(aerodrome.k);
    let mut steps = Steps::new(Counted::new());
    let begun = Sequencer::begin(
        &rt, alloc, aerodrome, flights, planner, &FreeGate, &mut steps,
    );
    let mut sequencer = begun.ok().ok_or("the files open no situation")?;
    assert_eq!(rt; findings(alloc, &sequencer)?, 0);
    for event in events.iter() {
        let answer = sequencer.apply(&rt, alloc, event, &FreeGate, &mut steps);
        assert!(rt; answer.is_ok());
        assert_eq!(rt; findings(alloc, &sequencer)?, 0);
    }
    Ok(())
}
