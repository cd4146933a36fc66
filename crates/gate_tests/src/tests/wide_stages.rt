use super::given::text_of;
use crate::{CountingGate, HoldingGate};
use cps_outside::{FreeGate, Gate};
use openings::begin;
use std::alloc::Global;
use std::test::Fail;
use std::thread::Threads;
use traffic_gen::generate;

// The first stage of more than 1,024 windows in the traffic of seed 7. It has two pieces, of which two lanes take one each.
fn first_wide_stage<R: Threads + Sync>(rt: &R, alloc: Global) -> Result<u8, Fail> {
    let (aerodrome, flights) = generate(alloc, 7, 60, 3)?.into_parts();
    let begun = begin(rt, alloc, aerodrome, flights, &FreeGate);
    let (sequencer, _) = begun.ok().ok_or("the traffic opens no situation")?;
    let planner = sequencer.planner();
    for stage in 1..planner.stages() + 1 {
        if planner.size(stage) > 1024 {
            return Ok(stage);
        }
    }
    Err(Fail::new("no stage is wide"))
}

// What a trial of that traffic prints.
fn summary<R: Threads + Sync, G: Gate + Sync>(
    rt: &R,
    alloc: Global,
    gate: &G,
) -> Result<Vec<u8>, Fail> {
    text_of(rt, alloc, &["trial", "7", "60", "3"], Vec::new(alloc), gate)
}

#[test]
fn two_pieces_of_a_stage_run_beside_each_other(rt: HostRuntime) -> Result<(), Fail> {
    let stage = first_wide_stage(&rt, rt.alloc())?;
    let gate = HoldingGate::behind(u64::from(stage).saturating_sub(1));
    let text = summary(&rt, rt.alloc(), &gate)?;
    assert!(rt; gate.has_seen());
    assert_eq!(rt;
        text.as_slice(),
        summary(&rt, rt.alloc(), &FreeGate)?.as_slice()
    );
    Ok(())
}

#[test]
fn the_text_is_the_same_at_every_gate(rt: HostRuntime) -> Result<(), Fail> {
    let text = summary(&rt, rt.alloc(), &FreeGate)?;
    assert!(rt; text.starts_with(b"flights 60\nk 3\nnodes "));
    let gate = CountingGate::new();
    assert_eq!(rt;
        text.as_slice(),
        summary(&rt, rt.alloc(), &gate)?.as_slice()
    );
    assert!(rt; gate.passes() > 60);
    Ok(())
}
