use super::given::text_of_three;
use crate::CountingGate;
use std::alloc::Global;
use std::test::Fail;
use std::thread::Threads;

const EVENTS: &str = "kind,callsign,category,eta,weight,windows,after
add,E9,E,5000,1,5000-6000,
";

const STEPS: &str = "event 0 begun steps 8
event 1 accepted steps 10
total 18
";

// How many pieces pass where the steps of three flights and of one more are counted, for an objective.
fn passes<R: Threads + Sync>(rt: &R, alloc: Global, objective: &str) -> Result<u64, Fail> {
    let gate = CountingGate::new();
    let text = text_of_three(rt, alloc, "effort", objective, EVENTS, &gate)?;
    if text.as_slice() != STEPS.as_bytes() {
        return Err(Fail::new("other steps"));
    }
    Ok(gate.passes())
}

// Three stages of three flights, and two more of four: each is one piece.
#[test]
fn stages_that_are_kept_pass_no_gate(rt: HostRuntime) -> Result<(), Fail> {
    assert_eq!(rt; passes(&rt, rt.alloc(), "makespan")?, 5);
    Ok(())
}

#[test]
fn each_window_passes_where_pairs_are_listed(rt: HostRuntime) -> Result<(), Fail> {
    assert_eq!(rt; passes(&rt, rt.alloc(), "delay")?, 18);
    Ok(())
}
