ghost use Rattle.std.specs.Prelude.{IfOk, MatchResult};
ghost use Rattle.arrivals.specs.Aerodromes.{IsInRange};
ghost use Rattle.arrivals.specs.Flights.{AreArrivals};
ghost use Rattle.endings.specs.Files.{HoldsOfTwo};
ghost use Rattle.endings.specs.Refusing.{StopsOpened};
ghost use Rattle.openings.specs.Plan.{IsOpened, IsPlannedAnew, StopsPlan};

use aerodrome_file::read_aerodrome;
use arrivals::{Aerodrome, Flight};
use cps_base::{Counted, Steps};
use cps_outside::Gate;
use endings::Ending;
use flight_file::read_flights;
use replan::{AnyKept, due_is_small};
use sequencer::Sequencer;
use std::alloc::Global;
use std::thread::Threads;

/// The sequencer that the files begin, with a planner that keeps its stages, and the steps of its planning; or how the command
/// ends that wanted it: the files open no situation, or memory ran out.
pub fn begin<R: Threads + Sync, G: Gate + Sync>(
    rt: &R,
    alloc: Global,
    aerodrome: Aerodrome,
    flights: Vec<Flight>,
    gate: &G,
) -> Result<(Sequencer<AnyKept>, u64), Ending>
    requires range { IsInRange aerodrome }
    requires read { AreArrivals flights.items }
    ensures opened { MatchResult result
        (λ begun. IsOpened aerodrome flights.items begun.0.state)
        (StopsOpened aerodrome flights.items) }
    ensures planned { IfOk result (λ begun. IsPlannedAnew begun.0 begun.1) }
{
    let planner = AnyKept::fresh(aerodrome.k);
    let mut steps = Steps::new(Counted::new());
    let sequencer = Sequencer::begin(rt, alloc, aerodrome, flights, planner, gate, &mut steps)?;
    due_is_small(sequencer.problem());
    Ok((sequencer, steps.ledger().value()))
}

/// The same for the bytes of the two files, which it refuses for the first cause in their order.
pub fn open_files<R: Threads + Sync, G: Gate + Sync>(
    rt: &R,
    alloc: Global,
    aerodrome: &[u8],
    flights: &[u8],
    gate: &G,
) -> Result<(Sequencer<AnyKept>, u64), Ending>
    ensures opened { MatchResult result
        (λ begun. HoldsOfTwo aerodrome.now flights.now (λ a fs. IsOpened a fs begun.0.state))
        (StopsPlan aerodrome.now flights.now) }
    ensures planned { IfOk result (λ begun. IsPlannedAnew begun.0 begun.1) }
{
    let aerodrome = read_aerodrome(alloc, aerodrome)?;
    let flights = read_flights(alloc, flights)?;
    begin(rt, alloc, aerodrome, flights, gate)
}
