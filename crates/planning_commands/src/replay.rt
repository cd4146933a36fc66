ghost use Rattle.std.specs.Prelude.{◌≡◌, ◌≤◌, All, map, vec_len, IfOk, MatchResult};
ghost use Rattle.cps_base.specs.Limits.{most_events};
ghost use Rattle.arrivals.specs.Seen.{event_of, IsGood};
ghost use Rattle.openings.specs.Plan.{IsPlannedAnew};
ghost use Rattle.planning_commands.specs.Replay.{ending_of, FollowsReplay, IsBegun, StopsReplay};

use aerodrome_file::read_aerodrome;
use arrivals::Event;
use cps_outside::{Gate, Sink};
use endings::Ending;
use event_log::read_events;
use flight_file::read_flights;
use openings::{answer, begin};
use replan::AnyKept;
use replays::Stop;
use sequencer::Sequencer;
use std::alloc::Global;
use std::thread::Threads;

/// The bytes of the files of a replay.
#[derive(Clone, Copy)]
pub struct LogFiles<'a> {
    /// The aerodrome file.
    pub aerodrome: &'a [u8],
    /// The flight file.
    pub flights: &'a [u8],
    /// The event log.
    pub events: &'a [u8],
}

// The sequencer that the files begin, the events of the log, and the steps of the opening plan; or why the files are not
// taken.
#[tactic(auto, using(crate::proofs::Ended::events_in_range))]
pub(crate) fn begin_files<R: Threads + Sync, G: Gate + Sync>(
    rt: &R,
    alloc: Global,
    files: &LogFiles<'_>,
    gate: &G,
) -> Result<(Sequencer<AnyKept>, Vec<Event>, u64), Ending>
    ensures begun { MatchResult result
        (λ begun. IsBegun files.now.aerodrome.now files.now.flights.now files.now.events.now
        begun.0.state (map event_of begun.1.items)
        × (All IsGood begun.1.items) × (vec_len begun.1 ≤ most_events))
        (StopsReplay files.now.aerodrome.now files.now.flights.now files.now.events.now) }
    ensures planned { IfOk result (λ begun. IsPlannedAnew begun.0 begun.2) }
{
    let aerodrome = read_aerodrome(alloc, files.aerodrome)?;
    let flights = read_flights(alloc, files.flights)?;
    let events = read_events(alloc, files.events)?;
    let (sequencer, steps) = begin(rt, alloc, aerodrome, flights, gate)?;
    // The state is sound, and the problem that of its situation.
    let _sound = sequencer.problem();
    Ok((sequencer, events, steps))
}

// How the program ends where its replay ended so.
pub(crate) fn ending_of(replayed: Result<bool, Stop>) -> Ending
    ensures { result ≡ ending_of replayed }
{
    match replayed {
        Ok(planned) => Ending::Answered(answer(planned)),
        Err(Stop::NotWritten) => Ending::NotWritten,
        Err(Stop::NoMemory) => Ending::NoMemory,
    }
}

/// The command `replay`: prints the opening plan of the files, and an answer for each event of the log, and answers whether the
/// last plan is a schedule.
pub fn run_replay<R: Threads + Sync, S: Sink, G: Gate + Sync>(
    rt: &R,
    alloc: Global,
    files: &LogFiles<'_>,
    out: &mut S,
    gate: &G,
) -> Ending
    ensures { FollowsReplay files.now.aerodrome.now files.now.flights.now files.now.events.now
        (S.state out.old) (S.state out.new) result }
{
    let (mut sequencer, events, _) = match begin_files(rt, alloc, files, gate) {
        Ok(begun) => begun,
        Err(ending) => return ending,
    };
    let replayed = replays::replay(rt, alloc, &mut sequencer, events.as_slice(), out, gate);
    ending_of(replayed)
}
