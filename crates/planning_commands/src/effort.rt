ghost use Rattle.planning_commands.specs.Effort.{FollowsEffort};

use crate::replay::{LogFiles, begin_files, ending_of};
use cps_outside::{Gate, Sink};
use endings::Ending;
use replays::Opened;
use std::alloc::Global;
use std::thread::Threads;

/// The command `effort`: prints how many steps each planning of a replay of the files takes, and answers whether the last plan
/// is a schedule.
pub fn run_effort<R: Threads + Sync, S: Sink, G: Gate + Sync>(
    rt: &R,
    alloc: Global,
    files: &LogFiles<'_>,
    out: &mut S,
    gate: &G,
) -> Ending
    ensures { FollowsEffort files.now.aerodrome.now files.now.flights.now files.now.events.now
        (S.state out.old) (S.state out.new) result }
{
    let (sequencer, events, steps) = match begin_files(rt, alloc, files, gate) {
        Ok(begun) => begun,
        Err(ending) => return ending,
    };
    let mut opened = Opened { sequencer, steps };
    let ended = replays::effort(rt, alloc, &mut opened, events.as_slice(), out, gate);
    ending_of(ended)
}
