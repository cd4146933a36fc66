ghost use Rattle.std.specs.Prelude.{[], IfOk, map, string_bytes};
ghost use Rattle.cps_outside.specs.MemoryFolder.{folder_state};
ghost use Rattle.cps_outside.specs.MemorySink.{sink_state, fresh_sink};
ghost use Rattle.cps_top.specs.Outcome.{RunsTo};
ghost use Rattle.worked_runs.specs.Given.{given, Answers, SaysLine};

use cps_outside::{Gate, MemoryFolder, MemorySink};
use cps_top::run;
use std::alloc::{AllocError, Global};
use std::thread::Threads;

/// A run that has ended.
#[derive(Drop)]
pub struct MemoryRun {
    /// Its status, 0 to 8.
    pub status: u8,
    /// The files that were given, after their loads.
    pub folder: MemoryFolder,
    /// What it wrote.
    pub out: MemorySink,
    /// The line that says how it ended, where it did not print its text.
    pub err: MemorySink,
}

/// Runs the command of these words over these files, with room for `room` bytes of output and as many of the line on the
/// standard error.
///
/// No load of a file that is given fails, and no put of bytes for which there is room. So, where the files of the
/// command are given and taken, and the room is as many bytes as it prints at most (`cps_top`, `texts_are_bounded`), the
/// output is a text that it may print, whole, with the status of its answer, 0, 1 or 7, or memory ran out, with status
/// 8. Where the room is enough for the line of how the run ended, the standard error holds that line.
pub fn run_in_memory<R: Threads + Sync, G: Gate + Sync>(
    rt: &R,
    alloc: Global,
    words: &[String],
    files: Vec<(String, Vec<u8>)>,
    room: usize,
    gate: &G,
) -> Result<MemoryRun, AllocError>
    ensures outcome { IfOk result (λ r. RunsTo (map string_bytes words.now) (given files.items
        room)
        record { folder = folder_state r.folder; out = sink_state r.out }
        (fresh_sink room []) (sink_state r.err) r.status) }
    ensures answers { IfOk result (λ r. Answers (map string_bytes words.now) files.items room
        r.status (sink_state r.out).written) }
    ensures line { IfOk result (λ r. SaysLine room r.status (sink_state r.err).written) }
{
    let mut folder = MemoryFolder::new(alloc, files, Vec::new(alloc));
    let mut out = MemorySink::new(alloc, room, Vec::new(alloc))?;
    let mut err = MemorySink::new(alloc, room, Vec::new(alloc))?;
    let status = run(rt, alloc, words, &mut folder, &mut out, &mut err, gate);
    Ok(MemoryRun {
        status,
        folder,
        out,
        err,
    })
}
