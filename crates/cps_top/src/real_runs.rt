// The program over files that an opener opens and over writers.
ghost use Rattle.std.specs.Prelude.{true, IsSome, map, string_bytes};
ghost use Rattle.cps_outside.specs.Real.{folder_over, folder_state, sink_over, sink_state};
ghost use Rattle.cps_top.specs.Outcome.{RunsTo};

use crate::run;
use cps_outside::{Gate, OpenedFiles, Opener, RealSink};
use std::alloc::Global;
use std::io::Write;
use std::thread::Threads;

/// What a run meets outside of the program: files that an opener opens, and writers for the output and the standard error.
#[derive(Drop)]
pub struct Environment<O, W: Write, E: Write> {
    /// Opens the files that are named.
    pub opener: O,
    /// The output.
    pub out: W,
    /// The standard error.
    pub err: E,
}

/// A run that has ended.
#[derive(Drop)]
pub struct RealRun<O, W: Write, E: Write> {
    /// Its status, 0 to 8.
    pub status: u8,
    /// The files, after their loads.
    pub folder: OpenedFiles<O>,
    /// The output.
    pub out: RealSink<W>,
    /// The standard error.
    pub err: RealSink<E>,
}

/// Runs the command of these words over the files of this opener, into writers whose bytes are known: what `run` says, with
/// the contents that the opener tells and the bytes that the writers hold.
///
/// `main` calls `run` with the same folder over the system's files, and the same sinks over its streams. So of these nothing
/// is trusted but that their reads give a file's bytes, in order and to its end, and their writes take the bytes they count.
pub fn run_over<R, O, W, E, G>(
    rt: &R,
    alloc: Global,
    words: &[String],
    environment: Environment<O, W, E>,
    gate: &G,
) -> RealRun<O, W, E>
where
    R: Threads + Sync,
    O: Opener,
    W: Write + Drop,
    E: Write + Drop,
    G: Gate + Sync,
    requires out { IsSome (W.contents environment.out) }
    requires err { IsSome (E.contents environment.err) }
    ensures { RunsTo (map string_bytes words.now)
        record {
          folder = folder_over (O.state environment.opener) 0 0;
          out = sink_over true (W.contents environment.out) 0 0;
        }
        record {
          folder = folder_state O.state result.folder;
          out = sink_state W.contents result.out;
        }
        (sink_over true (E.contents environment.err) 0 0) (sink_state E.contents result.err) result.status }
{
    let mut folder = OpenedFiles::over(alloc, environment.opener);
    let mut out = RealSink::telling(environment.out);
    let mut err = RealSink::telling(environment.err);
    let status = run(rt, alloc, words, &mut folder, &mut out, &mut err, gate);
    RealRun {
        status,
        folder,
        out,
        err,
    }
}
