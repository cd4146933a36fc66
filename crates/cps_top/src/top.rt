ghost use Rattle.std.specs.Prelude.{map, string_bytes};
ghost use Rattle.cps_top.specs.Outcome.{Ends, RunsTo};
ghost use Rattle.cps_top.specs.Statuses.{Causes, Asks, Completes, IsExact, IsSure};

use crate::commands::{files, perform, read_command, texts_are_bounded};
use cps_outside::{Folder, Gate, Sink};
use endings::{Ending, load_all, say, status};
use std::alloc::Global;
use std::thread::Threads;

fn work<R: Threads + Sync, F: Folder, S: Sink, G: Gate + Sync>(
    rt: &R,
    alloc: Global,
    words: &[String],
    folder: &mut F,
    out: &mut S,
    gate: &G,
) -> Ending
    ensures { Ends (map string_bytes words.now)
        record { folder = F.state folder.old; out = S.state out.old }
        record { folder = F.state folder.new; out = S.state out.new } result }
{
    let Some(command) = read_command(words) else {
        return Ending::Misused;
    };
    match load_all(alloc, folder, files(command, words)) {
        Err(ending) => ending,
        Ok(contents) => perform(rt, alloc, command, contents.as_slice(), out, gate),
    }
}

/// Runs the command of these words, and answers its status, 0 to 8.
///
/// The work goes in this order: the words; the loads, in the order of the words; the reading of each file, in the same
/// order; the refusals of the opening; what the command prints of them. The first thing that goes wrong decides the status.
///
/// | status | comes |
/// |---|---|
/// | 0, 1, 7 | the text was written, with the answer of this status (`Answer` of endings) |
/// | 2 | the words fit no command |
/// | 3 | the files are not taken |
/// | 4 | a load failed |
/// | 5 | a put to `out` failed |
/// | 6 | a file is longer than 16,777,216 bytes |
/// | 8 | memory ran out |
///
/// With the statuses 2 to 6 and 8 a line on `err` says so. A failed put to `err` changes no status.
pub fn run<R: Threads + Sync, F: Folder, S: Sink, E: Sink, G: Gate + Sync>(
    rt: &R,
    alloc: Global,
    words: &[String],
    folder: &mut F,
    out: &mut S,
    err: &mut E,
    gate: &G,
) -> u8
    // It ends as its words and files say, and says so on `err`.
    ensures outcome { RunsTo (map string_bytes words.now)
        record { folder = F.state folder.old; out = S.state out.old }
        record { folder = F.state folder.new; out = S.state out.new }
        (E.state err.old) (E.state err.new) result }

    // What follows from that for each status.
    ensures causes { Causes (map string_bytes words.now)
        record { folder = F.state folder.old; out = S.state out.old }
        record { folder = F.state folder.new; out = S.state out.new } result }
    ensures asks { Asks (map string_bytes words.now)
        record { folder = F.state folder.old; out = S.state out.old }
        record { folder = F.state folder.new; out = S.state out.new } result }
    ensures completes { Completes (map string_bytes words.now)
        record { folder = F.state folder.old; out = S.state out.old }
        record { folder = F.state folder.new; out = S.state out.new } result }
    ensures exact { IsExact (map string_bytes words.now)
        record { folder = F.state folder.old; out = S.state out.old }
        record { folder = F.state folder.new; out = S.state out.new } result }
    ensures sure { IsSure (map string_bytes words.now)
        record { folder = F.state folder.old; out = S.state out.old }
        record { folder = F.state folder.new; out = S.state out.new } result }
{
    texts_are_bounded();
    let ending = work(rt, alloc, words, folder, out, gate);
    let _ = say(err, &ending);
    status(&ending)
}
