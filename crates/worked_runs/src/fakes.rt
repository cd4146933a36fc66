ghost use Rattle.std.specs.Prelude.{◌≡◌, IfOk};
ghost use Rattle.cps_outside.specs.MemoryFolder.{failing_loads_of, folder_state, fresh_folder, loads_of};
ghost use Rattle.cps_outside.specs.MemorySink.{failing_puts_of, fresh_sink, puts_of, sink_state};

use cps_outside::{MemoryFolder, MemorySink};
use std::alloc::{AllocError, Global};

/// A folder of these files before any load, in which the loads of these numbers, from 1, fail, and those
/// of names that are not there.
pub fn failing_folder(
    alloc: Global,
    files: Vec<(String, Vec<u8>)>,
    failing: &[u32],
) -> Result<MemoryFolder, AllocError>
    ensures state { IfOk result (λ folder. folder_state folder
        ≡ fresh_folder files.items failing.now) }
    ensures failing { IfOk result (λ folder. failing_loads_of folder ≡ failing.now) }
    ensures loads { IfOk result (λ folder. loads_of folder ≡ 0) }
{
    Ok(MemoryFolder::new(alloc, files, failing.to_vec(alloc)?))
}

/// A sink with room for `room` bytes before any put, in which the puts of these numbers, from 1, fail, each with the
/// bytes that it takes, and those for which there is no room.
pub fn failing_sink(
    alloc: Global,
    room: usize,
    failing: &[(u32, u32)],
) -> Result<MemorySink, AllocError>
    ensures state { IfOk result (λ sink. sink_state sink ≡ fresh_sink room failing.now) }
    ensures failing { IfOk result (λ sink. failing_puts_of sink ≡ failing.now) }
    ensures puts { IfOk result (λ sink. puts_of sink ≡ 0) }
{
    MemorySink::new(alloc, room, failing.to_vec(alloc)?)
}
