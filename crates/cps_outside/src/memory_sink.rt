// `MemorySink` has a ghost field, so what names it is imported at its impl blocks.
ghost use Rattle.std.specs.Prelude.{◌≡◌, ◌+◌, ◌^◌, ◌<◌, ◌≤◌, ◌++◌, [], length, take, is_ok, IsOk, IfOk, vec_len, vec_capacity};
ghost use Rattle.cps_outside.specs.FailingPuts.{bytes_of_failing};

use crate::{Sink, WriteFailed};
use std::alloc::{AllocError, Global};

/// Output kept in memory, in a room that is made once. It tells what was written, and fails where its room is too small
/// and at each put whose number, counted from 1, is listed.
#[derive(Drop)]
pub struct MemorySink {
    written: Vec<u8>,
    failing: Vec<(u32, u32)>,
    puts: u64,
    faults: u64,
    room: usize,
    ghost within: { vec_len written + room ≤ vec_capacity written },
}

impl MemorySink {
    ghost use Rattle.cps_outside.specs.MemorySink.{sink_state, fresh_sink, room_of, failing_puts_of, puts_of};

    /// A sink with room for `room` bytes. For a pair (n, m) in `failing`, put n takes the first m bytes of its piece, or
    /// as many as the piece and the room left allow where that is fewer, and fails.
    pub fn new(
        alloc: Global,
        room: usize,
        failing: Vec<(u32, u32)>,
    ) -> Result<MemorySink, AllocError>
        ensures state { IfOk result (λ sink. sink_state sink ≡ fresh_sink room failing.items) }
        ensures room { IfOk result (λ sink. room_of sink ≡ room) }
        ensures failing { IfOk result (λ sink. failing_puts_of sink ≡ failing.items) }
        ensures puts { IfOk result (λ sink. puts_of sink ≡ 0) }
    {
        let written = Vec::with_capacity(alloc, room)?;
        Ok(MemorySink {
            written,
            failing,
            puts: 0,
            faults: 0,
            room,
        })
    }

    /// The bytes written so far.
    pub fn written(&self) -> &[u8]
        ensures { result.now ≡ (sink_state self.now).written }
    {
        self.written.as_slice()
    }

    /// How many puts there were, at most 2 ^ 64 - 1.
    pub fn puts(&self) -> u64
        ensures { result ≡ puts_of self.now }
    {
        self.puts
    }

    // Takes these bytes, for which there is room.
    fn take(&mut self, bytes: &[u8])
        requires { length bytes.now ≤ self.old.room }
        ensures written { self.new.written.items ≡ self.old.written.items ++ bytes.now }
        ensures faults { self.new.faults ≡ self.old.faults }
        ensures puts { self.new.puts ≡ self.old.puts }
        ensures room { self.new.room + length bytes.now ≡ self.old.room }
        ensures failing { self.new.failing.items ≡ self.old.failing.items }
    {
        let _ = self.written.extend_from_slice(bytes);
        self.room -= bytes.len();
    }
}

// How many bytes the put of this number takes, if it is to fail.
fn bytes_of_failing(failing: &[(u32, u32)], put: u64) -> Option<u32>
    ensures { result ≡ bytes_of_failing failing.now put }
{
    let entry = failing.iter().find(|entry| u64::from(entry.0) == put)?;
    Some(entry.1)
}

impl Sink for MemorySink {
    ghost use Rattle.cps_outside.specs.SinkState.{Writes, CountsPuts};
    ghost use Rattle.cps_outside.specs.MemorySink.{sink_state, room_of, failing_puts_of, puts_of, number_of_put, bytes_taken, takes_all};

    ghost state = { sink_state };

    fn put(&mut self, bytes: &[u8]) -> Result<(), WriteFailed>
        ensures writes { Writes (sink_state self.old) (sink_state self.new) bytes.now result }
        ensures counted { CountsPuts 1 (sink_state self.old) (sink_state self.new) }
        ensures fits { (sink_state self.new).faults < 2 ^ 64 }

        // It fails exactly where its number is listed or its piece is longer than the room left, and takes so many bytes.
        ensures answer { is_ok result ≡ takes_all self.old (length bytes.now) }
        ensures taken { (sink_state self.new).written ≡
            (sink_state self.old).written ++ take (bytes_taken self.old (length bytes.now)) bytes.now }
        ensures room { room_of self.new + bytes_taken self.old (length bytes.now)
            ≡ room_of self.old }

        // With no put listed and room enough, none fails.
        ensures enough { failing_puts_of self.old ≡ [] → length bytes.now ≤ room_of self.old
            → IsOk result }

        // A put that does not fail counts no fault.
        ensures faultless { IsOk result → (sink_state self.new).faults ≡ (sink_state
            self.old).faults }
        ensures failing { failing_puts_of self.new ≡ failing_puts_of self.old }
        ensures puts { puts_of self.new ≡ number_of_put self.old }
    {
        let faults_then = self.faults.saturating_add(1);
        self.puts = self.puts.saturating_add(1);
        let most = bytes.len().min(self.room);
        match bytes_of_failing(self.failing.as_slice(), self.puts) {
            Some(taken) => {
                self.take(&bytes[..most.min(taken as usize)]);
                self.faults = faults_then;
                Err(WriteFailed)
            }
            None => {
                self.take(&bytes[..most]);
                if most < bytes.len() {
                    self.faults = faults_then;
                    return Err(WriteFailed);
                }
                Ok(())
            }
        }
    }
}
