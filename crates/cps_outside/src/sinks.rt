ghost use Rattle.std.specs.Prelude.{◌^◌, ◌<◌};
ghost use Rattle.cps_outside.specs.SinkState.{SinkState, Writes, CountsPuts};

/// Not all of the bytes were written.
#[derive(Clone, Copy, Debug, PartialEq, Eq)]
pub struct WriteFailed;

/// What output goes to.
///
/// Contracts see whether the sink tells what was written to it, the bytes written so far, whether it is sure (no put of
/// bytes for which there is room fails), for how many more bytes there is room, how often it failed, and how many puts
/// there were. A count that stands at its last value, 2^64 - 1, stays there.
pub trait Sink {
    ghost state: { Self → SinkState };

    /// Writes all of the bytes, or the first of them (none, some or all) and fails, with one more fault. A sink that is
    /// sure fails only where there is no room for them, and loses no more room than they need.
    fn put(&mut self, bytes: &[u8]) -> Result<(), WriteFailed>
        ensures writes { Writes (state self.old) (state self.new) bytes.now result }
        ensures counted { CountsPuts 1 (state self.old) (state self.new) }
        ensures fits { (state self.new).faults < 2 ^ 64 };
}
