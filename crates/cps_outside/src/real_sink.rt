ghost use Rattle.std.specs.Prelude.{◌≡◌, false, true, IsTrue, IsSome, OnOk, OnErr};
ghost use Rattle.std.specs.Io.KnownBytes.{Appends};
ghost use Rattle.cps_outside.specs.Appended.{AppendsFront};

use crate::{Sink, WriteFailed};
use std::io;
use std::io::{ErrorKind, Write};

/// A writer, as standard output. It tells the bytes that the writer holds where it was made so, and is not sure.
#[derive(Drop)]
pub struct RealSink<W: Write> {
    writer: W,
    is_told: bool,
    faults: u64,
    puts: u64,
    ghost told: { IsTrue is_told → IsSome (W.contents writer) },
}

impl<W: Write + Drop> RealSink<W> {
    ghost use Rattle.cps_outside.specs.Real.{sink_state, sink_over, writer_of};

    /// A sink into this writer, as standard output, of which it tells nothing: no contract can say what such a writer shows.
    /// No put and no fault has come yet.
    pub fn new(writer: W) -> RealSink<W>
        ensures { sink_state W.contents result ≡ sink_over false (W.contents writer) 0 0 }
    {
        RealSink {
            writer,
            is_told: false,
            faults: 0,
            puts: 0,
        }
    }

    /// The same into a writer whose bytes are known, as a vector. It tells them.
    pub fn telling(writer: W) -> RealSink<W>
        requires { IsSome (W.contents writer) }
        ensures { sink_state W.contents result ≡ sink_over true (W.contents writer) 0 0 }
    {
        RealSink {
            writer,
            is_told: true,
            faults: 0,
            puts: 0,
        }
    }

    /// The writer, with what it holds.
    pub fn into_writer(self) -> W
        ensures { result ≡ writer_of self }
    {
        self.writer
    }
}

// Writes all of the bytes, or the first of them and fails. A write that takes none of the bytes that are left is a fault.
fn write_pieces<W: Write>(writer: &mut W, bytes: &[u8]) -> io::Result<()>
    ensures ok { OnOk result (Appends (W.contents writer.old) (W.contents writer.new) bytes.now) }
    ensures part { OnErr result (AppendsFront (W.contents writer.old) (W.contents writer.new)
        bytes.now) }
{
    let mut rest = bytes;
    while !rest.is_empty() {
        let count = writer.write(rest)?;
        if count == 0 {
            return Err(io::Error::from(ErrorKind::WriteZero));
        }
        rest = &rest[count..];
    }
    Ok(())
}

impl<W: Write + Drop> Sink for RealSink<W> {
    ghost use Rattle.cps_outside.specs.Real.{sink_state};

    ghost state = { sink_state W.contents };

    fn put(&mut self, bytes: &[u8]) -> Result<(), WriteFailed> {
        let faults_then = self.faults.saturating_add(1);
        self.puts = self.puts.saturating_add(1);
        if write_pieces(&mut self.writer, bytes).is_err() {
            self.faults = faults_then;
            return Err(WriteFailed);
        }
        Ok(())
    }
}
