ghost use Rattle.std.specs.Prelude.{◌≡◌, ◌≢◌, ℕ, ◌+◌, ◌<◌, ◌≤◌, List, length, take, Option, Some, None, IfOk, IfErr, IfSome, vec_len};
ghost use Rattle.std.specs.Io.{ReadsAtMost};
ghost use Rattle.std.specs.Io.KnownBytes.{Consumes, IsAtEnd, ReadConsumes};
ghost use Rattle.std.specs.IoError.{error_kind};
ghost use Rattle.std.specs.declared.io.ErrorKind.{ErrorKind};
ghost use Rattle.cps_outside.specs.SourceFaults.{IsOfReadOrMemory};

use std::alloc::Global;
use std::io;
use std::io::{ErrorKind, Read};

/// What bytes are read from, a piece at a time.
///
/// Contracts see the bytes that are left, where they are known, and of which kind the last read's error was.
pub trait Source {
    ghost remaining: { Self → Option (List ℕ) };

    ghost fault: { Self → Option ErrorKind };

    /// Reads the next bytes to the front of the buffer, and says how many: none only at the end, or where there is no room.
    fn read(&mut self, buffer: &mut [u8]) -> io::Result<usize>
        ensures bound { ReadsAtMost result buffer.new }
        ensures bytes { ReadConsumes (remaining self.old) (remaining self.new) result buffer.new }
        ensures failed { IfErr result (λ e. fault self.new ≡ Some (error_kind e)) };
}

/// A reader as a source. It keeps the kind of its last read's error.
#[derive(Drop)]
pub struct ReaderSource<F> {
    reader: F,
    fault: Option<ErrorKind>,
}

impl<F: Read> ReaderSource<F> {
    /// This reader, of which no read has failed yet.
    pub fn new(reader: F) -> ReaderSource<F>
        ensures remaining { ⟦<ReaderSource<F> as Source>⟧.remaining result ≡ F.remaining reader }
        ensures fault { ⟦<ReaderSource<F> as Source>⟧.fault result ≡ None }
    {
        ReaderSource {
            reader,
            fault: None,
        }
    }
}

impl<F: Read> Source for ReaderSource<F> {
    ghost remaining = { λ s. F.remaining s.reader };

    ghost fault = { λ s. s.fault };

    fn read(&mut self, buffer: &mut [u8]) -> io::Result<usize> {
        let result = self.reader.read(buffer);
        self.fault = match &result {
            Ok(_) => None,
            Err(e) => Some(e.kind()),
        };
        result
    }
}

// The most bytes of one read.
const PIECE: usize = 8192;

/// The bytes up to the end, or where there are more, one more than `most` of them. An error is that of the last read, an interrupt
/// as well, or that memory is short.
pub fn read_pieces<S: Source>(alloc: Global, source: &mut S, most: usize) -> io::Result<Vec<u8>>
    ensures bounded { IfOk result (λ bytes. vec_len bytes ≤ most + 1) }
    ensures content { IfOk result (λ bytes. IfSome (S.remaining source.old)
        (λ all. bytes.items ≡ take (most + 1) all)) }
    ensures failed { IfErr result (λ e. IsOfReadOrMemory (S.fault source.new) (error_kind e)) }
{
    let mut bytes = Vec::new(alloc);
    let mut piece = [0u8; PIECE];
    while bytes.len() <= most {
        let room = (most - bytes.len()).min(PIECE - 1) + 1;
        let count = source.read(&mut piece[..room])?;
        if count == 0 {
            break;
        }
        bytes.extend_from_slice(&piece[..count])?;
    }
    Ok(bytes)
}
