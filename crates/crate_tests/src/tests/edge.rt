// The real folder and the real sink over readers and writers in memory.
ghost use Rattle.std.specs.Prelude.{◌≤◌, Some, None, IfOk, IsTrue, true, if◌then◌else◌, bytes_eq, map, string_bytes};

use cps_outside::{
    Folder, LoadFault, OpenedFiles, Opener, ReaderSource, RealFolder, RealSink, Sink, WriteFailed,
    read_pieces,
};
use std::alloc::Global;
use std::io;
use std::io::{Cursor, ErrorKind, Read, Write};
use std::test::Fail;

// Gives or takes one byte a turn, and after `turns` bytes it ends, or fails with an error of this kind.
#[derive(Drop)]
struct Slow<'a> {
    given: &'a [u8],
    taken: Vec<u8>,
    turns: usize,
    end: Option<ErrorKind>,
}

impl<'a> Slow<'a> {
    fn new(alloc: Global, given: &'a [u8], turns: usize, end: Option<ErrorKind>) -> Slow<'a> {
        Slow {
            given,
            taken: Vec::new(alloc),
            turns,
            end,
        }
    }

    // Whether a byte moves, of so many.
    fn turn(&mut self, bytes: usize) -> io::Result<bool>
        ensures { IfOk result (λ moves. IsTrue moves → 1 ≤ bytes) }
    {
        if self.turns == 0 {
            return match self.end {
                Some(kind) => Err(io::Error::from(kind)),
                None => Ok(false),
            };
        }
        self.turns -= 1;
        Ok(bytes > 0)
    }
}

impl<'a> Read for Slow<'a> {
    fn read(&mut self, buf: &mut [u8]) -> io::Result<usize> {
        let [first, rest @ ..] = self.given else {
            return Ok(0);
        };
        if !self.turn(buf.len())? {
            return Ok(0);
        }
        buf[0] = *first;
        self.given = rest;
        Ok(1)
    }
}

impl<'a> Write for Slow<'a> {
    fn write(&mut self, buf: &[u8]) -> io::Result<usize> {
        if !self.turn(buf.len())? {
            return Ok(0);
        }
        self.taken.push(buf[0])?;
        Ok(1)
    }

    fn flush(&mut self) -> io::Result<()> {
        Ok(())
    }
}

// After so many bytes a reader of "abcdef" ends or fails: what comes of reading at most so many, and one more.
const READS: [(usize, Option<ErrorKind>, usize, Result<&str, ErrorKind>); 7] = [
    (9, None, 9, Ok("abcdef")),
    (9, None, 6, Ok("abcdef")),
    (9, None, 3, Ok("abcd")),
    (4, None, 9, Ok("abcd")),
    (3, Some(ErrorKind::BrokenPipe), 2, Ok("abc")),
    (
        3,
        Some(ErrorKind::BrokenPipe),
        3,
        Err(ErrorKind::BrokenPipe),
    ),
    (
        3,
        Some(ErrorKind::Interrupted),
        3,
        Err(ErrorKind::Interrupted),
    ),
];

#[test]
fn what_a_slow_reader_has_is_read_to_the_end_or_the_limit(rt: HostRuntime) {
    for (turns, end, most, expected) in READS {
        let mut file = ReaderSource::new(Slow::new(rt.alloc(), b"abcdef", turns, end));
        match (read_pieces(rt.alloc(), &mut file, most), expected) {
            (Ok(bytes), Ok(text)) => assert_eq!(rt; bytes.as_slice(), text.as_bytes()),
            (Err(e), Err(kind)) => assert_eq!(rt; e.kind(), kind),
            (_, expected) => assert_eq!(rt; Ok("another result"), expected),
        }
    }
}

// After so many bytes a writer takes none or fails: what comes of putting "abc" and "def", and what it holds then.
const WRITES: [(usize, Option<ErrorKind>, bool, bool, &str); 5] = [
    (6, None, true, true, "abcdef"),
    (4, Some(ErrorKind::Interrupted), true, false, "abcd"),
    (5, Some(ErrorKind::BrokenPipe), true, false, "abcde"),
    (3, None, true, false, "abc"),
    (0, Some(ErrorKind::StorageFull), false, false, ""),
];

#[test]
fn a_slow_writer_holds_what_was_put_or_a_front_of_it(rt: HostRuntime) {
    for (turns, end, first, second, held) in WRITES {
        let mut sink = RealSink::new(Slow::new(rt.alloc(), b"", turns, end));
        assert_eq!(rt; sink.put(b"abc").is_ok(), first);
        assert_eq!(rt; sink.put(b"def").is_ok(), second);
        assert_eq!(rt; sink.into_writer().taken.as_slice(), held.as_bytes());
    }
}

// One file of a name, and the names that were asked for.
#[derive(Drop)]
struct Shelf {
    alloc: Global,
    name: String,
    bytes: Vec<u8>,
    asked: Vec<String>,
}

impl Opener for Shelf {
    type File = Cursor<Vec<u8>>;

    ghost state = { λ s. record {
      tells = true;
      content = λ name. if bytes_eq name (string_bytes s.name) then Some s.bytes.items else None;
      asked = map string_bytes s.asked.items;
    } };

    fn open(&mut self, name: &str) -> io::Result<Cursor<Vec<u8>>> {
        self.asked.push(String::from_str(self.alloc, name)?)?;
        if name != self.name.as_str() {
            return Err(io::Error::from(ErrorKind::NotFound));
        }
        Ok(Cursor::new(self.bytes.as_slice().to_vec(self.alloc)?))
    }
}

const LOADS: [(&str, usize, Result<&str, LoadFault>); 5] = [
    ("day", 6, Ok("abcdef")),
    ("day", 7, Ok("abcdef")),
    ("night", 6, Err(LoadFault::Failed)),
    ("day", 5, Err(LoadFault::TooLong)),
    ("day", 6, Ok("abcdef")),
];

#[test]
fn the_files_of_an_opener_are_loaded_whole(rt: HostRuntime) -> Result<(), Fail> {
    let alloc = rt.alloc();
    let shelf = Shelf {
        alloc,
        name: String::from_str(alloc, "day")?,
        bytes: Vec::from_slice(alloc, b"abcdef")?,
        asked: Vec::new(alloc),
    };
    let mut folder = OpenedFiles::over(alloc, shelf);
    for (name, most, expected) in LOADS {
        match folder.load(name, most) {
            Ok(bytes) => assert_eq!(rt; Ok(bytes.as_slice()), expected.map(|text| text.as_bytes())),
            Err(fault) => assert_eq!(rt; Err(fault), expected),
        }
    }
    let mut files = RealFolder::new(&rt);
    assert_eq!(rt;
        files.load("no such file", 9).err(),
        Some(LoadFault::Failed)
    );
    assert_eq!(rt; files.load("..", 9).err(), Some(LoadFault::Failed));
    let mut sink = RealSink::telling(Vec::new(alloc));
    assert_eq!(rt;
        (sink.put(b"abc"), sink.put(b"def")),
        (Ok(()), Ok::<(), WriteFailed>(()))
    );
    assert_eq!(rt; sink.into_writer().as_slice(), b"abcdef".as_slice());
    Ok(())
}
