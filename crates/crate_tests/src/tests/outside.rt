use cps_outside::{Folder, FreeGate, Gate, LoadFault, MemoryFolder, MemorySink, Sink, WriteFailed};
use std::alloc::{AllocError, Global};
use std::test::Fail;

// A folder of two files of one name, in which the second load fails.
fn days(alloc: Global) -> Result<MemoryFolder, AllocError> {
    let mut files = Vec::new(alloc);
    files.push((String::from_str(alloc, "day")?, vec![in alloc; 1u8, 2, 3]?))?;
    files.push((String::from_str(alloc, "day")?, vec![in alloc; 9u8]?))?;
    Ok(MemoryFolder::new(alloc, files, vec![in alloc; 2u32]?))
}

// How many bytes a load gives.
fn load<F: Folder>(folder: &mut F, name: &str, most: usize) -> Result<usize, LoadFault> {
    Ok(folder.load(name, most)?.len())
}

const LOADS: [(&str, usize, Result<usize, LoadFault>); 5] = [
    ("day", 3, Ok(3)),
    ("day", 3, Err(LoadFault::Failed)),
    ("night", 3, Err(LoadFault::Failed)),
    ("day", 2, Err(LoadFault::TooLong)),
    ("day", 3, Ok(3)),
];

#[test]
fn loads_in_memory_fail_where_told(rt: HostRuntime) -> Result<(), Fail> {
    let mut folder = days(rt.alloc())?;
    for (name, most, answer) in LOADS {
        assert_eq!(rt; load(&mut folder, name, most), answer);
    }
    Ok(())
}

// A sink of 8 bytes, in which two puts fail after so many.
fn failing_sink(alloc: Global) -> Result<MemorySink, AllocError> {
    MemorySink::new(alloc, 8, vec![in alloc; (2u32, 1u32), (3u32, 99u32)]?)
}

const PUTS: [(&str, Result<(), WriteFailed>, &str); 5] = [
    ("abc", Ok(()), "abc"),
    ("def", Err(WriteFailed), "abcd"),
    ("ef", Err(WriteFailed), "abcdef"),
    ("ghi", Err(WriteFailed), "abcdefgh"),
    ("", Ok(()), "abcdefgh"),
];

#[test]
fn puts_in_memory_fail_where_told(rt: HostRuntime) -> Result<(), Fail> {
    let mut sink = failing_sink(rt.alloc())?;
    for (piece, answer, written) in PUTS {
        assert_eq!(rt; sink.put(piece.as_bytes()), answer);
        assert_eq!(rt; sink.written(), written.as_bytes());
    }
    FreeGate.pass(0);
    Ok(())
}
