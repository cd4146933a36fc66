//! The words and files of the runs.

use cps_outside::Gate;
use std::alloc::{AllocError, Global};
use std::test::Fail;
use std::thread::Threads;
use wake_table::SAMPLE_TEXT;
use worked_runs::run_in_memory;

const FLIGHTS: &str = "callsign,category,eta,weight,windows,after
A1,A,1000,1,1000-2000,
A2,A,1001,1,1001-2000,
F1,F,1010,1,1010-2000,
";

fn file(alloc: Global, name: &str, parts: &[&str]) -> Result<(String, Vec<u8>), AllocError> {
    let mut content = Vec::new(alloc);
    for part in parts {
        content.extend_from_slice(part.as_bytes())?;
    }
    Ok((String::from_str(alloc, name)?, content))
}

// The text that a run of these words prints over these files.
pub(crate) fn text_of<R: Threads + Sync, G: Gate + Sync>(
    rt: &R,
    alloc: Global,
    words: &[&str],
    files: Vec<(String, Vec<u8>)>,
    gate: &G,
) -> Result<Vec<u8>, Fail> {
    let mut given = Vec::new(alloc);
    for word in words {
        given.push(String::from_str(alloc, word)?)?;
    }
    let run = run_in_memory(rt, alloc, given.as_slice(), files, 1000, gate)?;
    if run.status != 0 {
        return Err(Fail::new("another status"));
    }
    let mut text = Vec::new(alloc);
    text.extend_from_slice(run.out.written())?;
    Ok(text)
}

// Three flights that may be moved by one place, and a third file.
fn three(
    alloc: Global,
    objective: &str,
    third: &str,
) -> Result<Vec<(String, Vec<u8>)>, AllocError> {
    let head = [
        "version = 1\nk = 1\nfreeze = 150\nobjective = \"",
        objective,
        "\"\n",
        SAMPLE_TEXT,
    ];
    let mut files = Vec::new(alloc);
    files.push(file(alloc, "aerodrome", &head)?)?;
    files.push(file(alloc, "flights", &[FLIGHTS])?)?;
    files.push(file(alloc, "third", &[third])?)?;
    Ok(files)
}

// The text that a command prints over these.
pub(crate) fn text_of_three<R: Threads + Sync, G: Gate + Sync>(
    rt: &R,
    alloc: Global,
    command: &str,
    objective: &str,
    third: &str,
    gate: &G,
) -> Result<Vec<u8>, Fail> {
    let files = three(alloc, objective, third)?;
    text_of(
        rt,
        alloc,
        &[command, "aerodrome", "flights", "third"],
        files,
        gate,
    )
}
