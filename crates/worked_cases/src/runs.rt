// The run of a case.
ghost use Rattle.std.specs.Prelude.{◌≡◌, option_copied};

use crate::cases::{Outcome, check_keys};
use crate::fields::{needed_text, number_at, numbers_at, pairs_at};
use crate::files::files_of;
use anyhow::{Result, bail};
use cps_outside::FreeGate;
use cps_top::run;
use std::alloc::Global;
use std::thread::Threads;
use toml::{Table, Value};
use worked_runs::{MemoryRun, Outputs, failing_folder, failing_sink, run_in_memory};

// The room of a case that asks for none: more bytes than any writes.
const ROOM: u32 = 8_000_000;

fn words_of(alloc: Global, case: &Table) -> Result<Vec<String>> {
    let mut words = Vec::new(alloc);
    for word in needed_text(case, "words")?.split_whitespace() {
        words.push(String::from_str(alloc, word)?)?;
    }
    Ok(words)
}

// The files that a case gives.
fn given_files(alloc: Global, texts: &Table, case: &Table) -> Result<Vec<(String, Vec<u8>)>> {
    match case.get("files") {
        None => Ok(Vec::new(alloc)),
        Some(Value::Table(named)) => files_of(alloc, texts, named),
        Some(_) => bail!("the files are no table"),
    }
}

fn is_to_fail(case: &Table) -> bool {
    case.contains_key("failing_loads")
        || case.contains_key("failing_puts")
        || case.contains_key("failing_lines")
}

// A run over these files, in which the loads, the puts and the lines fail that are to fail in this case.
fn failing_run<R: Threads + Sync>(
    rt: &R,
    alloc: Global,
    words: &[String],
    files: Vec<(String, Vec<u8>)>,
    room: usize,
    case: &Table,
) -> Result<MemoryRun> {
    let loads = numbers_at(alloc, case, "failing_loads")?;
    let puts = pairs_at(alloc, case, "failing_puts")?;
    let lines = pairs_at(alloc, case, "failing_lines")?;
    let mut folder = failing_folder(alloc, files, loads.as_slice())?;
    let mut out = failing_sink(alloc, room, puts.as_slice())?;
    let mut err = failing_sink(alloc, room, lines.as_slice())?;
    let status = run(rt, alloc, words, &mut folder, &mut out, &mut err, &FreeGate);
    Ok(MemoryRun {
        status,
        folder,
        out,
        err,
    })
}

fn outputs_of<'a>(outcome: &Outcome<'a>) -> Outputs<'a>
    ensures whole { result.whole.now ≡ outcome.now.out.now }
    ensures other { option_copied result.other ≡ option_copied outcome.now.or }
    ensures begins { option_copied result.begins ≡ option_copied outcome.now.begins }
    ensures ends { option_copied result.ends ≡ option_copied outcome.now.ends }
{
    Outputs {
        whole: outcome.out,
        other: outcome.or,
        begins: outcome.begins,
        ends: outcome.ends,
    }
}

// Whether this is what came of a run.
fn is_outcome(outcome: &Outcome<'_>, run: &MemoryRun) -> bool {
    u32::from(run.status) == outcome.status
        && outputs_of(outcome).contains(run.out.written())
        && outcome
            .puts
            .is_none_or(|puts| u64::from(puts) == run.out.puts())
        && run.err.written() == outcome.err.as_bytes()
}

/// Whether the run of a case ends as it should.
pub(crate) fn is_as_shown<R: Threads + Sync>(
    rt: &R,
    alloc: Global,
    texts: &Table,
    case: &Table,
) -> Result<bool> {
    check_keys(case)?;
    let words = words_of(alloc, case)?;
    let files = given_files(alloc, texts, case)?;
    let room = number_at(case, "room")?.unwrap_or(ROOM) as usize;
    let run = if is_to_fail(case) {
        failing_run(rt, alloc, words.as_slice(), files, room, case)?
    } else {
        run_in_memory(rt, alloc, words.as_slice(), files, room, &FreeGate)?
    };
    Ok(is_outcome(&Outcome::of(case)?, &run))
}
