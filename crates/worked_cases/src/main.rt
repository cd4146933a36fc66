//! The worked examples, each through the whole program over files in memory: what is printed, the line on the standard error,
//! and the status. The tables stand in data/, and what this prints in stdout.
#![tactic(auto)]

mod cases;
mod fields;
mod files;
mod runs;

use crate::fields::{items_at, needed_text};
use crate::runs::is_as_shown;
use anyhow::{Result, bail};
use cps_outside::{Folder, LoadFault, RealFolder};
use std::rt::Files;
use std::thread::Threads;
use toml::{Table, Value};

const TABLES: [&str; 12] = [
    "plans.toml",
    "openings.toml",
    "refusals.toml",
    "replays.toml",
    "certificates.toml",
    "trials.toml",
    "audits.toml",
    "limits.toml",
    "hostile.toml",
    "bytes.toml",
    "at_once.toml",
    "each_kind.toml",
];

// A table of the folder that the program runs in.
fn read<R: Files + AllocGlobal>(rt: &R, name: &str) -> Result<Table> {
    let mut folder = RealFolder::new(rt);
    match folder.load(name, 1_000_000) {
        Ok(bytes) => Ok(toml::table_from_slice(rt.alloc(), bytes.as_slice())?),
        Err(LoadFault::Failed) => bail!("{name} cannot be read"),
        Err(LoadFault::TooLong) => bail!("{name} is too long"),
        Err(LoadFault::Memory) => bail!("no memory"),
    }
}

// Runs a case, and names it where it does not end as it should.
fn run_case<R: Threads + Print + AllocGlobal + Sync>(
    rt: &R,
    texts: &Table,
    name: &str,
    case: &Value,
) -> Result<bool> {
    let Value::Table(case) = case else {
        bail!("{name}: a case is no table")
    };
    let shows = needed_text(case, "shows")?;
    let is_right = is_as_shown(rt, rt.alloc(), texts, case)?;
    if !is_right {
        println!(rt; "{name}: wrong: {shows}")?;
    }
    Ok(is_right)
}

// Runs the cases of a table, of which there are some, and counts those that do not end as they should.
fn run_table<R: Threads + Files + Print + AllocGlobal + Sync>(
    rt: &R,
    texts: &Table,
    name: &str,
) -> Result<u64> {
    let table = read(rt, name)?;
    let cases = items_at(&table, "cases")?;
    if cases.is_empty() {
        bail!("{name} has no cases");
    }
    let mut wrong = 0u64;
    for case in cases {
        if !run_case(rt, texts, name, case)? {
            wrong = wrong.saturating_add(1);
        }
    }
    Ok(wrong)
}

fn main(rt: HostRuntime) -> Result<()> {
    let texts = read(&rt, "texts.toml")?;
    let mut wrong = 0u64;
    for name in TABLES {
        wrong = wrong.saturating_add(run_table(&rt, &texts, name)?);
    }
    println!(rt; "{wrong} wrong")?;
    Ok(())
}
