// A worked example: what a run is given, and what comes of it. It is a table of a TOML file of this project's own form.
use crate::fields::{needed_number, number_at, text_at};
use anyhow::{Result, bail};
use toml::Table;

const KEYS: [&str; 14] = [
    // What the case shows.
    "shows",
    // The words of the command line, with a blank between any two.
    "words",
    // The files by their names.
    "files",
    // The bytes that the output has room for, and that the standard error has.
    "room",
    // The numbers, from 1, of the loads that fail.
    "failing_loads",
    // The numbers, from 1, of the puts to the output that fail, each with the bytes that it takes.
    "failing_puts",
    // The same for the standard error.
    "failing_lines",
    // What comes of the run.
    "status",
    "out",
    "or",
    "begins",
    "ends",
    "err",
    "puts",
];

/// Refuses a case with a key that none has.
pub(crate) fn check_keys(case: &Table) -> Result<()> {
    for key in case.keys() {
        if !KEYS.contains(&key.as_str()) {
            bail!("no case has a key {key}");
        }
    }
    Ok(())
}

/// What comes of a run.
#[derive(Drop)]
pub(crate) struct Outcome<'a> {
    /// The exit status.
    pub(crate) status: u32,
    /// The whole output, or where two are right, one of them.
    pub(crate) out: &'a str,
    /// The other one.
    pub(crate) or: Option<&'a str>,
    /// How the output begins, in place of the whole.
    pub(crate) begins: Option<&'a str>,
    /// How it ends, in place of the whole.
    pub(crate) ends: Option<&'a str>,
    /// The whole standard error.
    pub(crate) err: &'a str,
    /// How many puts the output comes in.
    pub(crate) puts: Option<u32>,
}

impl<'a> Outcome<'a> {
    /// What should come of the run of a case.
    pub(crate) fn of(case: &'a Table) -> Result<Outcome<'a>> {
        Ok(Outcome {
            status: needed_number(case, "status")?,
            out: text_at(case, "out")?.unwrap_or(""),
            or: text_at(case, "or")?,
            begins: text_at(case, "begins")?,
            ends: text_at(case, "ends")?,
            err: text_at(case, "err")?.unwrap_or(""),
            puts: number_at(case, "puts")?,
        })
    }
}
