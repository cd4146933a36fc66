ghost use Rattle.std.specs.Prelude.{◌≡◌, ◌==◌, ◌&&◌, [], Some, IfSome, ◌≤◌, bytes_eq, length, map, slice_get};
ghost use Rattle.std.specs.Prelude.{string_bytes, unwrap_or, vec_items};
ghost use Rattle.std.specs.List.{AllByRecursion};
ghost use Rattle.cps_base.specs.Limits.{most_bytes};
ghost use Rattle.cps_top.specs.Commands.{IsCommandInRange, TextsAreBoundedLaw, command_of, file_count, files_of};
ghost use Rattle.cps_top.specs.Commands.{number_of, trial_of};
ghost use Rattle.cps_top.specs.Outcome.{Follows};

use certificate_commands::{certificate_texts_are_bounded, run_certify, run_check};
use cps_base::{GREATEST_K, GREATEST_WORD, MOST_WAITING, read_number};
use cps_outside::{Gate, Sink};
use endings::Ending;
use inquiry_commands::{
    TrialFiles, audit_texts_are_bounded, first_texts_are_bounded, run_audit, run_first,
    run_what_if, what_if_texts_are_bounded,
};
use planning_commands::{
    LogFiles, TrialNumbers, planning_texts_are_bounded, run_effort, run_plan, run_replay, run_trial,
};
use std::alloc::Global;
use std::thread::Threads;

/// The commands, each with its first word.
#[derive(Clone, Copy)]
pub enum Command {
    /// `plan AERODROME FLIGHTS`.
    Plan,
    /// `replay AERODROME FLIGHTS EVENTS`.
    Replay,
    /// `certify AERODROME FLIGHTS`.
    Certify,
    /// `check AERODROME FLIGHTS CERTIFICATE`.
    Check,
    /// `effort AERODROME FLIGHTS EVENTS`.
    Effort,
    /// `first AERODROME FLIGHTS`.
    First,
    /// `whatif AERODROME FLIGHTS TRIALS`.
    WhatIf,
    /// `audit AERODROME FLIGHTS PLAN`.
    Audit,
    /// `trial SEED N K`: a seed from 0 to 4,294,967,295, 1 to `MOST_WAITING` flights, and a bound on shifts from 0 to 3. It
    /// has no files.
    Trial { seed: u64, n: u8, k: u8 },
}

// The number that a word is, of those from `least` to `most`.
fn number(word: &str, least: u64, most: u64) -> Option<u64>
    ensures value { result ≡ number_of word.now least most }
    ensures range { IfSome result (λ n. (least ≤ n) × (n ≤ most)) }
{
    read_number(word.as_bytes(), least, most).ok()
}

// The trial of these numbers.
fn read_trial(words: &[String]) -> Option<Command>
    ensures value { result ≡ trial_of (map string_bytes words.now) }
    ensures range { IfSome result IsCommandInRange }
{
    let [seed, n, k] = words else {
        return None;
    };
    let seed = number(seed.as_str(), 0, GREATEST_WORD)?;
    let n = number(n.as_str(), 1, u64::from(MOST_WAITING))? as u8;
    let k = number(k.as_str(), 0, GREATEST_K as u64)? as u8;
    Some(Command::Trial { seed, n, k })
}

// Whether these are a command's first word and as many words behind it as it has files.
fn fits(word: &str, rest: &[String], name: &str, files: usize) -> bool
    ensures { result ≡ (bytes_eq word.now name.now && (length rest.now == files)) }
{
    word == name && rest.len() == files
}

// The command that these words fit.
pub(crate) fn read_command(words: &[String]) -> Option<Command>
    ensures value { result ≡ command_of (map string_bytes words.now) }
    ensures range { IfSome result IsCommandInRange }
{
    let [word, rest @ ..] = words else {
        return None;
    };
    let word = word.as_str();
    if fits(word, rest, "plan", 2) {
        return Some(Command::Plan);
    }
    if fits(word, rest, "replay", 3) {
        return Some(Command::Replay);
    }
    if fits(word, rest, "certify", 2) {
        return Some(Command::Certify);
    }
    if fits(word, rest, "check", 3) {
        return Some(Command::Check);
    }
    if fits(word, rest, "effort", 3) {
        return Some(Command::Effort);
    }
    if fits(word, rest, "first", 2) {
        return Some(Command::First);
    }
    if fits(word, rest, "whatif", 3) {
        return Some(Command::WhatIf);
    }
    if fits(word, rest, "audit", 3) {
        return Some(Command::Audit);
    }
    if word == "trial" {
        return read_trial(rest);
    }
    None
}

// The words that name the files of the command that they fit.
pub(crate) fn files(command: Command, words: &[String]) -> &[String]
    requires { command_of (map string_bytes words.now) ≡ Some command }
    ensures names { map string_bytes result.now ≡ files_of (map string_bytes words.now) }
    ensures count { length result.now ≡ file_count command }
{
    match command {
        Command::Trial { .. } => &[],
        _ => &words[1..],
    }
}

// The contents of a command's i-th file, from 0; a file that it does not have is empty.
fn file(contents: &[Vec<u8>], i: usize) -> &[u8]
    ensures { result.now ≡ unwrap_or (slice_get (map vec_items contents.now) i) [] }
{
    match contents.get(i) {
        Some(bytes) => bytes.as_slice(),
        None => &[],
    }
}

// A command over the contents of its files.
pub(crate) fn perform<R: Threads + Sync, S: Sink, G: Gate + Sync>(
    rt: &R,
    alloc: Global,
    command: Command,
    contents: &[Vec<u8>],
    out: &mut S,
    gate: &G,
) -> Ending
    requires numbers { IsCommandInRange command }
    requires count { length contents.now ≡ file_count command }
    requires bounded { AllByRecursion (λ bytes. length bytes ≤ most_bytes)
        (map vec_items contents.now) }
    ensures { Follows command (map vec_items contents.now)
        (S.state out.old) (S.state out.new) result }
{
    let aerodrome = file(contents, 0);
    let flights = file(contents, 1);
    // What the command has beside the two.
    let third = file(contents, 2);
    let log = LogFiles {
        aerodrome,
        flights,
        events: third,
    };
    let trials = TrialFiles {
        aerodrome,
        flights,
        trials: third,
    };
    match command {
        Command::Plan => run_plan(rt, alloc, aerodrome, flights, out, gate),
        Command::Replay => run_replay(rt, alloc, &log, out, gate),
        Command::Certify => run_certify(rt, alloc, aerodrome, flights, out, gate),
        Command::Check => run_check(alloc, aerodrome, flights, third, out),
        Command::Effort => run_effort(rt, alloc, &log, out, gate),
        Command::First => run_first(rt, alloc, aerodrome, flights, out, gate),
        Command::WhatIf => run_what_if(rt, alloc, &trials, out, gate),
        Command::Audit => run_audit(alloc, aerodrome, flights, third, out),
        Command::Trial { seed, n, k } => {
            run_trial(rt, alloc, TrialNumbers { seed, n, k }, out, gate)
        }
    }
}

/// How many bytes each command prints at most, whole or until it stops early, by what its files hold (`text_bound`). The
/// call does nothing: it tells its caller the law.
pub fn texts_are_bounded()
    ensures { TextsAreBoundedLaw }
{
    planning_texts_are_bounded();
    first_texts_are_bounded();
    what_if_texts_are_bounded();
    audit_texts_are_bounded();
    certificate_texts_are_bounded();
}
