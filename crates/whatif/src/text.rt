//! What is printed of the outcomes of trials.

ghost use Rattle.std.specs.Prelude.{◌≡◌, ◌++◌, ◌+◌, ◌≤◌, length, decimal, OnOk};
ghost use Rattle.trial_file.specs.Trials.{most_trials};
ghost use Rattle.whatif.specs.Text.{cause_words, outcome_words, trial_line, trial_lines, outcomes_text};

use crate::outcome::{Outcome, TrialRefusal};
use itoa::Buffer;
use plan_text::append_covered;
use std::alloc::AllocError;

// A word and a number.
fn append_number(word: &[u8], number: u8, into: &mut Vec<u8>) -> Result<(), AllocError>
    ensures { OnOk result (into.new.items ≡ into.old.items ++ (word.now ++ decimal number)) }
{
    let mut buffer = Buffer::new();
    into.extend_from_slice(word)?;
    into.extend_from_slice(buffer.format(number).as_bytes())?;
    Ok(())
}

// Why the trial is not planned.
fn append_cause(refusal: &TrialRefusal, into: &mut Vec<u8>) -> Result<(), AllocError>
    ensures { OnOk result (into.new.items ≡ into.old.items ++ cause_words refusal.now) }
{
    match refusal {
        TrialRefusal::DelayShift(k) => append_number(b"delay-shift ", *k, into),
        TrialRefusal::PassedAbove(i) => append_number(b"passed-above ", *i, into),
        TrialRefusal::CoversFrozen(callsign, second) => append_covered(callsign, *second, into),
        TrialRefusal::TooManyClosures => into.extend_from_slice(b"too-many-closures"),
    }
}

// What comes of the trial.
fn append_outcome(outcome: &Outcome, into: &mut Vec<u8>) -> Result<(), AllocError>
    ensures { OnOk result (into.new.items ≡ into.old.items ++ outcome_words outcome.now) }
{
    let mut number = Buffer::new();
    match outcome {
        Outcome::Value(value) => into.extend_from_slice(number.format(*value).as_bytes()),
        Outcome::Infeasible => into.extend_from_slice(b"infeasible"),
        Outcome::Refused(refusal) => {
            into.extend_from_slice(b"refused ")?;
            append_cause(refusal, into)
        }
    }
}

// The line of a trial.
fn append_trial(number: u8, outcome: &Outcome, into: &mut Vec<u8>) -> Result<(), AllocError>
    ensures { OnOk result (into.new.items ≡ into.old.items ++ trial_line number outcome.now) }
{
    append_number(b"trial ", number, into)?;
    into.push(b' ')?;
    append_outcome(outcome, into)?;
    into.push(b'\n')?;
    Ok(())
}

// The lines of the trials.
fn append_trials(outcomes: &[Outcome], into: &mut Vec<u8>) -> Result<(), AllocError>
    requires { length outcomes.now ≤ most_trials }
    ensures { OnOk result (into.new.items ≡ into.old.items ++ trial_lines 1 outcomes.now) }
{
    let mut number = 1;
    let mut rest = outcomes;
    while let [outcome, after @ ..] = rest {
        append_trial(number, outcome, into)?;
        number += 1;
        rest = after;
    }
    Ok(())
}

/// Appends the outcomes, a line each: `base V` without a change, and then `trial I V` for trial I, where V is the value,
/// `infeasible`, or `refused CAUSE`. There are at most 17.
pub fn append_outcomes(outcomes: &[Outcome], into: &mut Vec<u8>) -> Result<(), AllocError>
    requires { length outcomes.now ≤ most_trials + 1 }
    ensures { OnOk result (into.new.items ≡ into.old.items ++ outcomes_text outcomes.now) }
{
    let [base, rest @ ..] = outcomes else {
        return Ok(());
    };
    into.extend_from_slice(b"base ")?;
    append_outcome(base, into)?;
    into.push(b'\n')?;
    append_trials(rest, into)
}
