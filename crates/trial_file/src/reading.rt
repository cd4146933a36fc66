ghost use Rattle.std.specs.Prelude.{◌≡◌, ◌≤◌, All, IfOk, vec_len};
ghost use Rattle.cps_base.specs.Answers.{GivesAs};
ghost use Rattle.csv_records.specs.Values.{memory_fault};
ghost use Rattle.trial_file.specs.Trials.{most_trials, IsGood};
ghost use Rattle.trial_file.specs.Reading.{shift_in, close_in, trial_by, trials, trials_of};

use crate::fault::{TrialCause, TrialFault};
use crate::trial::Trial;
use cps_base::{GREATEST_K, read_number};
use csv::ByteRecord;
use csv_records::{FileCause, Format, field, read_values};
use event_log::{FieldCause, read_span};
use std::alloc::Global;

/// How many trials a file may have.
pub const MOST_TRIALS: usize = 16;

const HEADER: [&[u8]; 2] = [b"kind", b"value"];

// Another limit of shift.
fn shift_in(text: &[u8]) -> Result<Trial, TrialCause>
    ensures value { result ≡ shift_in text.now }
    ensures good { IfOk result IsGood }
{
    match read_number(text, 0, GREATEST_K as u64) {
        Ok(k) => Ok(Trial::Shift(k as u8)),
        Err(fault) => Err(TrialCause::Value(FieldCause::Number(fault))),
    }
}

// One closure more.
fn close_in(text: &[u8]) -> Result<Trial, TrialCause>
    ensures value { result ≡ close_in text.now }
    ensures good { IfOk result IsGood }
{
    match read_span(text) {
        Ok((from, to)) => Ok(Trial::Close(from, to)),
        Err(cause) => Err(TrialCause::Value(cause)),
    }
}

// The trial of this kind that a text is.
#[tactic(auto, unfolding(crate::specs::Reading::trial_by))]
fn trial_by(kind: &[u8], text: &[u8]) -> Result<Trial, TrialCause>
    ensures value { result ≡ trial_by kind.now text.now }
    ensures good { IfOk result IsGood }
{
    if kind == b"k".as_slice() {
        return shift_in(text);
    }
    if kind == b"close".as_slice() {
        return close_in(text);
    }
    Err(TrialCause::Kind)
}

// The trial file.
struct Trials;

impl Format for Trials {
    ghost use Rattle.std.specs.Prelude.{◌≡◌, ◌<◌, ◌∷◌, ◌++◌, [], List, length, map, All, IfOk, Ok};
    ghost use Rattle.csv.specs.Records.{fields_of};
    ghost use Rattle.trial_file.specs.Reading.{trials};
    ghost use Rattle.trial_file.specs.Trials.{IsGood};
    ghost use Rattle.std.proofs.Common.{rules};

    type Value = Trial;

    type Cause = TrialCause;

    type Fault = TrialFault;

    ghost form = { trials };

    ghost holds = { All IsGood };

    fn header() -> &'static [&'static [u8]] {
        &HEADER
    }

    fn most() -> usize {
        MOST_TRIALS
    }

    fn value_in(_: Global, _: &[Trial], row: &ByteRecord) -> Result<Trial, TrialCause> {
        trial_by(field(row, 0), field(row, 1))
    }

    fn cause(cause: FileCause) -> TrialCause {
        match cause {
            FileCause::Header => TrialCause::Header,
            FileCause::FieldCount => TrialCause::FieldCount,
            FileCause::TooMany => TrialCause::TooMany,
            FileCause::Memory => TrialCause::Memory,
        }
    }

    fn fault(number: u32, cause: TrialCause) -> TrialFault {
        TrialFault { number, cause }
    }

    ghost holds_none = { Prim.search rules };
}

/// The trials of a file, or the first fault of its first record that has one. It stops at that record. There are at most
/// `MOST_TRIALS` trials, and their numbers are in their ranges.
pub fn read_trials(alloc: Global, bytes: &[u8]) -> Result<Vec<Trial>, TrialFault>
    ensures value { GivesAs (memory_fault trials) (λ v. v.items) result (trials_of bytes.now) }
    ensures few { IfOk result (λ v. vec_len v ≤ most_trials) }
    ensures good { IfOk result (λ v. All IsGood v.items) }
{
    read_values::<Trials>(alloc, bytes)
}
