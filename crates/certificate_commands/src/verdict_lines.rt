// The line of a verdict.
ghost use Rattle.std.specs.Prelude.{◌≡◌, ◌++◌, IfOk, OnOk};
ghost use Rattle.certificate_commands.specs.Verdicts.{reason_word, reason_first, reason_second, verdict_word, first_number, second_number, number_text, verdict_text, answer_of_verdict};

use cert_check::{Reason, Verdict};
use endings::Answer;
use itoa::Buffer;
use std::alloc::{AllocError, Global};

fn reason_word(reason: &Reason) -> &'static [u8]
    ensures { result.now ≡ reason_word reason.now }
{
    match reason {
        Reason::Flights => b"rejected flights",
        Reason::Closed(_) => b"rejected closed",
        Reason::Early(_) => b"rejected early",
        Reason::Separation(_, _) => b"rejected separation",
        Reason::Precedence(_, _) => b"rejected precedence",
        Reason::Shift(_) => b"rejected shift",
        Reason::Value(_) => b"rejected value",
        Reason::Shape(_) => b"rejected shape",
        Reason::Successor(_, _) => b"rejected successor",
        Reason::Final(_) => b"rejected final",
    }
}

fn verdict_word(verdict: &Verdict) -> &'static [u8]
    ensures { result.now ≡ verdict_word verdict.now }
{
    match verdict {
        Verdict::Optimal(_) => b"optimal",
        Verdict::Infeasible => b"infeasible",
        Verdict::Rejected(reason) => reason_word(reason),
    }
}

fn reason_first(reason: &Reason) -> Option<u64>
    ensures { result ≡ reason_first reason.now }
{
    match reason {
        Reason::Flights => None,
        Reason::Closed(rank) | Reason::Early(rank) | Reason::Shift(rank) => Some(*rank as u64),
        Reason::Separation(rank, _) | Reason::Precedence(rank, _) => Some(*rank as u64),
        Reason::Value(value) => Some(*value),
        Reason::Shape(state) | Reason::Final(state) => Some(*state as u64),
        Reason::Successor(state, _) => Some(*state as u64),
    }
}

fn reason_second(reason: &Reason) -> Option<u64>
    ensures { result ≡ reason_second reason.now }
{
    match reason {
        Reason::Separation(_, rank) | Reason::Precedence(_, rank) => Some(*rank as u64),
        Reason::Successor(_, rank) => Some(*rank as u64),
        _ => None,
    }
}

fn first_number(verdict: &Verdict) -> Option<u64>
    ensures { result ≡ first_number verdict.now }
{
    match verdict {
        Verdict::Optimal(value) => Some(*value),
        Verdict::Infeasible => None,
        Verdict::Rejected(reason) => reason_first(reason),
    }
}

fn second_number(verdict: &Verdict) -> Option<u64>
    ensures { result ≡ second_number verdict.now }
{
    match verdict {
        Verdict::Rejected(reason) => reason_second(reason),
        _ => None,
    }
}

// Appends a blank and a number, where there is one.
fn append_number(text: &mut Vec<u8>, number: Option<u64>) -> Result<(), AllocError>
    ensures { OnOk result (text.new.items ≡ text.old.items ++ number_text number) }
{
    let mut buffer = Buffer::new();
    if let Some(number) = number {
        text.push(b' ')?;
        text.extend_from_slice(buffer.format(number).as_bytes())?;
    }
    Ok(())
}

// The line of a verdict: its word, and the numbers behind it.
pub(crate) fn verdict_line(alloc: Global, verdict: &Verdict) -> Result<Vec<u8>, AllocError>
    ensures { IfOk result (λ text. text.items ≡ verdict_text verdict.now) }
{
    let mut text = Vec::from_slice(alloc, verdict_word(verdict))?;
    append_number(&mut text, first_number(verdict))?;
    append_number(&mut text, second_number(verdict))?;
    text.push(b'\n')?;
    Ok(text)
}

// What the program answers for a verdict.
pub(crate) fn answer(verdict: &Verdict) -> Answer
    ensures { result ≡ answer_of_verdict verdict.now }
{
    match verdict {
        Verdict::Optimal(_) | Verdict::Infeasible => Answer::Accepted,
        Verdict::Rejected(_) => Answer::Rejected,
    }
}
