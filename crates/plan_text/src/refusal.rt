ghost use Rattle.std.specs.Prelude.{◌≡◌, ◌≢◌, ◌++◌, OnOk};
ghost use Rattle.texts.specs.Appends.{Appends};
ghost use Rattle.landing_rules.specs.Events.{CoversFrozen};
ghost use Rattle.landing_rules.specs.Text.{cause};
ghost use Rattle.situations.specs.Answers.{refusal_of};
ghost use Rattle.situations.specs.declared.refusal.Refusal.TheVariants.{Memory};
ghost use Rattle.plan_text.specs.Refused.{cause_text, refused_text};

use cps_base::Callsign;
use itoa::Buffer;
use situations::Refusal;
use std::alloc::AllocError;

// Two texts, one behind the other.
fn append_words(first: &[u8], second: &[u8], into: &mut Vec<u8>) -> Result<(), AllocError>
    ensures { OnOk result (into.new.items ≡ into.old.items ++ (first.now ++ second.now)) }
{
    into.extend_from_slice(first)?;
    into.extend_from_slice(second)?;
    Ok(())
}

/// Appends why a closure is refused that would hold a frozen landing: `covers-frozen CALLSIGN SECOND`. After a refusal,
/// which is want of memory, a part of it may stand there.
pub fn append_covered(
    callsign: &Callsign,
    second: u32,
    into: &mut Vec<u8>,
) -> Result<(), AllocError>
    ensures { OnOk result (into.new.items ≡ into.old.items ++ cause
        (CoversFrozen callsign.now second)) }
{
    let mut number = Buffer::new();
    into.extend_from_slice(b"covers-frozen ")?;
    into.extend_from_slice(callsign.bytes())?;
    into.push(b' ')?;
    into.extend_from_slice(number.format(second).as_bytes())?;
    Ok(())
}

// Why the event is refused.
fn append_cause(refusal: &Refusal, into: &mut Vec<u8>) -> Result<(), AllocError>
    requires { refusal.now ≢ Memory }
    ensures { OnOk result (into.new.items ≡ into.old.items ++ cause_text (refusal_of
        refusal.now)) }
{
    let mut number = Buffer::new();
    match refusal {
        Refusal::UnknownFlight(callsign) => {
            append_words(b"unknown-flight ", callsign.bytes(), into)
        }
        Refusal::Frozen(second) => {
            append_words(b"frozen ", number.format(*second).as_bytes(), into)
        }
        Refusal::Duplicate(callsign) => append_words(b"duplicate ", callsign.bytes(), into),
        Refusal::TooManyFlights => into.extend_from_slice(b"too-many-flights"),
        Refusal::TooManyWaiting => into.extend_from_slice(b"too-many-waiting"),
        Refusal::PredecessorOfFrozen(callsign) => {
            append_words(b"predecessor-of-frozen ", callsign.bytes(), into)
        }
        Refusal::CoversFrozen(callsign, second) => append_covered(callsign, *second, into),
        Refusal::TooManyClosures => into.extend_from_slice(b"too-many-closures"),
        Refusal::UnknownClosure => into.extend_from_slice(b"unknown-closure"),
        Refusal::ClockBack(second) => {
            append_words(b"clock-back ", number.format(*second).as_bytes(), into)
        }
        Refusal::Memory => unreachable!(),
    }
}

// The line, as long as there is memory.
fn append_refusal(number: u32, refusal: &Refusal, into: &mut Vec<u8>) -> Result<(), AllocError>
    requires { refusal.now ≢ Memory }
    ensures { OnOk result (into.new.items ≡ into.old.items ++ refused_text number (refusal_of
        refusal.now)) }
{
    let mut buffer = Buffer::new();
    append_words(b"event ", buffer.format(number).as_bytes(), into)?;
    into.extend_from_slice(b" refused ")?;
    append_cause(refusal, into)?;
    into.push(b'\n')?;
    Ok(())
}

/// Appends the line of a refused event, `event NUMBER refused CAUSE`. The refusal is not for want of memory, which is
/// never printed. After a refusal, which is want of memory, `into` is as before.
pub fn refusal_line(number: u32, refusal: &Refusal, into: &mut Vec<u8>) -> Result<(), AllocError>
    requires { refusal.now ≢ Memory }
    ensures { Appends into.old.items into.new.items
        (refused_text number (refusal_of refusal.now)) result }
{
    let mut text = Vec::new(*into.allocator());
    append_refusal(number, refusal, &mut text)?;
    into.extend_from_slice(text.as_slice())
}
