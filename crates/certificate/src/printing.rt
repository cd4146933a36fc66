// The text of a certificate.
ghost use Rattle.std.specs.Prelude.{◌≡◌, ◌++◌, ◌∷◌, Ok, OnOk, codes, decimal};
ghost use Rattle.texts.specs.Appends.{Appends};
ghost use Rattle.certificate.specs.Reading.{certificate_of};
ghost use Rattle.certificate.specs.Spelling.{digit_text, pattern_text, pairs_text, state_text, claim_text, landing_lines, state_lines, certificate_text};

use crate::certificate::{Certificate, Claim};
use crate::pattern::Pattern;
use crate::state::CertState;
use cps_base::Callsign;
use itoa::Buffer;
use std::alloc::AllocError;
use texts::append_all;

fn digit_byte(digit: bool) -> u8
    ensures { result ≡ digit_text digit }
{
    if digit { b'1' } else { b'0' }
}

fn append_pattern(pattern: &Pattern, into: &mut Vec<u8>) -> Result<(), AllocError>
    ensures { OnOk result (into.new.items ≡ into.old.items ++ pattern_text pattern.now) }
{
    let digits = pattern.digits();
    if digits.is_empty() {
        return into.extend_from_slice(b"-");
    }
    let mut rest = digits;
    while let [digit, after @ ..] = rest {
        into.push(digit_byte(*digit))?;
        rest = after;
    }
    Ok(())
}

// Pairs, each behind a blank.
fn append_pairs(pairs: &[(u32, u32)], into: &mut Vec<u8>) -> Result<(), AllocError>
    ensures { OnOk result (into.new.items ≡ into.old.items ++ pairs_text pairs.now) }
{
    let mut rest = pairs;
    while let [(second, cost), after @ ..] = rest {
        let mut t = Buffer::new();
        let mut c = Buffer::new();
        let pieces = [
            b" ".as_slice(),
            t.format(*second).as_bytes(),
            b":".as_slice(),
            c.format(*cost).as_bytes(),
        ];
        append_all(&pieces, into)?;
        rest = after;
    }
    Ok(())
}

// A word and a number, with a blank before the number.
fn append_number(word: &[u8], number: u64, into: &mut Vec<u8>) -> Result<(), AllocError>
    ensures { OnOk result (into.new.items ≡ into.old.items ++ (word.now ++ 32 ∷ decimal number)) }
{
    let mut digits = Buffer::new();
    let pieces = [word, b" ".as_slice(), digits.format(number).as_bytes()];
    append_all(&pieces, into)
}

fn append_state(state: &CertState, into: &mut Vec<u8>) -> Result<(), AllocError>
    ensures { OnOk result (into.new.items ≡ into.old.items ++ state_text state.now) }
{
    append_number(b"state", u64::from(state.stage()), into)?;
    into.push(b' ')?;
    append_pattern(&state.pattern(), into)?;
    append_number(b"", u64::from(state.last()), into)?;
    append_pairs(state.pairs(), into)
}

// The lines of states.
fn append_states(states: &[CertState], into: &mut Vec<u8>) -> Result<(), AllocError>
    ensures { OnOk result (into.new.items ≡ into.old.items ++ state_lines states.now) }
{
    let mut rest = states;
    while let [state, after @ ..] = rest {
        append_state(state, into)?;
        into.push(b'\n')?;
        rest = after;
    }
    Ok(())
}

// The lines of landings.
fn append_landings(landings: &[(Callsign, u32)], into: &mut Vec<u8>) -> Result<(), AllocError>
    ensures { OnOk result (into.new.items ≡ into.old.items ++ landing_lines landings.now) }
{
    let mut rest = landings;
    while let [(callsign, second), after @ ..] = rest {
        into.extend_from_slice(b"land ")?;
        append_number(callsign.bytes(), u64::from(*second), into)?;
        into.push(b'\n')?;
        rest = after;
    }
    Ok(())
}

// What is claimed.
fn append_claim(claim: Claim, into: &mut Vec<u8>) -> Result<(), AllocError>
    ensures { OnOk result (into.new.items ≡ into.old.items ++ claim_text claim) }
{
    match claim {
        Claim::Optimal(value) => append_number(b"claim optimal", value, into),
        Claim::Infeasible => into.extend_from_slice(b"claim infeasible"),
    }
}

// The lines before those of the states.
fn append_head(certificate: &Certificate, into: &mut Vec<u8>) -> Result<(), AllocError>
    ensures { OnOk result (into.new.items ≡ into.old.items ++ (codes "certificate 1" ++ 10
        ∷ (claim_text certificate.now.claim ++ 10 ∷ landing_lines certificate.now.landings))) }
{
    into.extend_from_slice(b"certificate 1\n")?;
    append_claim(certificate.claim(), into)?;
    into.push(b'\n')?;
    append_landings(certificate.landings(), into)
}

/// Appends the text of a certificate: the line `certificate 1`, the claim, a line for each landing and a line for each
/// state, each ended by a line feed. After a refusal, for want of memory, `into` is as before. What is appended reads as
/// the certificate.
#[tactic(auto, using(crate::proofs::Text::reads_back))]
pub fn print_certificate(certificate: &Certificate, into: &mut Vec<u8>) -> Result<(), AllocError>
    ensures appends { Appends into.old.items into.new.items (certificate_text certificate.now) result }
    ensures reads { certificate_of (certificate_text certificate.now) ≡ Ok certificate.now }
{
    let states = certificate.states();
    let mut text = Vec::new(*into.allocator());
    append_head(certificate, &mut text)?;
    append_states(states, &mut text)?;
    into.extend_from_slice(text.as_slice())
}
