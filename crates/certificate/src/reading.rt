ghost use Rattle.std.specs.Prelude.{◌≡◌, ◌<◌, length, IfOk};
ghost use Rattle.cps_base.specs.Limits.{greatest_word};
ghost use Rattle.cps_base.specs.Answers.{Gives};
ghost use Rattle.certificate.specs.Reading.{memory_fault, Takes, IsClaim, body_lines, certificate_of, line_in};
ghost use Rattle.texts.specs.Parts.{parts};
ghost use Rattle.certificate.specs.States.{follows};
ghost use Rattle.certificate.specs.Spelling.{certificate_text};

use crate::certificate::{Certificate, Claim};
use crate::fault::CertFault;
use crate::lines::{claim_of, landing_of, state_of};
use crate::state::{CertState, comes_before};
use cps_base::Callsign;
use std::alloc::Global;
use texts::first_part;

fn follows(states: &[CertState], state: &CertState) -> bool
    ensures { result ≡ follows states.now state.now }
{
    match states.last() {
        None => true,
        Some(last) => comes_before(last, state),
    }
}

// One more line.
#[tactic(auto, unfolding(crate::specs::Reading::line_in))]
fn take_line(
    alloc: Global,
    number: u32,
    line: &[u8],
    landings: &mut Vec<(Callsign, u32)>,
    states: &mut Vec<CertState>,
) -> Result<(), CertFault>
    ensures { Takes result (landings.new.items, states.new.items)
        (line_in number (landings.old.items, states.old.items) line.now) }
{
    if let Some(state) = state_of(alloc, line)? {
        if !follows(states.as_slice(), &state) {
            return Err(CertFault::Order(number));
        }
        states.push(state)?;
        return Ok(());
    }
    match landing_of(line) {
        Some(landing) if states.is_empty() => {
            landings.push(landing)?;
            Ok(())
        }
        _ => Err(CertFault::Line(number)),
    }
}

// The lines from the third on.
#[tactic(auto, unfolding(crate::specs::Reading::lines_in))]
fn read_body(alloc: Global, claim: Claim, text: &[u8]) -> Result<Certificate, CertFault>
    requires short { length text.now < 4294967293 }
    requires range { IsClaim claim }
    ensures { Gives memory_fault result (body_lines claim (parts 10 text.now)) }
{
    let mut landings = Vec::new(alloc);
    let mut states = Vec::new(alloc);
    let mut number: u32 = 3;
    let (mut line, mut after) = first_part(text, b'\n');
    while let Some(rest) = after {
        take_line(alloc, number, line, &mut landings, &mut states)?;
        number += 1;
        (line, after) = first_part(rest, b'\n');
    }
    if !line.is_empty() {
        return Err(CertFault::Line(number));
    }
    Ok(Certificate::new(claim, landings, states))
}

// The certificate of a text: its first two lines, and then the others.
#[tactic(auto, unfolding(crate::specs::Reading::certificate_of, crate::specs::Reading::certificate_by))]
fn certificate_in(alloc: Global, bytes: &[u8]) -> Result<Certificate, CertFault>
    requires { length bytes.now < greatest_word }
    ensures { Gives memory_fault result (certificate_of bytes.now) }
{
    let (head, rest) = first_part(bytes, b'\n');
    if head != b"certificate 1".as_slice() {
        return Err(CertFault::Line(1));
    }
    let Some(rest) = rest else {
        return Err(CertFault::Line(1));
    };
    let (claim, rest) = first_part(rest, b'\n');
    let Some(claim) = claim_of(claim) else {
        return Err(CertFault::Line(2));
    };
    let Some(rest) = rest else {
        return Err(CertFault::Line(2));
    };
    read_body(alloc, claim, rest)
}

/// The certificate that a text is, or its first fault: the first line that is not of its form, is missing or has no line
/// feed at its end, or the first whose state does not come after the state of the line before it; of two such lines the
/// smaller. What is read prints back as the text. The text has fewer than 4,294,967,295 bytes.
#[tactic(auto, using(crate::proofs::WholeAsRead::prints_if_read))]
pub fn read_certificate(alloc: Global, bytes: &[u8]) -> Result<Certificate, CertFault>
    requires { length bytes.now < greatest_word }
    ensures value { Gives memory_fault result (certificate_of bytes.now) }
    ensures prints { IfOk result (λ certificate. certificate_text certificate ≡ bytes.now) }
{
    certificate_in(alloc, bytes)
}
