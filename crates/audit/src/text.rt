// The lines of findings.
ghost use Rattle.std.specs.Prelude.{◌≡◌, ◌++◌, OnOk, decimal, map};
ghost use Rattle.texts.specs.Appends.{Appends};
ghost use Rattle.landing_rules.specs.Text.{line};
ghost use Rattle.audit.specs.Findings.{finding_of};
ghost use Rattle.audit.specs.Texts.{detail_of, finding_words, findings_text, spaced, word_of};

use crate::Finding;
use cps_base::Callsign;
use itoa::Buffer;
use std::alloc::AllocError;

// The word of a finding, with a blank where more stands behind it.
fn word(finding: &Finding) -> &'static [u8]
    ensures { result.now ≡ word_of (finding_of finding.now) }
{
    match finding {
        Finding::Missing(_) => b"missing ",
        Finding::Unknown(_) => b"unknown ",
        Finding::Twice(_) => b"twice ",
        Finding::Order(_) => b"order ",
        Finding::Mark(_) => b"mark ",
        Finding::Closed(_, _) => b"closed ",
        Finding::Separation(_, _) => b"separation ",
        Finding::Precedence(_, _) => b"precedence ",
        Finding::Moved(_, _) => b"moved ",
        Finding::Early(_) => b"early ",
        Finding::Shift(_, _, _) => b"shift ",
        Finding::Objective => b"objective",
        Finding::Value(_) => b"value ",
    }
}

fn append_number(number: u64, into: &mut Vec<u8>) -> Result<(), AllocError>
    ensures { OnOk result (into.new.items ≡ into.old.items ++ decimal number) }
{
    let mut digits = Buffer::new();
    into.extend_from_slice(digits.format(number).as_bytes())
}

// Two texts, a blank between them.
fn append_pair(first: &[u8], second: &[u8], into: &mut Vec<u8>) -> Result<(), AllocError>
    ensures { OnOk result (into.new.items ≡ into.old.items ++ spaced first.now second.now) }
{
    into.extend_from_slice(first)?;
    into.push(b' ')?;
    into.extend_from_slice(second)
}

// A callsign and its second.
fn append_second(callsign: &Callsign, second: u32, into: &mut Vec<u8>) -> Result<(), AllocError>
    ensures { OnOk result (into.new.items ≡ into.old.items
        ++ spaced callsign.now (decimal second)) }
{
    let mut digits = Buffer::new();
    append_pair(callsign.bytes(), digits.format(second).as_bytes(), into)
}

// A callsign, its place and its rank.
fn append_shift(
    callsign: &Callsign,
    place: u32,
    rank: u32,
    into: &mut Vec<u8>,
) -> Result<(), AllocError>
    ensures { OnOk result (into.new.items ≡ into.old.items
        ++ spaced callsign.now (spaced (decimal place) (decimal rank))) }
{
    append_second(callsign, place, into)?;
    into.push(b' ')?;
    append_number(u64::from(rank), into)
}

// What stands behind the word.
fn append_detail(finding: &Finding, into: &mut Vec<u8>) -> Result<(), AllocError>
    ensures { OnOk result (into.new.items ≡ into.old.items
        ++ detail_of (finding_of finding.now)) }
{
    match finding {
        Finding::Missing(c)
        | Finding::Unknown(c)
        | Finding::Twice(c)
        | Finding::Mark(c)
        | Finding::Early(c) => into.extend_from_slice(c.bytes()),
        Finding::Closed(c, t) | Finding::Moved(c, t) => append_second(c, *t, into),
        Finding::Separation(c, d) | Finding::Precedence(c, d) => {
            append_pair(c.bytes(), d.bytes(), into)
        }
        Finding::Shift(c, p, r) => append_shift(c, *p, *r, into),
        Finding::Order(i) => append_number(u64::from(*i), into),
        Finding::Value(v) => append_number(*v, into),
        Finding::Objective => Ok(()),
    }
}

fn append_words(finding: &Finding, into: &mut Vec<u8>) -> Result<(), AllocError>
    ensures { OnOk result (into.new.items ≡ into.old.items
        ++ finding_words (finding_of finding.now)) }
{
    into.extend_from_slice(word(finding))?;
    append_detail(finding, into)
}

fn append_line(finding: &Finding, into: &mut Vec<u8>) -> Result<(), AllocError>
    ensures { OnOk result (into.new.items ≡ into.old.items
        ++ line (finding_words (finding_of finding.now))) }
{
    append_words(finding, into)?;
    into.push(b'\n')?;
    Ok(())
}

fn append_lines(findings: &[Finding], into: &mut Vec<u8>) -> Result<(), AllocError>
    ensures { OnOk result (into.new.items ≡ into.old.items
        ++ findings_text (map finding_of findings.now)) }
{
    for finding in findings {
        append_line(finding, into)?;
    }
    Ok(())
}

/// Appends a line for each finding, in their order: its word, and its callsigns and numbers behind it. After a refusal,
/// which is want of memory, `into` is as before.
pub fn append_findings(findings: &[Finding], into: &mut Vec<u8>) -> Result<(), AllocError>
    ensures { Appends into.old.items into.new.items
        (findings_text (map finding_of findings.now)) result }
{
    let mut text = Vec::new(*into.allocator());
    append_lines(findings, &mut text)?;
    into.extend_from_slice(text.as_slice())
}
