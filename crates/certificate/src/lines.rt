ghost use Rattle.std.specs.Prelude.{◌≡◌, ◌≤◌, ◌<◌, true, length, take, option_map, IfOk, IfSome, map};
ghost use Rattle.std.specs.List.{list_all};
ghost use Rattle.cps_base.specs.Limits.{most_waiting};
ghost use Rattle.certificate.specs.Patterns.{is_pattern_length};
ghost use Rattle.certificate.specs.States.{rises, is_pair};
ghost use Rattle.certificate.specs.Reading.{IsClaim};
ghost use Rattle.texts.specs.Parts.{parts_left, number_in};
ghost use Rattle.certificate.specs.Lines.{is_digit, are_pattern_digits, digit_of, pattern_in, pair_in, pairs_in, state_with, state_from, state_in, landing_in, claim_in};

use crate::certificate::Claim;
use crate::pattern::Pattern;
use crate::state::CertState;
use cps_base::{Callsign, GREATEST_VALUE, GREATEST_WORD, MOST_WAITING};
use landing_windows::LAST_SECOND;
use std::alloc::{AllocError, Global};
use texts::{first_part, four_or_more, number_in, three_parts, two_parts};

fn are_all_digits(text: &[u8]) -> bool
    ensures { result ≡ list_all is_digit text.now }
{
    text.iter().all(|b| *b == b'0' || *b == b'1')
}

fn are_pattern_digits(text: &[u8]) -> bool
    ensures { result ≡ are_pattern_digits text.now }
{
    let len = text.len();
    (len == 2 || len == 4 || len == 6) && are_all_digits(text)
}

fn digits_of(text: &[u8]) -> [bool; 6]
    requires { length text.now ≤ 6 }
    ensures len { length result ≡ 6 }
    ensures value { take (length text.now) result ≡ map digit_of text.now }
{
    let mut digits = [false; 6];
    for i in 0..text.len() {
        digits[i] = text[i] == b'1';
    }
    digits
}

#[tactic(auto, unfolding(crate::specs::Lines::pattern_in))]
fn pattern_of(text: &[u8]) -> Option<Pattern>
    ensures value { result ≡ pattern_in text.now }
    ensures size { IfSome result (λ p. is_pattern_length (length p) ≡ true) }
{
    if text == b"-".as_slice() {
        return Some(Pattern::of(&[]));
    }
    if !are_pattern_digits(text) {
        return None;
    }
    let digits = digits_of(text);
    Some(Pattern::of(&digits[..text.len()]))
}

#[tactic(auto, unfolding(crate::specs::Lines::pair_in))]
fn pair_of(text: &[u8]) -> Option<(u32, u32)>
    ensures value { result ≡ pair_in text.now }
    ensures range { IfSome result (λ p. is_pair p ≡ true) }
{
    let (second, cost) = two_parts(text, b':')?;
    let second = number_in(second, 0, u64::from(LAST_SECOND))?;
    let cost = number_in(cost, 0, GREATEST_WORD)?;
    Some((second as u32, cost as u32))
}

// The pairs that the parts of a text are.
#[tactic(auto, unfolding(crate::specs::Lines::pairs_in))]
fn pairs_of(alloc: Global, text: Option<&[u8]>) -> Result<Option<Vec<(u32, u32)>>, AllocError>
    ensures value { IfOk result (λ o. option_map (λ v. v.items) o ≡ pairs_in
        (parts_left 32 (option_map (λ t. t.now) text.entry))) }
    ensures range { IfOk result (λ o. IfSome o (λ v. list_all is_pair v.items ≡ true)) }
{
    let mut pairs = Vec::new(alloc);
    let mut rest = text;
    while let Some(text) = rest {
        let (part, after) = first_part(text, b' ');
        let Some(pair) = pair_of(part) else {
            return Ok(None);
        };
        pairs.push(pair)?;
        rest = after;
    }
    Ok(Some(pairs))
}

fn rise(pairs: &[(u32, u32)]) -> bool
    ensures { result ≡ rises pairs.now }
{
    pairs.is_sorted_by(|pair, next| pair.0 < next.0 && next.1 < pair.1)
}

// The landing that a line says.
#[tactic(auto, unfolding(crate::specs::Lines::landing_in, crate::specs::Lines::landing_by))]
pub(crate) fn landing_of(line: &[u8]) -> Option<(Callsign, u32)>
    ensures { result ≡ landing_in line.now }
{
    let (word, callsign, second) = three_parts(line, b' ')?;
    if word != b"land".as_slice() {
        return None;
    }
    let callsign = Callsign::read(callsign)?;
    let second = number_in(second, 0, u64::from(LAST_SECOND))?;
    Some((callsign, second as u32))
}

// The claim that a line says.
#[tactic(auto, unfolding(crate::specs::Lines::claim_in, crate::specs::Lines::claim_by))]
pub(crate) fn claim_of(line: &[u8]) -> Option<Claim>
    ensures value { result ≡ claim_in line.now }
    ensures range { IfSome result IsClaim }
{
    if let Some((word, kind)) = two_parts(line, b' ') {
        if word == b"claim".as_slice() && kind == b"infeasible".as_slice() {
            return Some(Claim::Infeasible);
        }
        return None;
    }
    let (word, kind, value) = three_parts(line, b' ')?;
    if !(word == b"claim".as_slice() && kind == b"optimal".as_slice()) {
        return None;
    }
    let value = number_in(value, 0, GREATEST_VALUE)?;
    Some(Claim::Optimal(value))
}

fn state_with(stage: u8, pattern: Pattern, last: u8, pairs: Vec<(u32, u32)>) -> Option<CertState>
    requires stage { (1 ≤ stage) × (stage ≤ most_waiting) }
    requires last { (1 ≤ last) × (last ≤ most_waiting) }
    requires pattern { is_pattern_length (length pattern) ≡ true }
    requires pairs { list_all is_pair pairs.items ≡ true }
    ensures { result ≡ state_with stage pattern last pairs.items }
{
    if pairs.len() > 0 && rise(pairs.as_slice()) {
        Some(CertState::new(stage, pattern, last, pairs))
    } else {
        None
    }
}

#[tactic(auto, unfolding(crate::specs::Lines::state_from))]
fn state_from(
    alloc: Global,
    stage: &[u8],
    pattern: &[u8],
    last: &[u8],
    pairs: Option<&[u8]>,
) -> Result<Option<CertState>, AllocError>
    ensures { IfOk result (λ o. o ≡ state_from stage.now pattern.now last.now
        (parts_left 32 (option_map (λ t. t.now) pairs.entry))) }
{
    let Some(stage) = number_in(stage, 1, u64::from(MOST_WAITING)) else {
        return Ok(None);
    };
    let Some(pattern) = pattern_of(pattern) else {
        return Ok(None);
    };
    let Some(last) = number_in(last, 1, u64::from(MOST_WAITING)) else {
        return Ok(None);
    };
    match pairs_of(alloc, pairs)? {
        None => Ok(None),
        Some(pairs) => Ok(state_with(stage as u8, pattern, last as u8, pairs)),
    }
}

// The state that a line says.
#[tactic(auto, unfolding(crate::specs::Lines::state_in, crate::specs::Lines::state_by))]
pub(crate) fn state_of(alloc: Global, line: &[u8]) -> Result<Option<CertState>, AllocError>
    ensures { IfOk result (λ o. o ≡ state_in line.now) }
{
    let Some((word, stage, pattern, last, pairs)) = four_or_more(line, b' ') else {
        return Ok(None);
    };
    if word != b"state".as_slice() {
        return Ok(None);
    }
    state_from(alloc, stage, pattern, last, pairs)
}
