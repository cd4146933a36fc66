// The lines of a plan file.
ghost use Rattle.std.specs.Prelude.{◌≡◌, ◌≤◌, ◌+◌, IfOk, option_map};
ghost use Rattle.cps_base.specs.Limits.{most_flights};
ghost use Rattle.plan_file.specs.Shown.{shown_of};
ghost use Rattle.plan_file.specs.Lines.{head_in, landing_from, landing_in, mark_in};
ghost use Rattle.plan_file.specs.Reading.{GivesLanding, line_in};

use crate::landing::Landing;
use crate::plan::PlanFault;
use cps_base::{Callsign, GREATEST_VALUE, MOST_FLIGHTS};
use landing_rules::Objective;
use landing_windows::LAST_SECOND;
use texts::{four_parts, number_in, objective_in, two_parts};

// The objective and the number that the first line says.
#[tactic(auto, unfolding(crate::specs::Lines::head_in, crate::specs::Lines::head_by))]
pub(crate) fn head_of(line: &[u8]) -> Option<(Objective, u64)>
    ensures { result ≡ head_in line.now }
{
    let (word, value) = two_parts(line, b' ')?;
    let objective = objective_in(word)?;
    let value = number_in(value, 0, GREATEST_VALUE)?;
    Some((objective, value))
}

// Whether a landing is frozen, by its last word.
fn mark_in(word: &[u8]) -> Option<bool>
    ensures { result ≡ mark_in word.now }
{
    if word == b"waiting".as_slice() {
        Some(false)
    } else if word == b"frozen".as_slice() {
        Some(true)
    } else {
        None
    }
}

#[tactic(auto, unfolding(crate::specs::Lines::landing_from))]
fn landing_from(callsign: &[u8], second: &[u8], mark: &[u8]) -> Option<Landing>
    ensures { option_map shown_of result ≡ landing_from callsign.now second.now mark.now }
{
    let callsign = Callsign::read(callsign)?;
    let second = number_in(second, 0, u64::from(LAST_SECOND))?;
    let frozen = mark_in(mark)?;
    Some(Landing {
        callsign,
        second: second as u32,
        frozen,
    })
}

// The landing that a line says.
#[tactic(auto, unfolding(crate::specs::Lines::landing_in, crate::specs::Lines::landing_by))]
fn landing_of(line: &[u8]) -> Option<Landing>
    ensures { option_map shown_of result ≡ landing_in line.now }
{
    let (word, callsign, second, mark) = four_parts(line, b' ')?;
    if word != b"land".as_slice() {
        return None;
    }
    landing_from(callsign, second, mark)
}

// The landing of this line, which is one of at most 501.
#[tactic(auto, unfolding(crate::specs::Reading::line_in))]
pub(crate) fn line_of(number: u32, line: &[u8]) -> Result<Landing, PlanFault>
    ensures value { GivesLanding result (line_in number line.now) }
    ensures few { IfOk result (λ _. number ≤ most_flights + 1) }
{
    if number > MOST_FLIGHTS as u32 + 1 {
        return Err(PlanFault::Line(number));
    }
    match landing_of(line) {
        Some(landing) => Ok(landing),
        None => Err(PlanFault::Line(number)),
    }
}
