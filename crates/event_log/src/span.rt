ghost use Rattle.std.specs.Prelude.{◌≡◌, ◌≤◌, ◌<◌, ◌+◌, IfOk};
ghost use Rattle.landing_rules.specs.Rules.{last_second};
ghost use Rattle.event_log.specs.Spans.{second_in, span_in};

use crate::fault::FieldCause;
use cps_base::read_number;
use flight_file::WindowsCause;
use landing_windows::LAST_SECOND;
use texts::two_parts;

// A second of a span.
fn second_in(text: &[u8], most: u64) -> Result<u32, FieldCause>
    requires { most ≤ last_second + 1 }
    ensures value { result ≡ second_in text.now most }
    ensures range { IfOk result (λ second. second ≤ most) }
{
    match read_number(text, 0, most) {
        Ok(second) => Ok(second as u32),
        Err(fault) => Err(FieldCause::Windows(WindowsCause::Number(1, fault))),
    }
}

/// The span of a closure, `from-to`: its first second, up to 172,799, and the first second behind
/// it, up to 172,800. A text with no `-`, or with more than one, is `Windows(Shape(1))`; then
/// `from` and after it `to` is `Windows(Number(1, fault))` where it is no such second; and a span
/// that does not run forward is `EmptySpan`. It takes no memory.
#[tactic(auto, unfolding(crate::specs::Spans::span_in))]
pub fn read_span(text: &[u8]) -> Result<(u32, u32), FieldCause>
    ensures value { result ≡ span_in text.now }
    ensures forward { IfOk result (λ span. (span.0 < span.1) × (span.1 ≤ last_second + 1)) }
{
    let Some((from, to)) = two_parts(text, b'-') else {
        return Err(FieldCause::Windows(WindowsCause::Shape(1)));
    };
    let from = second_in(from, u64::from(LAST_SECOND))?;
    let to = second_in(to, u64::from(LAST_SECOND) + 1)?;
    if to <= from {
        return Err(FieldCause::EmptySpan);
    }
    Ok((from, to))
}
