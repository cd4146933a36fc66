ghost use Rattle.std.specs.Prelude.{◌≡◌, ◌≤◌, IsTrue, length, take, IfOk};
ghost use Rattle.std.specs.List.{list_all};
ghost use Rattle.cps_base.specs.Limits.{most_windows};
ghost use Rattle.cps_base.specs.Answers.{ok_map};
ghost use Rattle.landing_rules.specs.Rules.{last_second};
ghost use Rattle.texts.specs.Parts.{parts};
ghost use Rattle.landing_windows.specs.Windows.{is_in_days};
ghost use Rattle.flight_file.specs.Windows.{second_in, window_in, windows_from, windows_in};

use crate::fault::WindowsCause;
use cps_base::{MOST_WINDOWS, read_number};
use landing_windows::{LAST_SECOND, WindowFault, WindowSet};
use std::alloc::Global;
use texts::{first_part, has_more_parts, two_parts};

// The second that a text in part `number` is.
fn second_in(number: u8, text: &[u8]) -> Result<u32, WindowsCause>
    ensures value { result ≡ second_in number text.now }
    ensures range { IfOk result (λ second. second ≤ last_second) }
{
    match read_number(text, 0, u64::from(LAST_SECOND)) {
        Ok(second) => Ok(second as u32),
        Err(fault) => Err(WindowsCause::Number(number, fault)),
    }
}

// The window that a part is.
#[tactic(auto, unfolding(crate::specs::Windows::window_in))]
fn window_in(number: u8, text: &[u8]) -> Result<(u32, u32), WindowsCause>
    ensures value { result ≡ window_in number text.now }
    ensures range { IfOk result (λ w. IsTrue (is_in_days w)) }
{
    let Some((first, last)) = two_parts(text, b'-') else {
        return Err(WindowsCause::Shape(number));
    };
    let first = second_in(number, first)?;
    let last = second_in(number, last)?;
    Ok((first, last))
}

// The windows that a text holds, whose parts are at most four.
#[tactic(auto, unfolding(crate::specs::Windows::windows_from))]
fn spans_in(text: &[u8]) -> Result<([(u32, u32); MOST_WINDOWS], usize), WindowsCause>
    requires { length (parts 59 text.now) ≤ most_windows }
    ensures count { IfOk result (λ r. (r.1 ≤ most_windows) × (length r.0 ≡ most_windows)) }
    ensures range { IfOk result (λ r. IsTrue (list_all is_in_days (take r.1 r.0))) }
    ensures value { windows_from 1 (parts 59 text.now) ≡ ok_map (λ r. take r.1 r.0) result }
{
    let mut spans = [(0, 0); MOST_WINDOWS];
    let mut count = 0;
    let mut rest = Some(text);
    while let Some(text) = rest {
        let (part, after) = first_part(text, b';');
        spans[count] = window_in(count as u8 + 1, part)?;
        count += 1;
        rest = after;
    }
    Ok((spans, count))
}

/// The windows of a text: `first-last` joined by `;`, each a second from 0 to 172,799. An empty
/// text is `Set(Empty)`, more than four parts are `Set(TooMany)`. Then each part from the first is
/// tested whole, `Shape` and then its two numbers, and last the windows together. It takes no
/// memory.
#[tactic(auto, unfolding(crate::specs::Windows::windows_in))]
pub fn read_windows(alloc: Global, text: &[u8]) -> Result<WindowSet, WindowsCause>
    ensures { result ≡ windows_in text.now }
{
    if text.is_empty() {
        return Err(WindowsCause::Set(WindowFault::Empty));
    }
    if has_more_parts(text, b';', MOST_WINDOWS) {
        return Err(WindowsCause::Set(WindowFault::TooMany));
    }
    let (spans, count) = spans_in(text)?;
    match WindowSet::new(alloc, &spans[..count]) {
        Ok(windows) => Ok(windows),
        Err(fault) => Err(WindowsCause::Set(fault)),
    }
}
