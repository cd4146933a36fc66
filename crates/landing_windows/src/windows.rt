ghost use Rattle.std.specs.Prelude.{◌≡◌, ◌≤◌, ◌<◌, ◌+◌, ◌*◌, length, slice_index_or, IsTrue, None, Ok};
ghost use Rattle.std.specs.List.{list_all};
ghost use Rattle.cps_base.specs.Limits.{most_windows};
ghost use Rattle.landing_rules.specs.Sound.{AreGoodWindows};
ghost use Rattle.landing_windows.specs.Spans.{AreInOrder};
ghost use Rattle.landing_windows.specs.Windows.{
  is_in_days,
  span_fault,
  bad_span,
  end_before,
  seconds_in,
  windows_of,
};

use cps_base::{MOST_OPEN_SECONDS, MOST_WINDOWS};
use smallvec::SmallVec;
use std::alloc::Global;
use std::marker::Model;

/// The last second of the two days that a schedule may use. Seconds count from 0.
pub const LAST_SECOND: u32 = 172_799;

/// Why spans are not the windows of a flight: the first test that fails. Spans are numbered from 1.
#[derive(Clone, Copy, Debug, PartialEq, Eq)]
pub enum WindowFault {
    /// No span.
    Empty,
    /// More than four spans.
    TooMany,
    /// The last second of this span is before its first.
    Backward(u8),
    /// This span does not start after the span before it ended.
    Overlap(u8),
    /// The spans hold more than 7,200 seconds together.
    TooLong,
}

/// The windows of a flight: one to four spans of seconds in order, each with both of its ends, of at most 7,200 seconds
/// together. Contracts see the list of spans.
#[derive(Drop)]
pub struct WindowSet {
    spans: SmallVec<(u32, u32), MOST_WINDOWS>,
}

impl Model for WindowSet {
    ghost use Rattle.std.specs.Prelude.{◌≡◌, List, ℕ, Ok, IsTrue};
    ghost use Rattle.std.specs.List.{list_all};
    ghost use Rattle.landing_windows.specs.Windows.{is_in_days, windows_of};

    ghost Value = { List (ℕ × ℕ) };

    ghost view = { λ w. w.spans.items };

    ghost invariant = { λ w. (windows_of w.spans.items ≡ Ok w.spans.items)
        × IsTrue (list_all is_in_days w.spans.items) };
}

// What is wrong with the span of a place, counted from 0, after the one before it.
#[tactic(auto, unfolding(crate::specs::Windows::end_before))]
fn fault_at(spans: &[(u32, u32)], place: usize) -> Option<WindowFault>
    requires few { length spans.now ≤ most_windows }
    requires place { place < length spans.now }
    ensures { result ≡ span_fault (place + 1) (end_before spans.now place)
        (slice_index_or spans.now place (0, 0)) }
{
    let (first, last) = spans[place];
    let number = place as u8 + 1;
    if last < first {
        return Some(WindowFault::Backward(number));
    }
    if place > 0 && first <= spans[place - 1].1 {
        return Some(WindowFault::Overlap(number));
    }
    None
}

// The first fault along the spans.
fn bad_span(spans: &[(u32, u32)]) -> Option<WindowFault>
    requires { length spans.now ≤ most_windows }
    ensures { result ≡ bad_span 1 None spans.now }
{
    (0..spans.len()).find_map(|place| fault_at(spans, place))
}

#[tactic(auto, unfolding(crate::specs::Windows::seconds_in))]
fn seconds_in(spans: &[(u32, u32)]) -> u64
    requires { length spans.now ≤ most_windows }
    ensures { result ≡ seconds_in spans.now }
{
    spans
        .iter()
        .map(|(first, last)| (u64::from(*last) + 1).saturating_sub(u64::from(*first)))
        .sum()
}

impl WindowSet {
    /// The windows that spans are. Each of the numbers is at most `LAST_SECOND`.
    #[tactic(auto, unfolding(crate::specs::Windows::windows_of))]
    pub fn new(alloc: Global, spans: &[(u32, u32)]) -> Result<WindowSet, WindowFault>
        requires { IsTrue (list_all is_in_days spans.now) }
        ensures { result ≡ windows_of spans.now }
    {
        if spans.is_empty() {
            return Err(WindowFault::Empty);
        }
        if spans.len() > MOST_WINDOWS {
            return Err(WindowFault::TooMany);
        }
        if let Some(fault) = bad_span(spans) {
            return Err(fault);
        }
        if seconds_in(spans) > MOST_OPEN_SECONDS {
            return Err(WindowFault::TooLong);
        }
        let spans = SmallVec::from_slice(alloc, spans).unwrap();
        Ok(WindowSet { spans })
    }

    /// The same windows again. It takes no memory.
    pub fn copy(&self) -> WindowSet
        ensures { result ≡ self.now }
    {
        let spans = SmallVec::from_slice(*self.spans.allocator(), self.spans()).unwrap();
        WindowSet { spans }
    }

    /// The spans, in order.
    pub fn spans(&self) -> &[(u32, u32)]
        ensures value { result.now ≡ self.now }
        ensures windows { windows_of self.now ≡ Ok self.now }
        ensures good { AreGoodWindows self.now }
        ensures in_order { AreInOrder self.now }
    {
        &self.spans
    }
}
