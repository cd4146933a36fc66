ghost use Rattle.std.specs.Prelude.{◌≡◌, ◌≤◌, ◌+◌, ◌&&◌, List, ℕ, IfOk, OnOk, IfSome};
ghost use Rattle.std.specs.Cmp.{partial_equiv_from_equiv};
ghost use Rattle.std.specs.Cmp.Lexicographic.{pointwise};
ghost use Rattle.landing_rules.specs.Problem.{AreOpenSpans};
ghost use Rattle.landing_rules.specs.Rules.{last_second};
ghost use Rattle.landing_windows.specs.Runs.{EndBefore, IsOneMore};
ghost use Rattle.landing_windows.specs.Spans.{opens, is_runway_open, AreMaximal, AreSecondsOf, FirstFrom, SpanFrom};
ghost use Rattle.landing_windows.specs.Same.{same_pair, same_lists};

use crate::search::{first_shut, shut_until};
use crate::{Closures, LAST_SECOND, WindowSet};
use smallvec::SmallVec;
use std::alloc::{AllocError, Global};
use std::marker::Model;

/// The open seconds of a flight: those in one of its windows and in no closure.
///
/// Contracts see the ascending list of the longest closed spans of open seconds. So equal open seconds are equal lists.
#[derive(Drop)]
pub struct OpenTimes {
    spans: SmallVec<(u32, u32), 4>,
}

impl Model for OpenTimes {
    ghost use Rattle.std.specs.Prelude.{List, ℕ};
    ghost use Rattle.landing_windows.specs.Spans.{AreMaximal};

    ghost Value = { List (ℕ × ℕ) };

    ghost view = { λ o. o.spans.items };

    ghost invariant = { λ o. AreMaximal o.spans.items };
}

impl OpenTimes {
    /// The open seconds for these windows and closures.
    pub fn of(
        alloc: Global,
        windows: &WindowSet,
        closures: &Closures,
    ) -> Result<OpenTimes, AllocError>
        ensures { IfOk result (λ times. AreOpenSpans windows.now closures.now times) }
    {
        let runway = OpenTimes::of_runway(alloc, closures)?;
        let times = runway.within(alloc, windows)?;
        Ok(times)
    }

    /// The open seconds of the runway: those of the two days in no closure.
    pub fn of_runway(alloc: Global, closures: &Closures) -> Result<OpenTimes, AllocError>
        ensures { IfOk result (λ times. AreSecondsOf (is_runway_open closures.now) times) }
    {
        let closures = closures.pairs();
        let mut spans = SmallVec::new(alloc);
        let mut from = 0;
        while from <= LAST_SECOND {
            if let Some(end) = shut_until(closures, from) {
                from = end;
            } else {
                let stop = first_shut(closures, from, LAST_SECOND + 1);
                add_run(&mut spans, from, stop - 1)?;
                from = stop;
            }
        }
        Ok(OpenTimes { spans })
    }

    /// Those of these seconds that are in the windows. Of the runway's open seconds they are the flight's.
    pub fn within(&self, alloc: Global, windows: &WindowSet) -> Result<OpenTimes, AllocError>
        ensures both { IfOk result (λ times.
            AreSecondsOf (λ t. opens windows.now t && opens self.now t) times) }
        ensures flight { IfOk result (λ times. (closures : List (ℕ × ℕ)) →
            AreSecondsOf (is_runway_open closures) self.now →
            AreOpenSpans windows.now closures times) }
    {
        let mut windows_left = windows.spans();
        let mut open_left = self.spans.as_slice();
        let mut spans = SmallVec::new(alloc);
        while let [window, later @ ..] = windows_left {
            let [span, after @ ..] = open_left else {
                break;
            };
            add_run(&mut spans, window.0.max(span.0), window.1.min(span.1))?;
            if window.1 < span.1 {
                windows_left = later;
            } else {
                open_left = after;
            }
        }
        Ok(OpenTimes { spans })
    }

    /// The least open second at or after t, at most 172,799. None exactly where there is none.
    pub fn first_from(&self, t: u32) -> Option<u32>
        ensures first { FirstFrom (opens self.now) t result }
        ensures in_days { IfSome result (λ second. second ≤ last_second) }
        ensures spans { AreMaximal self.now }
    {
        let (first, _) = self.span_from(t)?;
        Some(first)
    }

    /// The least open second at or after t, and the last one, at most 172,799, up to which all from it on are open. None
    /// exactly where no second is.
    pub fn span_from(&self, t: u32) -> Option<(u32, u32)>
        ensures span { SpanFrom (opens self.now) t result }
        ensures in_days { IfSome result (λ span. span.1 ≤ last_second) }
        ensures spans { AreMaximal self.now }
    {
        let (first, last) = self.spans.iter().find(|(_, last)| t <= *last)?;
        Some((t.max(*first), *last))
    }

    /// Whether second t is open.
    pub fn is_open(&self, t: u32) -> bool
        ensures { result ≡ opens self.now t }
    {
        self.spans
            .iter()
            .any(|(first, last)| *first <= t && t <= *last)
    }

    /// The same open seconds once more.
    pub fn copy(&self) -> Result<OpenTimes, AllocError>
        ensures { IfOk result (λ times. times ≡ self.now) }
    {
        let spans = SmallVec::from_slice(*self.spans.allocator(), self.spans.as_slice())?;
        Ok(OpenTimes { spans })
    }
}

// Adds the seconds from `first` to `last`, if any, behind those of the spans: to the last span where they follow on it.
fn add_run(spans: &mut SmallVec<(u32, u32), 4>, first: u32, last: u32) -> Result<(), AllocError>
    requires maximal { AreMaximal spans.old.items }
    requires before { EndBefore (first + 1) spans.old.items }
    requires in_days { last ≤ last_second }
    ensures { OnOk result (IsOneMore spans.old.items first last spans.new.items) }
{
    if last < first {
        return Ok(());
    }
    let mut start = first;
    if let Some((before, end)) = spans.pop() {
        if end + 1 < first {
            spans.push((before, end))?;
        } else {
            start = before;
        }
    }
    spans.push((start, last))?;
    Ok(())
}

/// Two are equal exactly where they have the same list of spans, and so the same open seconds.
impl PartialEq for OpenTimes {
    ghost eq = { pointwise same_pair };

    ghost laws = { partial_equiv_from_equiv same_lists };

    fn eq(&self, other: &OpenTimes) -> bool {
        self.spans.as_slice() == other.spans.as_slice()
    }
}

impl Eq for OpenTimes {
    ghost laws = { same_lists };
}
