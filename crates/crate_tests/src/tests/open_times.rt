ghost use Rattle.std.specs.Prelude.{◌≡◌};
ghost use Rattle.std.specs.List.{list_all, list_any};
ghost use Rattle.landing_rules.specs.Rules.{is_open, is_shut, is_within};
ghost use Rattle.landing_windows.specs.Windows.{is_in_days};

use super::assert_send_sync;
use landing_windows::{ClosureFault, Closures, LAST_SECOND, OpenTimes, WindowFault, WindowSet};
use std::alloc::Global;
use std::test::Fail;

fn is_in_window(windows: &[(u32, u32)], t: u32) -> bool
    ensures { result ≡ list_any (is_within t) windows.now }
{
    windows.iter().any(|window| window.0 <= t && t <= window.1)
}

fn is_in_closure(closures: &[(u32, u32)], t: u32) -> bool
    ensures { result ≡ list_any (is_shut t) closures.now }
{
    closures
        .iter()
        .any(|closure| closure.0 <= t && t < closure.1)
}

fn closures_of(pairs: &[(u32, u32)]) -> Closures {
    let mut closures = Closures::new();
    for (from, to) in pairs {
        if *from <= LAST_SECOND && *to <= LAST_SECOND + 1 {
            let _ = closures.add(*from, *to);
        }
    }
    closures
}

// The definition, read plainly: in a window and in no closure.
fn is_open_plainly(windows: &[(u32, u32)], closures: &[(u32, u32)], t: u32) -> bool
    ensures { result ≡ is_open windows.now closures.now t }
{
    is_in_window(windows, t) && !is_in_closure(closures, t)
}

fn are_in_days(spans: &[(u32, u32)]) -> bool
    ensures { result ≡ list_all is_in_days spans.now }
{
    spans
        .iter()
        .all(|w| w.0 <= LAST_SECOND && w.1 <= LAST_SECOND)
}

// The open seconds from t on, with those that follow on them.
fn span_with(t: u32, next: Option<(u32, u32)>) -> (u32, u32) {
    match next {
        Some((first, last)) if first == t.saturating_add(1) => (t, last),
        _ => (t, t),
    }
}

// Each second of the two days, from the last one down, with the next open seconds from there on.
fn agrees(windows: &[(u32, u32)], closures: &[(u32, u32)], times: &OpenTimes) -> bool {
    let mut next = None;
    for t in (0..=LAST_SECOND).rev() {
        let is_open = is_open_plainly(windows, closures, t);
        if is_open {
            next = Some(span_with(t, next));
        }
        let first = next.map(|(first, _)| first);
        if times.is_open(t) != is_open
            || times.first_from(t) != first
            || times.span_from(t) != next
        {
            return false;
        }
    }
    true
}

// Windows and closures.
const CASES: [(&[(u32, u32)], &[(u32, u32)]); 7] = [
    (&[(10, 20), (30, 40)], &[(15, 31), (40, 41)]),
    (&[(100, 200), (201, 300)], &[]),
    (&[(0, 100)], &[(0, 1), (100, 101)]),
    (
        &[(172_700, 172_799)],
        &[(172_710, 172_711), (172_750, 172_800)],
    ),
    (
        &[(50, 150)],
        &[(60, 80), (70, 90), (65, 66), (90, 95), (40, 55), (60, 80)],
    ),
    (&[(10, 20), (25, 25)], &[(0, 172_800)]),
    (
        &[(1, 1), (3, 3), (5, 9), (11, 20)],
        &[(3, 4), (9, 12), (14, 14 + 1)],
    ),
];

// Windows that are none are a failure of the test.
fn window_set(alloc: Global, spans: &[(u32, u32)]) -> Result<WindowSet, Fail> {
    if !are_in_days(spans) {
        return Err(Fail::new("not in the two days"));
    }
    Ok(WindowSet::new(alloc, spans)?)
}

// Whether open times and their copy are those of the definition.
fn agree_with_copy(
    alloc: Global,
    windows: &[(u32, u32)],
    closures: &[(u32, u32)],
) -> Result<bool, Fail> {
    let set = window_set(alloc, windows)?;
    let times = OpenTimes::of(alloc, &set, &closures_of(closures))?;
    assert_send_sync(&times);
    Ok(agrees(windows, closures, &times) && times.copy()? == times)
}

#[test]
fn open_times_agree_with_the_definition(rt: HostRuntime) -> Result<(), Fail> {
    for (windows, closures) in CASES {
        assert!(rt; agree_with_copy(rt.alloc(), windows, closures)?);
    }
    Ok(())
}

const RUNWAY: &[(u32, u32)] = &[
    (46, 47),
    (20, 30),
    (172_790, 172_800),
    (25, 35),
    (0, 5),
    (40, 41),
    (50, 60),
    (44, 45),
    (42, 43),
];

// Windows, and others in which the same seconds of the runway are open.
const CUTS: [(&[(u32, u32)], &[(u32, u32)]); 5] = [
    (
        &[(3, 41), (42, 48), (49, 55), (172_780, 172_799)],
        &[(5, 49), (172_780, 172_789)],
    ),
    (&[(47, 47), (48, 48), (49, 49)], &[(47, 49)]),
    (&[(60, 70), (71, 90), (92, 99)], &[(60, 90), (92, 99)]),
    (&[(20, 34), (50, 59)], &[(25, 30)]),
    (
        &[(0, 172), (172_789, 172_789)],
        &[(5, 172), (172_789, 172_795)],
    ),
];

fn cut(alloc: Global, runway: &OpenTimes, windows: &[(u32, u32)]) -> Result<OpenTimes, Fail> {
    Ok(runway.within(alloc, &window_set(alloc, windows)?)?)
}

// Whether the runway's open seconds in windows are those of the definition, and the same in other windows.
fn cuts_agree(
    alloc: Global,
    runway: &OpenTimes,
    windows: &[(u32, u32)],
    same: &[(u32, u32)],
) -> Result<bool, Fail> {
    let times = cut(alloc, runway, windows)?;
    Ok(agrees(windows, RUNWAY, &times) && times == cut(alloc, runway, same)?)
}

#[test]
fn the_open_seconds_of_the_runway_are_cut_to_windows(rt: HostRuntime) -> Result<(), Fail> {
    let runway = OpenTimes::of_runway(rt.alloc(), &closures_of(RUNWAY))?;
    assert!(rt; agrees(&[(0, LAST_SECOND)], RUNWAY, &runway));
    for (windows, same) in CUTS {
        assert!(rt; cuts_agree(rt.alloc(), &runway, windows, same)?);
    }
    Ok(())
}

const FAULTS: [(&[(u32, u32)], Option<WindowFault>); 8] = [
    (&[], Some(WindowFault::Empty)),
    (
        &[(1, 2), (3, 4), (5, 6), (7, 8), (10, 9)],
        Some(WindowFault::TooMany),
    ),
    (&[(1000, 1100), (1100, 1200)], Some(WindowFault::Overlap(2))),
    (&[(10, 20), (15, 14)], Some(WindowFault::Backward(2))),
    (&[(10, 9), (5, 6)], Some(WindowFault::Backward(1))),
    (&[(0, 7200)], Some(WindowFault::TooLong)),
    (&[(0, 7199)], None),
    (&[(0, 3599), (4000, 7599)], None),
];

#[test]
fn the_first_fault_of_windows_is_named(rt: HostRuntime) {
    for (spans, fault) in FAULTS {
        assert!(rt; are_in_days(spans));
        assert_eq!(rt; WindowSet::new(rt.alloc(), spans).err(), fault);
    }
}

// As many closures as there may be, of four kinds.
fn most_closures() -> Result<Closures, ClosureFault> {
    let mut closures = Closures::new();
    for i in 0..32 {
        closures.add(i % 4, 9)?;
    }
    Ok(closures)
}

fn second(closures: &Closures) -> Option<(u32, u32)> {
    if closures.len() < 2 {
        return None;
    }
    Some(closures.pair(1))
}

#[test]
fn closures_are_added_and_taken_out(rt: HostRuntime) -> Result<(), Fail> {
    use ClosureFault::{Empty, TooMany};
    assert_eq!(rt; Closures::new().add(5, 5), Err(Empty));
    let mut closures = most_closures()?;
    assert_eq!(rt;
        (closures.add(5, 5), closures.add(5, 6)),
        (Err(Empty), Err(TooMany))
    );
    assert_eq!(rt;
        (closures.remove(1, 8), closures.remove(1, 9)),
        (false, true)
    );
    assert_eq!(rt; (closures.len(), second(&closures)), (31, Some((2, 9))));
    Ok(())
}
