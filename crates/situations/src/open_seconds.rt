// Whether a second is open, by looking at each window and each closure.
ghost use Rattle.std.specs.Prelude.{◌≡◌, ◌<◌};
ghost use Rattle.std.specs.List.{list_any};
ghost use Rattle.landing_rules.specs.Rules.{is_open, is_shut, is_within};

use landing_windows::{Closures, WindowSet};

// Whether the closure holds the second.
fn holds(closure: (u32, u32), second: u32) -> bool
    ensures { result ≡ is_shut second closure }
{
    closure.0 <= second && second < closure.1
}

// Whether a closure holds the second.
fn is_shut(closures: &Closures, second: u32) -> bool
    ensures { result ≡ list_any (is_shut second) closures.now }
{
    closures.pairs().iter().any(|c| holds(*c, second))
}

// Whether the window holds the second.
fn is_within(window: (u32, u32), second: u32) -> bool
    ensures { result ≡ is_within second window }
{
    window.0 <= second && second <= window.1
}

// Whether a window holds the second.
fn has_window(windows: &[(u32, u32)], second: u32) -> bool
    ensures { result ≡ list_any (is_within second) windows.now }
{
    windows.iter().any(|w| is_within(*w, second))
}

/// Whether a flight with these windows may land at the second, as the closures stand.
pub fn is_open(windows: &WindowSet, closures: &Closures, second: u32) -> bool
    ensures { result ≡ is_open windows.now closures.now second }
{
    has_window(windows.spans(), second) && !is_shut(closures, second)
}
