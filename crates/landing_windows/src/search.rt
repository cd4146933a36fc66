// Searches along closures.
ghost use Rattle.std.specs.Prelude.{◌≡◌, ◌≤◌, false, MatchOption};
ghost use Rattle.landing_windows.specs.Spans.{shuts, IsShutUntil, IsFirstShut};

// The end of a closure that holds t.
pub(crate) fn shut_until(closures: &[(u32, u32)], t: u32) -> Option<u32>
    ensures { MatchOption result (shuts closures.now t ≡ false)
        (λ end. IsShutUntil closures.now t end) }
{
    let closure = closures.iter().find(|(from, to)| *from <= t && t < *to)?;
    Some(closure.1)
}

// The least second from `start` on that a closure holds, or `most` where that comes first.
pub(crate) fn first_shut(closures: &[(u32, u32)], start: u32, most: u32) -> u32
    requires { start ≤ most }
    ensures { IsFirstShut closures.now start most result }
{
    closures.iter().fold(most, |least, (from, to)| {
        let first = start.max(*from);
        if first < *to { first.min(least) } else { least }
    })
}
