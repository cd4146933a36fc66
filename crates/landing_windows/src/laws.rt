//! Laws of open seconds, each pinned by the contract of a function without a body.

ghost use Rattle.landing_windows.specs.Spans.{NeverFallsLaw, OneListLaw};

/// The first open second at or after t never falls as t rises.
pub fn first_from_never_falls()
    ensures { NeverFallsLaw }
{}

/// The open seconds fix the list of spans.
pub fn open_seconds_have_one_list()
    ensures { OneListLaw }
{}
