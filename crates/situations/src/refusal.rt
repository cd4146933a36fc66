use cps_base::Callsign;
use std::alloc::AllocError;

/// Why an event is refused. Seconds run from 0 to 172,799.
#[derive(Clone, Copy)]
pub enum Refusal {
    /// An estimate or a cancellation of a flight that is not active: its callsign.
    UnknownFlight(Callsign),
    /// An estimate or a cancellation of a frozen flight: the second at which it is frozen.
    Frozen(u32),
    /// A new flight whose callsign an active flight has: the callsign.
    Duplicate(Callsign),
    /// A new flight while 500 flights are active.
    TooManyFlights,
    /// A new flight while as many flights wait as may.
    TooManyWaiting,
    /// A new flight that a frozen flight lists: the first such frozen flight in order of arrival.
    PredecessorOfFrozen(Callsign),
    /// A closure that holds a frozen landing: the flight of the earliest such landing, and its second.
    CoversFrozen(Callsign, u32),
    /// A closure while 32 stand.
    TooManyClosures,
    /// A reopening of no closure that stands.
    UnknownClosure,
    /// A clock event with a second before the last accepted one: that last second.
    ClockBack(u32),
    /// There was no memory.
    Memory,
}

impl From<AllocError> for Refusal {
    ghost use Rattle.std.specs.Prelude.{◌≡◌};
    ghost use Rattle.situations.specs.declared.refusal.Refusal.TheVariants.{Memory};

    ghost from_gives = { λ _ fault. fault ≡ Memory };

    fn from(_: AllocError) -> Self {
        Refusal::Memory
    }
}
