use crate::flight::Flight;
use cps_base::Callsign;
use landing_windows::WindowSet;

/// What an event may set anew of a flight that waits.
#[derive(Drop)]
pub enum Revision {
    /// Its estimated second, from 0 to 172,799, and its windows.
    Times(u32, WindowSet),
}

/// An event of the log. Seconds run from 0 to 172,799.
#[derive(Drop)]
pub enum Event {
    /// Something is set anew of the flight of this callsign.
    Revise(Callsign, Revision),
    /// The flight of this callsign is gone.
    Cancel(Callsign),
    /// A new flight.
    Add(Flight),
    /// The runway is closed from the first second on, until before the second one, which is at most
    /// 172,800.
    Close(u32, u32),
    /// The closure with these two seconds is lifted.
    Reopen(u32, u32),
    /// The clock stands at this second.
    Clock(u32),
}
