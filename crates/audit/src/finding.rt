use cps_base::Callsign;

/// What is wrong with a plan block. Seconds run from 0 to 172,799.
#[derive(Clone, Copy)]
pub enum Finding {
    /// An active flight without a line.
    Missing(Callsign),
    /// A line that names no active flight.
    Unknown(Callsign),
    /// A line whose callsign an earlier line has.
    Twice(Callsign),
    /// A line, from 2, whose second is not above that of the line before.
    Order(u32),
    /// A line whose last word is not the flight's state.
    Mark(Callsign),
    /// A landing at a second that is not open.
    Closed(Callsign, u32),
    /// Two landings that are not the table's time apart, the first above the second in the block.
    Separation(Callsign, Callsign),
    /// A flight, and one that lists it and doesn't land after it.
    Precedence(Callsign, Callsign),
    /// A frozen flight that is not at its second: that second.
    Moved(Callsign, u32),
    /// A waiting flight before the horizon.
    Early(Callsign),
    /// A waiting flight too far from its rank: its place and its rank.
    Shift(Callsign, u32, u32),
    /// The block's word is not the aerodrome's objective.
    Objective,
    /// The block's number is not the objective of its seconds, which is this.
    Value(u64),
}
