use cps_base::Callsign;

/// A flight with the second at which it lands, and whether that is frozen.
#[derive(Clone, Copy)]
pub struct Landing {
    /// The flight's callsign.
    pub callsign: Callsign,
    /// The second at which it lands, 0 to 172,799.
    pub second: u32,
    /// Whether no event moves it any more.
    pub frozen: bool,
}
