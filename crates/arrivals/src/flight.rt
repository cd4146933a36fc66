ghost use Rattle.std.specs.Prelude.{◌≡◌};

use crate::after::After;
use cps_base::Callsign;
use landing_windows::WindowSet;
use wake_table::Category;

/// A flight of the file. Seconds run from 0 to 172,799.
#[derive(Drop)]
pub struct Flight {
    /// The name that no other flight of the file has.
    pub callsign: Callsign,
    /// Its wake category.
    pub category: Category,
    /// The second at which it is estimated to land.
    pub eta: u32,
    /// What a second of its delay costs, from 1 to 100.
    pub weight: u32,
    /// The windows in which it may land.
    pub windows: WindowSet,
    /// The flights that land before it, where they are there.
    pub after: After,
}

impl Flight {
    /// The same flight again. It takes no memory, since windows and predecessors stand in place.
    pub fn copy(&self) -> Flight
        ensures { result ≡ self.now }
    {
        Flight {
            callsign: self.callsign,
            category: self.category,
            eta: self.eta,
            weight: self.weight,
            windows: self.windows.copy(),
            after: self.after.copy(),
        }
    }
}
