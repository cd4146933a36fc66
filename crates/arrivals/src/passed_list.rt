ghost use Rattle.std.specs.Prelude.{◌≡◌, ◌<◌, length, IfOk, Some, slice_get};

use cps_base::Callsign;
use std::alloc::AllocError;
use std::marker::Model;

/// By how many flights a waiting flight was passed before.
#[derive(Clone, Copy, Debug, PartialEq, Eq)]
pub struct PassedCount {
    /// The callsign of the flight.
    pub callsign: Callsign,
    /// By how many flights it was passed, 1 to `k`.
    pub count: u8,
}

/// The counts of flights that were passed before. Contracts see them as a list.
#[derive(Drop)]
pub struct PassedList {
    entries: Vec<PassedCount>,
}

impl Model for PassedList {
    ghost use Rattle.std.specs.Prelude.{List};
    ghost use Rattle.arrivals.specs.declared.passed_list.PassedCount.{PassedCount};

    ghost Value = { List PassedCount };

    ghost view = { λ l. l.entries.items };
}

impl PassedList {
    /// The list of these entries.
    pub fn new(entries: Vec<PassedCount>) -> PassedList
        ensures { result ≡ entries.items }
    {
        PassedList { entries }
    }

    /// The entries, in their order.
    pub fn entries(&self) -> &[PassedCount]
        ensures { result.now ≡ self.now }
    {
        self.entries.as_slice()
    }

    /// How many there are.
    pub fn len(&self) -> usize
        ensures { result ≡ length self.now }
    {
        self.entries.len()
    }

    /// The entry of a place, from 0.
    pub fn at(&self, i: usize) -> PassedCount
        requires { i < length self.now }
        ensures { slice_get self.now i ≡ Some result }
    {
        self.entries[i]
    }

    // The same list.
    pub(crate) fn copy(&self) -> Result<PassedList, AllocError>
        ensures { IfOk result (λ copied. copied ≡ self.now) }
    {
        let mut entries = Vec::with_capacity(*self.entries.allocator(), self.entries.len())?;
        entries.extend_from_slice(self.entries.as_slice())?;
        Ok(PassedList { entries })
    }
}
