ghost use Rattle.std.specs.Prelude.{◌≡◌, ◌<◌, length, IfOk, Some, slice_get};

use cps_base::Callsign;
use std::alloc::AllocError;
use std::marker::Model;

/// A landing that was frozen before.
#[derive(Clone, Copy, Debug, PartialEq, Eq)]
pub struct FrozenLanding {
    /// The callsign of the flight.
    pub callsign: Callsign,
    /// The second at which it is frozen, 0 to 172,799.
    pub second: u32,
}

/// The landings that were frozen before. Contracts see them as a list.
#[derive(Drop)]
pub struct FrozenList {
    entries: Vec<FrozenLanding>,
}

impl Model for FrozenList {
    ghost use Rattle.std.specs.Prelude.{List};
    ghost use Rattle.arrivals.specs.declared.frozen_list.FrozenLanding.{FrozenLanding};

    ghost Value = { List FrozenLanding };

    ghost view = { λ l. l.entries.items };
}

impl FrozenList {
    /// The list of these entries.
    pub fn new(entries: Vec<FrozenLanding>) -> FrozenList
        ensures { result ≡ entries.items }
    {
        FrozenList { entries }
    }

    /// The entries, in their order.
    pub fn entries(&self) -> &[FrozenLanding]
        ensures { result.now ≡ self.now }
    {
        self.entries.as_slice()
    }

    /// How many there are.
    pub fn len(&self) -> usize
        ensures { result ≡ length self.now }
    {
        self.entries.len()
    }

    /// The entry of a place, from 0.
    pub fn at(&self, i: usize) -> FrozenLanding
        requires { i < length self.now }
        ensures { slice_get self.now i ≡ Some result }
    {
        self.entries[i]
    }

    // The same list.
    pub(crate) fn copy(&self) -> Result<FrozenList, AllocError>
        ensures { IfOk result (λ copied. copied ≡ self.now) }
    {
        let mut entries = Vec::with_capacity(*self.entries.allocator(), self.entries.len())?;
        entries.extend_from_slice(self.entries.as_slice())?;
        Ok(FrozenList { entries })
    }
}
