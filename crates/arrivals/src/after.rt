ghost use Rattle.std.specs.Prelude.{◌≡◌, ◌≤◌, ◌<◌, ◌++◌, ◌∷◌, [], length, bytes_eq, slice_get, Some};
ghost use Rattle.std.specs.List.{list_any};
ghost use Rattle.cps_base.specs.Limits.{most_predecessors};

use cps_base::{Callsign, MOST_PREDECESSORS};
use smallvec::SmallVec;
use std::alloc::Global;
use std::marker::Model;

/// The callsigns of at most four predecessors, kept in place. Contracts see their list.
#[derive(Drop)]
pub struct After {
    names: SmallVec<Callsign, MOST_PREDECESSORS>,
}

impl Model for After {
    ghost use Rattle.std.specs.Prelude.{◌≡◌, ◌≤◌, ℕ, List, length};
    ghost use Rattle.cps_base.specs.Limits.{most_predecessors};

    ghost Value = { List (List ℕ) };

    ghost view = { λ a. a.names.items };

    ghost invariant = { λ a. (length a.names.items ≤ most_predecessors)
        × (a.names.capacity ≡ most_predecessors) };
}

impl After {
    /// No predecessor.
    pub fn new(alloc: Global) -> After
        ensures { result ≡ [] }
    {
        After {
            names: SmallVec::new(alloc),
        }
    }

    /// One predecessor more.
    pub fn push(&mut self, name: Callsign)
        requires { length self.old < most_predecessors }
        ensures { self.new ≡ self.old ++ name ∷ [] }
    {
        self.names.push_reserved(name);
    }

    /// Whether the callsign is among them.
    pub fn has(&self, name: Callsign) -> bool
        ensures { result ≡ list_any (bytes_eq name) self.now }
    {
        self.names.iter().any(|n| name == *n)
    }

    /// The callsigns, in their order.
    pub fn names(&self) -> &[Callsign]
        ensures value { result.now ≡ self.now }
        ensures few { length self.now ≤ most_predecessors }
    {
        &self.names
    }

    // The same predecessors again.
    pub(crate) fn copy(&self) -> After
        ensures { result ≡ self.now }
    {
        let names = SmallVec::from_slice(*self.names.allocator(), &self.names).unwrap();
        After { names }
    }

    /// How many there are, at most four.
    pub fn len(&self) -> usize
        ensures value { result ≡ length self.now }
        ensures few { result ≤ most_predecessors }
    {
        self.names.len()
    }

    /// The one at this place, from 0.
    pub fn at(&self, i: usize) -> Callsign
        requires { i < length self.now }
        ensures { slice_get self.now i ≡ Some result }
    {
        self.names[i]
    }
}
