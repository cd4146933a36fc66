ghost use Rattle.std.specs.Prelude.{◌≡◌, ◌||◌, ℕ, List, [], IfOk, OnOk};
ghost use Rattle.std.specs.Str.{bytes_eq};
ghost use Rattle.audit.specs.Seen.{has_name};

use cps_base::Callsign;
use indexmap::IndexSet;
use std::alloc::{AllocError, Global};
use std::marker::Model;

// The callsigns that were seen, each once. Contracts see their list.
#[derive(Drop)]
pub(crate) struct Seen {
    callsigns: IndexSet<Callsign>,
}

impl Model for Seen {
    ghost use Rattle.std.specs.Prelude.{List, ℕ};

    ghost Value = { List (List ℕ) };

    ghost view = { λ s. s.callsigns.keys };
}

impl Seen {
    // None yet.
    pub(crate) fn new(alloc: Global) -> Seen
        ensures { result ≡ [] }
    {
        Seen {
            callsigns: IndexSet::new(alloc),
        }
    }

    // Whether it was seen.
    pub(crate) fn has(&self, callsign: Callsign) -> bool
        ensures { result ≡ has_name self.now callsign }
    {
        self.callsigns.contains(&callsign)
    }

    // Takes one in, and answers whether it was seen before.
    pub(crate) fn add(&mut self, callsign: Callsign) -> Result<bool, AllocError>
        ensures was { IfOk result (λ was. was ≡ has_name self.old callsign) }
        ensures more { OnOk result ((c : List ℕ) → has_name self.new c
            ≡ (bytes_eq callsign c || has_name self.old c)) }
    {
        let is_new = self.callsigns.insert(callsign)?;
        Ok(!is_new)
    }
}
