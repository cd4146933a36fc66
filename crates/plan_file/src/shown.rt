ghost use Rattle.std.specs.Prelude.{◌≡◌, ◌<◌, Some, length, map, slice_get};
ghost use Rattle.plan_file.specs.Shown.{shown_of};

use crate::Landing;
use std::marker::Model;

/// A plan as it is shown: its objective, and a landing for each flight, in landing order.
///
/// Contracts see the plan that the rules show (`landing_rules`, `ShownPlan`).
#[derive(Drop)]
pub struct Plan {
    value: u64,
    landings: Vec<Landing>,
}

impl Model for Plan {
    ghost use Rattle.std.specs.Prelude.{map};
    ghost use Rattle.landing_rules.specs.Text.{ShownPlan};
    ghost use Rattle.plan_file.specs.Shown.{shown_of};

    ghost Value = { ShownPlan };

    ghost view = { λ p. record { value = p.value; landings = map shown_of p.landings.items } };
}

impl Plan {
    /// The plan with this objective and these landings.
    pub fn new(value: u64, landings: Vec<Landing>) -> Plan
        ensures { result ≡ record { value = value; landings = map shown_of landings.items } }
    {
        Plan { value, landings }
    }

    /// Its objective: the last landing second, or the weighted delay.
    pub fn value(&self) -> u64
        ensures { result ≡ self.now.value }
    {
        self.value
    }

    /// How many flights it lands.
    pub fn len(&self) -> usize
        ensures { result ≡ length self.now.landings }
    {
        self.landings.len()
    }

    /// The landing of this place, from 0, in landing order.
    pub fn line(&self, i: usize) -> Landing
        requires { i < length self.now.landings }
        ensures { slice_get self.now.landings i ≡ Some (shown_of result) }
    {
        self.landings[i]
    }
}
