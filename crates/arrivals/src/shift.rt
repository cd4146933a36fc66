// The shift that an objective takes in a version of the aerodrome file.
ghost use Rattle.std.specs.Prelude.{◌≡◌};
ghost use Rattle.arrivals.specs.Aerodromes.{most_shift, is_beyond};

use cps_base::GREATEST_DELAY_K;
use landing_rules::Objective;

// The greatest shift that delay takes in a version.
fn most_shift(version: u8) -> u8
    ensures { result ≡ most_shift version }
{
    if version == 1 { 1 } else { GREATEST_DELAY_K }
}

/// Whether the objective does not take the shift `k` in a version of the aerodrome file, 1 to 3. Delay takes at most one
/// place in version 1 and at most two in later ones; makespan takes each, 0 to 3.
pub fn is_beyond(version: u8, k: u8, objective: Objective) -> bool
    ensures { result ≡ is_beyond version k objective }
{
    objective == Objective::Delay && k > most_shift(version)
}
