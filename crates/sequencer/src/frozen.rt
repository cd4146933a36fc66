// What the frozen flights leave to the waiting ones.
ghost use Rattle.std.specs.Prelude.{◌≡◌, ◌≤◌, All, Option, Some, length, map, option_map, sum_by};
ghost use Rattle.std.specs.Option.{ForSome};
ghost use Rattle.wake_table.specs.declared.category.Category.{Category};
ghost use Rattle.cps_base.specs.Limits.{most_flights};
ghost use Rattle.landing_rules.specs.Events.{frozen_landings, in_landing_order};
ghost use Rattle.landing_rules.specs.Problem.{last_of};
ghost use Rattle.landing_rules.specs.Sound.{IsSound};
ghost use Rattle.sequencer.specs.Frozen.{delay_of, frozen_shown, greatest_delay, later_of, latest, BeginsWithFrozen, HasSmallDelay};

use plan_file::Plan;
use situations::{Active, Situation};
use wake_table::Category;

// The later of the flight, where it is frozen, and the one found behind it.
fn later(active: &Active, found: Option<(u32, Category)>) -> Option<(u32, Category)>
    ensures { result ≡ later_of active.now found }
{
    match (active.frozen, found) {
        (None, _) => found,
        (Some(second), None) => Some((second, active.flight.category)),
        (Some(second), Some((next, _))) => {
            if next < second {
                Some((second, active.flight.category))
            } else {
                found
            }
        }
    }
}

// The frozen flight that lands last, by its second and category.
fn latest(flights: &[Active]) -> Option<(u32, Category)>
    ensures { result ≡ latest flights.now }
{
    flights
        .iter()
        .rev()
        .fold(None, |found, active| later(active, found))
}

// The frozen flight that lands last, at this second. It is looked for from the back, since it mostly arrived late.
fn latest_at(situation: &Situation, second: u32) -> Option<(u32, Category)>
    requires sound { IsSound situation.now }
    requires second { option_map (λ l. l.0) (last_of (in_landing_order (frozen_landings
        situation.now))) ≡ Some second }
    ensures { result ≡ last_of (in_landing_order (frozen_landings situation.now)) }
{
    let active = situation
        .flights()
        .iter()
        .rev()
        .find(|active| active.frozen == Some(second))?;
    Some((second, active.flight.category))
}

/// The frozen flight that lands last, by its second and category. A plan may be given that begins with the frozen landings,
/// so many.
pub(crate) fn last_frozen(
    situation: &Situation,
    front: Option<&Plan>,
    count: usize,
) -> Option<(u32, Category)>
    requires sound { IsSound situation.now }
    requires front { ForSome front (λ plan. BeginsWithFrozen situation.now plan.now) }
    requires count { count ≡ length (frozen_shown situation.now) }
    ensures { result ≡ last_of (in_landing_order (frozen_landings situation.now)) }
{
    match front {
        Some(plan) if count > 0 => latest_at(situation, plan.line(count - 1).second),
        _ => latest(situation.flights()),
    }
}

// What the flight's frozen landing costs, and 0 where it waits.
fn delay(active: &Active) -> u64
    requires { HasSmallDelay active.now }
    ensures value { result ≡ delay_of active.now }
    ensures small { result ≤ greatest_delay }
{
    match active.frozen {
        None => 0,
        Some(second) => {
            let late = second.saturating_sub(active.flight.eta);
            u64::from(active.flight.weight) * u64::from(late)
        }
    }
}

/// What the frozen landings cost together.
pub(crate) fn frozen_delay(flights: &[Active]) -> u64
    requires few { length flights.now ≤ most_flights }
    requires small { All HasSmallDelay flights.now }
    ensures { result ≡ sum_by delay_of flights.now }
{
    flights.iter().map(delay).sum()
}
