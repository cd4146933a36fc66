// What the first line of a block says.
ghost use Rattle.std.specs.Prelude.{◌≡◌, ◌≤◌, ◌*◌, ◌++◌, All, OnOk, length, map, sum_by};
ghost use Rattle.landing_rules.specs.Audit.{is_objective, landing_of, other_objective, other_value};
ghost use Rattle.cps_base.specs.Limits.{greatest_weight, greatest_word, most_flights};
ghost use Rattle.landing_rules.specs.Rules.{cost, delay, greatest};
ghost use Rattle.audit.specs.Findings.{Finds, HasSmallWeight};

use crate::Finding;
use crate::found::Found;
use landing_rules::Objective;
use std::alloc::AllocError;

// Whether two objectives are the same.
fn is_objective(said: Objective, meant: Objective) -> bool
    ensures { result ≡ is_objective said meant }
{
    said == meant
}

// Where the block's word is not the aerodrome's.
fn other_objective(
    said: Objective,
    meant: Objective,
    all: &mut Vec<Finding>,
) -> Result<(), AllocError>
    ensures { OnOk result (Finds all.old.items all.new.items (other_objective said meant)) }
{
    if !is_objective(said, meant) {
        all.push(Finding::Objective)?;
    }
    Ok(())
}

// The second that the line says.
fn second_of(found: &Found) -> u32
    ensures { result ≡ (landing_of found.now).second }
{
    found.line.second
}

// The greatest second, and 0 with no line.
fn greatest_second(found: &[Found]) -> u32
    ensures { result ≡ greatest (map (λ f. f.second) (map landing_of found.now)) }
{
    found
        .iter()
        .rev()
        .fold(0, |latest, found| second_of(found).max(latest))
}

// What the landing costs: its delay after the estimate, by weight.
fn delay_of(found: &Found) -> u64
    requires { HasSmallWeight found.now }
    ensures value { result ≡ delay (landing_of found.now) }
    ensures small { result ≤ greatest_weight * greatest_word }
{
    let flight = &found.active.flight;
    u64::from(flight.weight) * u64::from(found.line.second.saturating_sub(flight.eta))
}

// What the landings cost together.
fn total_delay(found: &[Found]) -> u64
    requires few { length found.now ≤ most_flights }
    requires small { All HasSmallWeight found.now }
    ensures { result ≡ sum_by delay (map landing_of found.now) }
{
    found.iter().map(delay_of).sum()
}

// The objective of the seconds.
fn value_of(objective: Objective, found: &[Found]) -> u64
    requires few { length found.now ≤ most_flights }
    requires small { All HasSmallWeight found.now }
    ensures { result ≡ cost objective (map landing_of found.now) }
{
    match objective {
        Objective::Makespan => u64::from(greatest_second(found)),
        Objective::Delay => total_delay(found),
    }
}

// Where the block's number is not the value.
fn other_value(said: u64, value: u64, all: &mut Vec<Finding>) -> Result<(), AllocError>
    ensures { OnOk result (Finds all.old.items all.new.items (other_value said value)) }
{
    if value != said {
        all.push(Finding::Value(value))?;
    }
    Ok(())
}

// What is wrong with the first line, by the aerodrome's objective.
pub(crate) fn by_head(
    meant: Objective,
    said: Objective,
    number: u64,
    found: &[Found],
    all: &mut Vec<Finding>,
) -> Result<(), AllocError>
    requires few { length found.now ≤ most_flights }
    requires small { All HasSmallWeight found.now }
    ensures { OnOk result (Finds all.old.items all.new.items (other_objective said meant
        ++ other_value number (cost meant (map landing_of found.now)))) }
{
    let value = value_of(meant, found);
    other_objective(said, meant, all)?;
    other_value(number, value, all)
}
