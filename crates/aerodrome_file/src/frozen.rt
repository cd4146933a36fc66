// The clock second and the frozen landings in the file.
ghost use Rattle.std.specs.Prelude.{◌≡◌, ◌≤◌, false, length, option_map, [], IfOk};
ghost use Rattle.toml.specs.View.{view, items_view, table_view};
ghost use Rattle.cps_base.specs.Answers.{Gives};
ghost use Rattle.cps_base.specs.Limits.{most_flights};
ghost use Rattle.aerodrome_file.specs.Answers.{memory_fault};
ghost use Rattle.arrivals.specs.Aerodromes.{IsClock, IsFrozen, AreFrozen, AreFrozenBy};
ghost use Rattle.aerodrome_file.specs.Tables.{tables_of};
ghost use Rattle.aerodrome_file.specs.Frozen.{clock_in, has_frozen, is_late, frozen_entry, frozen_from, frozen_in};

use crate::fault::{AeroFault, Key, Part};
use crate::tables::tables_in;
use crate::values::{integer_of, named_number, within};
use arrivals::{FrozenLanding, FrozenList};
use cps_base::{Callsign, MOST_FLIGHTS};
use landing_windows::LAST_SECOND;
use std::alloc::Global;
use toml::{Table, Value};

// The clock second, none where the key is absent.
#[tactic(auto, unfolding(crate::specs::Frozen::clock_in))]
pub(crate) fn clock_in(value: Option<&Value>) -> Result<Option<u32>, AeroFault>
    ensures value { result ≡ clock_in (option_map (λ v. view v.now) value.entry) }
    ensures range { IfOk result IsClock }
{
    let Some(value) = value else {
        return Ok(None);
    };
    let number = integer_of(Key::Clock, value)?;
    let now = within(Key::Clock, 0, LAST_SECOND, number)?;
    Ok(Some(now))
}

// Whether a landing before has this callsign.
fn has_frozen(before: &[FrozenLanding], name: Callsign) -> bool
    ensures { result ≡ has_frozen before.now name }
{
    before.iter().any(|f| f.callsign == name)
}

// Whether a second is at the clock second plus `freeze`, or later.
fn is_late(clock: u32, freeze: u32, second: u32) -> bool
    ensures { result ≡ is_late clock freeze second }
{
    u64::from(second) >= u64::from(clock) + u64::from(freeze)
}

// A frozen landing, behind those before it.
#[tactic(auto, unfolding(crate::specs::Frozen::frozen_entry))]
fn frozen_entry(
    number: u16,
    clock: u32,
    freeze: u32,
    before: &[FrozenLanding],
    table: &Table,
) -> Result<FrozenLanding, AeroFault>
    ensures value { result ≡ frozen_entry number clock freeze before.now (table_view table.now) }
    ensures range { IfOk result (IsFrozen clock freeze) }
    ensures new { IfOk result (λ f. has_frozen before.now f.callsign ≡ false) }
{
    let (callsign, second) = named_number(
        Part::Frozen(number),
        Key::FrozenCallsign(number),
        Key::FrozenSecond(number),
        "second",
        table,
    )?;
    let second = within(Key::FrozenSecond(number), 0, LAST_SECOND, second)?;
    if has_frozen(before, callsign) {
        return Err(AeroFault::FrozenRepeat(number));
    }
    if is_late(clock, freeze, second) {
        return Err(AeroFault::FrozenLate(number));
    }
    Ok(FrozenLanding { callsign, second })
}

// The frozen landings that tables are.
#[tactic(auto, using(crate::proofs::Items::first_table), unfolding(crate::specs::Frozen::frozen_from))]
fn frozen_from(
    alloc: Global,
    clock: u32,
    freeze: u32,
    values: &[Value],
) -> Result<FrozenList, AeroFault>
    requires { length values.now ≤ most_flights }
    ensures value { Gives memory_fault result (frozen_from 1 clock freeze []
        (tables_of (items_view values.now))) }
    ensures range { IfOk result (AreFrozen clock freeze) }
{
    let mut entries = Vec::new(alloc);
    let mut number: u16 = 1;
    let mut rest = values;
    while let [first, after @ ..] = rest {
        if let Some(table) = first.as_table() {
            let entry = frozen_entry(number, clock, freeze, entries.as_slice(), table)?;
            let Ok(()) = entries.push(entry) else {
                return Err(AeroFault::Memory);
            };
            number += 1;
        }
        rest = after;
    }
    Ok(FrozenList::new(entries))
}

// The frozen landings of the file.
#[tactic(auto, unfolding(crate::specs::Frozen::frozen_in))]
pub(crate) fn frozen_in(
    alloc: Global,
    clock: Option<u32>,
    freeze: u32,
    value: Option<&Value>,
) -> Result<FrozenList, AeroFault>
    ensures value { Gives memory_fault result (frozen_in clock freeze
        (option_map (λ v. view v.now) value.entry)) }
    ensures range { IfOk result (AreFrozenBy clock freeze) }
{
    let values = tables_in(Key::Frozen, MOST_FLIGHTS, AeroFault::FrozenTooMany, value)?;
    match clock {
        Some(clock) => frozen_from(alloc, clock, freeze, values),
        None if values.is_empty() => Ok(FrozenList::new(Vec::new(alloc))),
        None => Err(AeroFault::FrozenNoClock),
    }
}
