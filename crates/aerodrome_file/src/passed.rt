// The counts of passed flights in the file.
ghost use Rattle.std.specs.Prelude.{◌≡◌, ◌≤◌, false, length, option_map, [], IfOk};
ghost use Rattle.toml.specs.View.{view, items_view, table_view};
ghost use Rattle.cps_base.specs.Answers.{Gives};
ghost use Rattle.cps_base.specs.Limits.{most_waiting};
ghost use Rattle.aerodrome_file.specs.Answers.{memory_fault};
ghost use Rattle.arrivals.specs.Aerodromes.{ArePassed};
ghost use Rattle.aerodrome_file.specs.Tables.{tables_of};
ghost use Rattle.aerodrome_file.specs.Passed.{has_passed, passed_entry, passed_from, passed_in};

use crate::fault::{AeroFault, Key, Part};
use crate::tables::tables_in;
use crate::values::{named_number, within};
use arrivals::{PassedCount, PassedList};
use cps_base::{Callsign, MOST_WAITING};
use std::alloc::Global;
use toml::{Table, Value};

// Whether an entry before has this callsign.
fn has_passed(before: &[PassedCount], name: Callsign) -> bool
    ensures { result ≡ has_passed before.now name }
{
    before.iter().any(|p| p.callsign == name)
}

// An entry, behind those before it.
#[tactic(auto, unfolding(crate::specs::Passed::passed_entry))]
fn passed_entry(
    number: u8,
    k: u8,
    before: &[PassedCount],
    table: &Table,
) -> Result<PassedCount, AeroFault>
    ensures value { result ≡ passed_entry number k before.now (table_view table.now) }
    ensures range { IfOk result (λ p. (1 ≤ p.count) × (p.count ≤ k)) }
    ensures new { IfOk result (λ p. has_passed before.now p.callsign ≡ false) }
{
    let (callsign, count) = named_number(
        Part::Passed(number),
        Key::PassedCallsign(number),
        Key::PassedCount(number),
        "count",
        table,
    )?;
    let count = within(Key::PassedCount(number), 1, u32::from(k), count)?;
    if has_passed(before, callsign) {
        return Err(AeroFault::PassedRepeat(number));
    }
    Ok(PassedCount {
        callsign,
        count: count as u8,
    })
}

// The entries that tables are.
#[tactic(auto, using(crate::proofs::Items::first_table), unfolding(crate::specs::Passed::passed_from))]
fn passed_from(alloc: Global, k: u8, values: &[Value]) -> Result<PassedList, AeroFault>
    requires { length values.now ≤ most_waiting }
    ensures value { Gives memory_fault result (passed_from 1 k [] (tables_of (items_view values.now))) }
    ensures range { IfOk result (ArePassed k) }
{
    let mut entries = Vec::new(alloc);
    let mut number: u8 = 1;
    let mut rest = values;
    while let [first, after @ ..] = rest {
        if let Some(table) = first.as_table() {
            let entry = passed_entry(number, k, entries.as_slice(), table)?;
            let Ok(()) = entries.push(entry) else {
                return Err(AeroFault::Memory);
            };
            number += 1;
        }
        rest = after;
    }
    Ok(PassedList::new(entries))
}

// The entries of the file.
#[tactic(auto, unfolding(crate::specs::Passed::passed_in))]
pub(crate) fn passed_in(
    alloc: Global,
    k: u8,
    value: Option<&Value>,
) -> Result<PassedList, AeroFault>
    ensures value { Gives memory_fault result (passed_in k (option_map (λ v. view v.now)
        value.entry)) }
    ensures range { IfOk result (ArePassed k) }
{
    let most = usize::from(MOST_WAITING);
    passed_from(
        alloc,
        k,
        tables_in(Key::Passed, most, AeroFault::PassedTooMany, value)?,
    )
}
