// The whole file.
ghost use Rattle.std.specs.Prelude.{◌≡◌, IfOk, option_map};
ghost use Rattle.toml.specs.Errors.{IsMemory};
ghost use Rattle.toml.specs.View.{view, table_view};
ghost use Rattle.cps_base.specs.Answers.{Gives};
ghost use Rattle.aerodrome_file.specs.Answers.{memory_fault, GivesTable};
ghost use Rattle.arrivals.specs.Aerodromes.{IsInRange};
ghost use Rattle.aerodrome_file.specs.Reading.{document, objective_at, aerodrome_in, aerodrome_of};

use crate::closures::closures_in;
use crate::fault::{AeroFault, Key};
use crate::frozen::{clock_in, frozen_in};
use crate::passed::passed_in;
use crate::separations::table_in;
use crate::values::{get, number_in, present, string_of};
use crate::version::version_in;
use arrivals::{Aerodrome, is_beyond};
use cps_base::{GREATEST_K, LONGEST_FREEZE};
use landing_rules::Objective;
use std::alloc::Global;
use texts::objective_in;
use toml::de::Error;
use toml::{Table, Value};

// Why toml gives no table: want of memory, or a text that is not TOML.
fn fault_of(error: &Error) -> AeroFault
    ensures memory { IsMemory error.now → result ≡ AeroFault.Memory }
    ensures other { ¬ IsMemory error.now → result ≡ AeroFault.NotToml }
{
    if error.is_memory() {
        AeroFault::Memory
    } else {
        AeroFault::NotToml
    }
}

// The table that a text is.
#[tactic(auto, unfolding(crate::specs::Reading::document))]
fn document(alloc: Global, bytes: &[u8]) -> Result<Table, AeroFault>
    ensures { GivesTable result (document bytes.now) }
{
    let Ok(text) = str::from_utf8(bytes) else {
        return Err(AeroFault::NotToml);
    };
    match toml::table_from_str(alloc, text) {
        Ok(table) => Ok(table),
        Err(error) => Err(fault_of(&error)),
    }
}

// What a plan is to make least.
fn objective_at(value: Option<&Value>) -> Result<Objective, AeroFault>
    ensures { result ≡ objective_at (option_map (λ v. view v.now) value.entry) }
{
    let word = string_of(Key::Objective, present(Key::Objective, value)?)?;
    match objective_in(word.as_bytes()) {
        Some(objective) => Ok(objective),
        None => Err(AeroFault::OutOfRange(Key::Objective)),
    }
}

// The aerodrome that a table is.
#[tactic(auto, unfolding(crate::specs::Reading::aerodrome_in))]
fn aerodrome_in(alloc: Global, table: &Table) -> Result<Aerodrome, AeroFault>
    ensures value { Gives memory_fault result (aerodrome_in (table_view table.now)) }
    ensures range { IfOk result IsInRange }
{
    let version = version_in(table)?;
    let k = number_in(Key::K, 0, GREATEST_K as u32, get(table, "k"))?;
    let freeze = number_in(Key::Freeze, 0, LONGEST_FREEZE, get(table, "freeze"))?;
    let objective = objective_at(get(table, "objective"))?;
    let separations = table_in(get(table, "table"))?;
    let closures = closures_in(get(table, "closures"))?;
    let clock = clock_in(get(table, "clock"))?;
    let frozen = frozen_in(alloc, clock, freeze, get(table, "frozen"))?;
    let k = k as u8;
    let passed = passed_in(alloc, k, get(table, "passed"))?;
    if is_beyond(version, k, objective) {
        return Err(AeroFault::DelayShift(k));
    }
    Ok(Aerodrome {
        version,
        k,
        freeze,
        objective,
        table: separations,
        closures,
        clock,
        frozen,
        carry: version == 3,
        passed,
    })
}

/// The aerodrome that a file is, or its first fault.
///
/// The faults are looked for in this order: the text as TOML; the keys of the document, in byte order; `version`, `k`,
/// `freeze`, `objective` and `table`, each for its presence, its kind and its range; `closures`, one after the other;
/// `clock`; `frozen` and `passed`, entry by entry; and last the shift that delay does not take.
#[tactic(auto, unfolding(crate::specs::Reading::aerodrome_of))]
pub fn read_aerodrome(alloc: Global, bytes: &[u8]) -> Result<Aerodrome, AeroFault>
    ensures value { Gives memory_fault result (aerodrome_of bytes.now) }
    ensures range { IfOk result IsInRange }
{
    let table = document(alloc, bytes)?;
    aerodrome_in(alloc, &table)
}
