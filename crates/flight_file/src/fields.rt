// The six fields of a flight, each by its place in a record.
ghost use Rattle.std.specs.Prelude.{◌≡◌, ◌≤◌, ◌<◌, ◌+◌, IfOk, true, length};
ghost use Rattle.csv.specs.Records.{fields_of};
ghost use Rattle.cps_base.specs.Text.{is_callsign};
ghost use Rattle.cps_base.specs.Limits.{greatest_weight, most_predecessors};
ghost use Rattle.landing_rules.specs.Rules.{last_second};
ghost use Rattle.landing_rules.specs.Sound.{AreGoodWindows, IsGoodFlight};
ghost use Rattle.arrivals.specs.Flights.{AreOthers, IsArrival};
ghost use Rattle.arrivals.specs.Seen as seen;
ghost use Rattle.flight_file.specs.Fields.{callsign_at, category_at, second_at, weight_at, windows_at, names_at, flight_at};

use crate::after::read_after;
use crate::fault::FieldFault;
use crate::windows::read_windows;
use arrivals::{After, Flight};
use cps_base::{Callsign, GREATEST_WEIGHT, MOST_PREDECESSORS, MOST_WINDOWS, read_number};
use csv::ByteRecord;
use csv_records::field;
use landing_windows::{LAST_SECOND, WindowSet};
use std::alloc::Global;
use wake_table::Category;

/// The callsign.
pub fn callsign_at(row: &ByteRecord, i: usize) -> Result<Callsign, FieldFault>
    ensures value { result ≡ callsign_at (fields_of row.now) i }
    ensures callsign { IfOk result (λ name. is_callsign name ≡ true) }
{
    match Callsign::read(field(row, i)) {
        Some(callsign) => Ok(callsign),
        None => Err(FieldFault::Callsign),
    }
}

// The wake category.
fn category_at(row: &ByteRecord, i: usize) -> Result<Category, FieldFault>
    ensures { result ≡ category_at (fields_of row.now) i }
{
    match Category::read(field(row, i)) {
        Some(category) => Ok(category),
        None => Err(FieldFault::Category),
    }
}

/// The estimated second.
pub fn second_at(row: &ByteRecord, i: usize) -> Result<u32, FieldFault>
    ensures value { result ≡ second_at (fields_of row.now) i }
    ensures range { IfOk result (λ second. second ≤ last_second) }
{
    match read_number(field(row, i), 0, u64::from(LAST_SECOND)) {
        Ok(second) => Ok(second as u32),
        Err(fault) => Err(FieldFault::Eta(fault)),
    }
}

// The weight.
fn weight_at(row: &ByteRecord, i: usize) -> Result<u32, FieldFault>
    ensures value { result ≡ weight_at (fields_of row.now) i }
    ensures range { IfOk result (λ weight. (1 ≤ weight) × (weight ≤ greatest_weight)) }
{
    match read_number(field(row, i), 1, u64::from(GREATEST_WEIGHT)) {
        Ok(weight) => Ok(weight as u32),
        Err(fault) => Err(FieldFault::Weight(fault)),
    }
}

/// The windows.
pub fn windows_at(alloc: Global, row: &ByteRecord, i: usize) -> Result<WindowSet, FieldFault>
    ensures value { result ≡ windows_at (fields_of row.now) i }
    ensures good { IfOk result AreGoodWindows }
{
    match read_windows(alloc, field(row, i)) {
        Ok(windows) => {
            prove!(windows.spans().len() <= MOST_WINDOWS);
            Ok(windows)
        }
        Err(cause) => Err(FieldFault::Windows(cause)),
    }
}

// The predecessors of the flight with the callsign `own`.
fn after_at(alloc: Global, own: Callsign, row: &ByteRecord, i: usize) -> Result<After, FieldFault>
    ensures value { result ≡ names_at own (fields_of row.now) i }
    ensures others { IfOk result (AreOthers own) }
    ensures few { IfOk result (λ names. length names ≤ most_predecessors) }
{
    match read_after(alloc, field(row, i), own) {
        Ok(after) => {
            prove!(after.len() <= MOST_PREDECESSORS);
            Ok(after)
        }
        Err(cause) => Err(FieldFault::After(cause)),
    }
}

/// The flight that six fields of a record are, from field `first` on.
#[tactic(auto, unfolding(crate::specs::Fields::flight_at))]
pub fn flight_at(alloc: Global, row: &ByteRecord, first: usize) -> Result<Flight, FieldFault>
    requires { first < 2 }
    ensures value { result ≡ flight_at (fields_of row.now) first }
    ensures of_file { IfOk result IsArrival }
    ensures good { IfOk result (λ flight. IsGoodFlight (seen.flight_of flight)) }
{
    let callsign = callsign_at(row, first)?;
    let category = category_at(row, first + 1)?;
    let eta = second_at(row, first + 2)?;
    let weight = weight_at(row, first + 3)?;
    let windows = windows_at(alloc, row, first + 4)?;
    let after = after_at(alloc, callsign, row, first + 5)?;
    Ok(Flight {
        callsign,
        category,
        eta,
        weight,
        windows,
        after,
    })
}
