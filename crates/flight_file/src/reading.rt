ghost use Rattle.std.specs.Prelude.{◌≡◌, false, OnOk, IfOk};
ghost use Rattle.csv.specs.Records.{fields_of};
ghost use Rattle.cps_base.specs.Answers.{GivesAs};
ghost use Rattle.csv_records.specs.Values.{memory_fault};
ghost use Rattle.arrivals.specs.Flights.{IsArrival, AreArrivals};
ghost use Rattle.flight_file.specs.Reading.{has_callsign, flight_in, flights, flights_of};

use crate::fault::{FlightCause, FlightFault};
use crate::fields::flight_at;
use arrivals::Flight;
use cps_base::{Callsign, MOST_FLIGHTS};
use csv::ByteRecord;
use csv_records::{FileCause, Format, read_values};
use std::alloc::Global;

/// The header of a flight file.
pub(crate) const HEADER: [&[u8]; 6] = [
    b"callsign",
    b"category",
    b"eta",
    b"weight",
    b"windows",
    b"after",
];

// Whether one of the flights has this callsign.
fn has_callsign(flights: &[Flight], name: Callsign) -> bool
    ensures { result ≡ has_callsign flights.now name }
{
    flights.iter().any(|f| f.callsign == name)
}

// The flight that a record is, behind the flights before it.
#[tactic(auto, unfolding(crate::specs::Reading::flight_in))]
fn flight_in(alloc: Global, before: &[Flight], row: &ByteRecord) -> Result<Flight, FlightCause>
    ensures value { result ≡ flight_in before.now (fields_of row.now) }
    ensures of_file { IfOk result IsArrival }
    ensures new { IfOk result (λ f. has_callsign before.now f.callsign ≡ false) }
{
    let flight = flight_at(alloc, row, 0)?;
    if has_callsign(before, flight.callsign) {
        return Err(FlightCause::Duplicate);
    }
    Ok(flight)
}

// The flight file.
struct Flights;

impl Format for Flights {
    ghost use Rattle.std.specs.Prelude.{◌≡◌, ◌<◌, ◌∷◌, ◌++◌, [], List, length, map, IfOk, Ok};
    ghost use Rattle.csv.specs.Records.{fields_of};
    ghost use Rattle.arrivals.specs.Flights.{AreArrivals};
    ghost use Rattle.flight_file.specs.Reading.{flights};
    ghost use Rattle.std.proofs.Common.{rules};

    type Value = Flight;

    type Cause = FlightCause;

    type Fault = FlightFault;

    ghost form = { flights };

    ghost holds = { AreArrivals };

    fn header() -> &'static [&'static [u8]] {
        &HEADER
    }

    fn most() -> usize {
        MOST_FLIGHTS
    }

    fn value_in(alloc: Global, before: &[Flight], row: &ByteRecord) -> Result<Flight, FlightCause> {
        flight_in(alloc, before, row)
    }

    fn cause(cause: FileCause) -> FlightCause {
        match cause {
            FileCause::Header => FlightCause::Header,
            FileCause::FieldCount => FlightCause::FieldCount,
            FileCause::TooMany => FlightCause::TooMany,
            FileCause::Memory => FlightCause::Memory,
        }
    }

    fn fault(number: u32, cause: FlightCause) -> FlightFault {
        FlightFault { number, cause }
    }

    ghost holds_none = { Prim.search rules };
}

/// The flights of a file, or the first fault of its first record that has one. It stops at that
/// record, and holds one record at a time, and of one with more than six fields nothing.
pub fn read_flights(alloc: Global, bytes: &[u8]) -> Result<Vec<Flight>, FlightFault>
    ensures value { GivesAs (memory_fault flights) (λ v. v.items) result (flights_of bytes.now) }
    ensures of_file { IfOk result (λ v. AreArrivals v.items) }
{
    read_values::<Flights>(alloc, bytes)
}
