// The plain spelling of flights.
ghost use Rattle.std.specs.Prelude.{◌≡◌, ◌++◌, true, Ok, OnOk};
ghost use Rattle.texts.specs.Appends.{Appends};
ghost use Rattle.csv_records.specs.Plain.{plain_line};
ghost use Rattle.cps_base.specs.Text.{is_callsign};
ghost use Rattle.flight_file.specs.Reading.{flights_of};
ghost use Rattle.arrivals.specs.Flights.{AreArrivals};
ghost use Rattle.flight_file.specs.Printed.{windows_text, names_text, mark_text, head_text, flight_fields, flights_text};
ghost use Rattle.flight_file.specs.Kept.{AreCallsigns, IsKept, AreKept};

use arrivals::Flight;
use cps_base::Callsign;
use itoa::Buffer;
use std::alloc::AllocError;
use texts::append_all;

// What stands behind a part.
fn mark(is_last: bool) -> &'static [u8]
    ensures { result.now ≡ mark_text is_last }
{
    if is_last { b"" } else { b";" }
}

// Windows, each but the last with its mark.
fn append_windows(windows: &[(u32, u32)], into: &mut Vec<u8>) -> Result<(), AllocError>
    ensures { OnOk result (into.new.items ≡ into.old.items ++ windows_text windows.now) }
{
    let mut rest = windows;
    while let [(first, last), after @ ..] = rest {
        let mut from = Buffer::new();
        let mut to = Buffer::new();
        let pieces = [
            from.format(*first).as_bytes(),
            b"-".as_slice(),
            to.format(*last).as_bytes(),
        ];
        append_all(&pieces, into)?;
        into.extend_from_slice(mark(after.is_empty()))?;
        rest = after;
    }
    Ok(())
}

// Callsigns, each but the last with its mark.
fn append_names(names: &[Callsign], into: &mut Vec<u8>) -> Result<(), AllocError>
    ensures text { OnOk result (into.new.items ≡ into.old.items ++ names_text names.now) }
    ensures kept { OnOk result (AreCallsigns names.now) }
{
    let mut rest = names;
    while let [name, after @ ..] = rest {
        into.extend_from_slice(name.bytes())?;
        into.extend_from_slice(mark(after.is_empty()))?;
        rest = after;
    }
    Ok(())
}

// The first four fields, each with its comma.
fn append_head(flight: &Flight, into: &mut Vec<u8>) -> Result<(), AllocError>
    ensures text { OnOk result (into.new.items ≡ into.old.items ++ head_text flight.now) }
    ensures kept { is_callsign flight.now.callsign ≡ true }
{
    let mut eta = Buffer::new();
    let mut weight = Buffer::new();
    let letter = [flight.category.letter()];
    let pieces = [
        flight.callsign.bytes(),
        b",".as_slice(),
        letter.as_slice(),
        b",".as_slice(),
        eta.format(flight.eta).as_bytes(),
        b",".as_slice(),
        weight.format(flight.weight).as_bytes(),
        b",".as_slice(),
    ];
    append_all(&pieces, into)
}

// The line of a flight.
fn append_flight(flight: &Flight, into: &mut Vec<u8>) -> Result<(), AllocError>
    ensures text { OnOk result (into.new.items
        ≡ into.old.items ++ plain_line (flight_fields flight.now)) }
    ensures kept { OnOk result (IsKept flight.now) }
{
    append_head(flight, into)?;
    append_windows(flight.windows.spans(), into)?;
    into.push(b',')?;
    append_names(flight.after.names(), into)?;
    into.push(b'\n')?;
    Ok(())
}

// The header, and the lines of flights.
fn append_flights(flights: &[Flight], into: &mut Vec<u8>) -> Result<(), AllocError>
    ensures text { OnOk result (into.new.items ≡ into.old.items ++ flights_text flights.now) }
    ensures kept { OnOk result (AreKept flights.now) }
{
    into.extend_from_slice(b"callsign,category,eta,weight,windows,after\n")?;
    let mut rest = flights;
    while let [flight, after @ ..] = rest {
        append_flight(flight, into)?;
        rest = after;
    }
    Ok(())
}

/// Appends the file of these flights in its plain spelling: the header, and a line for each flight
/// with its six fields, without quotes. After a refusal, for want of memory, `into` is as before.
/// Reading the text gives the flights again, for all flights that a file can give.
#[tactic(auto, using(crate::proofs::Printed::read_printed))]
pub fn print_flights(flights: &[Flight], into: &mut Vec<u8>) -> Result<(), AllocError>
    ensures appends { Appends into.old.items into.new.items (flights_text flights.now) result }
    ensures reads { AreArrivals flights.now
        → OnOk result (flights_of (flights_text flights.now) ≡ Ok flights.now) }
{
    let mut text = Vec::new(*into.allocator());
    append_flights(flights, &mut text)?;
    into.extend_from_slice(text.as_slice())
}
