// The kinds of events, each with the columns that it uses, from left to right.
ghost use Rattle.std.specs.Prelude.{◌≡◌, ◌<◌, ◌≤◌, ◌+◌, IfOk};
ghost use Rattle.csv.specs.Records.{fields_of};
ghost use Rattle.landing_rules.specs.Rules.{last_second};
ghost use Rattle.event_log.specs.Kinds.{estimate_in, cancel_in, add_in, closed_in, clock_in, event_by};
ghost use Rattle.arrivals.specs.Seen.{IsGood};

use crate::columns::{empty_in, span_in};
use crate::fault::{Col, LogCause};
use arrivals::{Event, Revision};
use csv::ByteRecord;
use flight_file::{callsign_at, flight_at, second_at, windows_at};
use std::alloc::Global;

// A new estimate.
#[tactic(auto, unfolding(crate::specs::Kinds::estimate_in))]
fn estimate_in(alloc: Global, row: &ByteRecord) -> Result<Event, LogCause>
    ensures value { result ≡ estimate_in (fields_of row.now) }
    ensures good { IfOk result IsGood }
{
    let callsign = callsign_at(row, Col::Callsign.place())?;
    empty_in(row, &[Col::Category])?;
    let eta = second_at(row, Col::Eta.place())?;
    empty_in(row, &[Col::Weight])?;
    let windows = windows_at(alloc, row, Col::Windows.place())?;
    empty_in(row, &[Col::After])?;
    Ok(Event::Revise(callsign, Revision::Times(eta, windows)))
}

// A flight that is gone.
#[tactic(auto, unfolding(crate::specs::Kinds::cancel_in))]
fn cancel_in(row: &ByteRecord) -> Result<Event, LogCause>
    ensures value { result ≡ cancel_in (fields_of row.now) }
    ensures good { IfOk result IsGood }
{
    let callsign = callsign_at(row, Col::Callsign.place())?;
    empty_in(
        row,
        &[
            Col::Category,
            Col::Eta,
            Col::Weight,
            Col::Windows,
            Col::After,
        ],
    )?;
    Ok(Event::Cancel(callsign))
}

// A new flight.
#[tactic(auto, unfolding(crate::specs::Kinds::add_in))]
fn add_in(alloc: Global, row: &ByteRecord) -> Result<Event, LogCause>
    ensures value { result ≡ add_in (fields_of row.now) }
    ensures good { IfOk result IsGood }
{
    let flight = flight_at(alloc, row, Col::Callsign.place())?;
    Ok(Event::Add(flight))
}

// The span of a closure that is new, or is lifted.
#[tactic(auto, unfolding(crate::specs::Kinds::closed_in))]
fn closed_in(row: &ByteRecord) -> Result<(u32, u32), LogCause>
    ensures value { result ≡ closed_in (fields_of row.now) }
    ensures forward { IfOk result (λ span. (span.0 < span.1) × (span.1 ≤ last_second + 1)) }
{
    empty_in(row, &[Col::Callsign, Col::Category, Col::Eta, Col::Weight])?;
    let span = span_in(row)?;
    empty_in(row, &[Col::After])?;
    Ok(span)
}

// The clock.
#[tactic(auto, unfolding(crate::specs::Kinds::clock_in))]
fn clock_in(row: &ByteRecord) -> Result<Event, LogCause>
    ensures value { result ≡ clock_in (fields_of row.now) }
    ensures good { IfOk result IsGood }
{
    empty_in(row, &[Col::Callsign, Col::Category])?;
    let now = second_at(row, Col::Eta.place())?;
    empty_in(row, &[Col::Weight, Col::Windows, Col::After])?;
    Ok(Event::Clock(now))
}

// The event of this kind that the columns of a record are.
#[tactic(auto, unfolding(crate::specs::Kinds::event_by))]
pub(crate) fn event_by(alloc: Global, kind: &[u8], row: &ByteRecord) -> Result<Event, LogCause>
    ensures value { result ≡ event_by kind.now (fields_of row.now) }
    ensures good { IfOk result IsGood }
{
    if kind == b"estimate".as_slice() {
        return estimate_in(alloc, row);
    }
    if kind == b"cancel".as_slice() {
        return cancel_in(row);
    }
    if kind == b"add".as_slice() {
        return add_in(alloc, row);
    }
    if kind == b"close".as_slice() {
        let (from, to) = closed_in(row)?;
        return Ok(Event::Close(from, to));
    }
    if kind == b"reopen".as_slice() {
        let (from, to) = closed_in(row)?;
        return Ok(Event::Reopen(from, to));
    }
    if kind == b"clock".as_slice() {
        return clock_in(row);
    }
    Err(LogCause::Kind)
}
