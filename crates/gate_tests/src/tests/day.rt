// A day with an event of each kind. The clock event freezes F1, which lands at second 1030 ahead of A1.
ghost use Rattle.std.specs.Prelude.{All, IfOk};
ghost use Rattle.arrivals.specs.Aerodromes.{IsInRange};
ghost use Rattle.arrivals.specs.Flights.{AreArrivals};
ghost use Rattle.arrivals.specs.Seen.{IsGood};

use aerodrome_file::read_aerodrome;
use arrivals::{Aerodrome, Event, Flight};
use event_log::read_events;
use flight_file::read_flights;
use std::alloc::Global;
use std::test::Fail;
use wake_table::SAMPLE_TEXT;

const HEAD: &str = "version = 3
k = 1
freeze = 150
objective = \"delay\"
";

const FLIGHTS: &str = "callsign,category,eta,weight,windows,after
A1,A,1000,1,1000-2000,
E1,E,4000,1,4000-6000,
F1,F,1010,1,1010-2000,
";

const EVENTS: &str = "kind,callsign,category,eta,weight,windows,after
estimate,F1,,1030,,1030-2000,
clock,,,900,,,
cancel,E1,,,,,
add,E9,E,5000,1,5000-6000,
close,,,,,1500-1600,
reopen,,,,,1500-1600,
";

/// The aerodrome.
pub(super) fn aerodrome(alloc: Global) -> Result<Aerodrome, Fail>
    ensures { IfOk result IsInRange }
{
    let mut text = Vec::from_slice(alloc, HEAD.as_bytes())?;
    text.extend_from_slice(SAMPLE_TEXT.as_bytes())?;
    Ok(read_aerodrome(alloc, text.as_slice())?)
}

/// The flights.
pub(super) fn flights(alloc: Global) -> Result<Vec<Flight>, Fail>
    ensures { IfOk result (λ v. AreArrivals v.items) }
{
    Ok(read_flights(alloc, FLIGHTS.as_bytes())?)
}

/// The events, one of each kind.
pub(super) fn events(alloc: Global) -> Result<Vec<Event>, Fail>
    ensures { IfOk result (λ v. All IsGood v.items) }
{
    Ok(read_events(alloc, EVENTS.as_bytes())?)
}
