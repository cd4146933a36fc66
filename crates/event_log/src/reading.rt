ghost use Rattle.std.specs.Prelude.{◌≤◌, All, IfOk, vec_len};
ghost use Rattle.cps_base.specs.Answers.{GivesAs};
ghost use Rattle.cps_base.specs.Limits.{most_events};
ghost use Rattle.csv_records.specs.Values.{memory_fault};
ghost use Rattle.arrivals.specs.Seen.{IsGood};
ghost use Rattle.event_log.specs.Reading.{events, events_of};

use crate::fault::{LogCause, LogFault};
use crate::kinds::event_by;
use arrivals::Event;
use cps_base::MOST_EVENTS;
use csv::ByteRecord;
use csv_records::{FileCause, Format, field, read_values};
use std::alloc::Global;

const HEADER: [&[u8]; 7] = [
    b"kind",
    b"callsign",
    b"category",
    b"eta",
    b"weight",
    b"windows",
    b"after",
];

// The event log.
struct Events;

impl Format for Events {
    ghost use Rattle.std.specs.Prelude.{◌≡◌, ◌<◌, ◌∷◌, ◌++◌, [], List, length, map, All, IfOk, Ok};
    ghost use Rattle.csv.specs.Records.{fields_of};
    ghost use Rattle.event_log.specs.Reading.{events};
    ghost use Rattle.arrivals.specs.Seen.{IsGood};
    ghost use Rattle.std.proofs.Common.{rules};

    type Value = Event;

    type Cause = LogCause;

    type Fault = LogFault;

    ghost form = { events };

    ghost holds = { All IsGood };

    fn header() -> &'static [&'static [u8]] {
        &HEADER
    }

    fn most() -> usize {
        MOST_EVENTS
    }

    fn value_in(alloc: Global, _: &[Event], row: &ByteRecord) -> Result<Event, LogCause> {
        event_by(alloc, field(row, 0), row)
    }

    fn cause(cause: FileCause) -> LogCause {
        match cause {
            FileCause::Header => LogCause::Header,
            FileCause::FieldCount => LogCause::FieldCount,
            FileCause::TooMany => LogCause::TooMany,
            FileCause::Memory => LogCause::Memory,
        }
    }

    fn fault(number: u32, cause: LogCause) -> LogFault {
        LogFault { number, cause }
    }

    ghost holds_none = { Prim.search rules };
}

/// The events of a log, or the first fault of its first record that has one. It stops at that
/// record, and holds one record at a time. There are at most 2,000 events, and all of their numbers
/// are in their ranges.
pub fn read_events(alloc: Global, bytes: &[u8]) -> Result<Vec<Event>, LogFault>
    ensures value { GivesAs (memory_fault events) (λ v. v.items) result (events_of bytes.now) }
    ensures few { IfOk result (λ v. vec_len v ≤ most_events) }
    ensures good { IfOk result (λ v. All IsGood v.items) }
{
    read_values::<Events>(alloc, bytes)
}
