use cps_base::NumberFault;
use landing_windows::WindowFault;
use thiserror::Error;

/// Why a text is not the windows of a flight. Parts are numbered from 1.
#[derive(Clone, Copy, Debug, PartialEq, Eq)]
pub enum WindowsCause {
    /// The part has not exactly one `-`.
    Shape(u8),
    /// The part's first number that is no second, and why.
    Number(u8, NumberFault),
    /// There is no part, there are more than four, or the windows are no set of windows.
    Set(WindowFault),
}

/// Why a text is not a list of predecessors. Parts are numbered from 1.
#[derive(Clone, Copy, Debug, PartialEq, Eq)]
pub enum AfterCause {
    /// There are more than four parts.
    TooMany,
    /// The part is no callsign.
    Callsign(u8),
    /// The part is the flight's own callsign.
    Itself(u8),
    /// An earlier part is the same callsign.
    Repeat(u8),
}

/// The field of a flight that is none.
#[derive(Clone, Copy, Debug, PartialEq, Eq)]
pub enum FieldFault {
    /// No callsign.
    Callsign,
    /// No wake category.
    Category,
    /// No estimated second.
    Eta(NumberFault),
    /// No weight from 1 to 100.
    Weight(NumberFault),
    /// No set of windows.
    Windows(WindowsCause),
    /// No list of predecessors.
    After(AfterCause),
}

/// Why a record is not a flight. The first cause in this order is the one that is told.
#[derive(Clone, Copy, Debug, PartialEq, Eq, Error)]
pub enum FlightCause {
    /// The first record is not the header, or there is no record.
    #[error("not the header of a flight file")]
    Header,
    /// The record has not six fields.
    #[error("not six fields")]
    FieldCount,
    /// The first field is no callsign.
    #[error("not a callsign")]
    Callsign,
    /// The second field is no wake category.
    #[error("not a category")]
    Category,
    /// The third field is no second.
    #[error("not an estimated second")]
    Eta(NumberFault),
    /// The fourth field is no weight from 1 to 100.
    #[error("not a weight")]
    Weight(NumberFault),
    /// The fifth field is no set of windows.
    #[error("not windows")]
    Windows(WindowsCause),
    /// The sixth field is no list of predecessors.
    #[error("not predecessors")]
    After(AfterCause),
    /// An earlier record has the callsign.
    #[error("a callsign that stands twice")]
    Duplicate,
    /// 500 flights came before.
    #[error("too many flights")]
    TooMany,
    /// Memory ran out.
    #[error("out of memory")]
    Memory,
}

/// Why a file is not a flight file: its first record that has a cause, and the first cause of that.
#[derive(Clone, Copy, Debug, PartialEq, Eq, Error)]
#[error("record {number}: {cause}")]
pub struct FlightFault {
    /// The record's number, the header being 1; with `Memory` it is 0.
    pub number: u32,
    /// The cause.
    pub cause: FlightCause,
}

impl From<FieldFault> for FlightCause {
    ghost use Rattle.std.specs.Prelude.{◌≡◌};
    ghost use Rattle.flight_file.specs.Reading.{in_field};

    ghost from_gives = { λ fault cause. cause ≡ in_field fault };

    fn from(fault: FieldFault) -> Self {
        match fault {
            FieldFault::Callsign => FlightCause::Callsign,
            FieldFault::Category => FlightCause::Category,
            FieldFault::Eta(fault) => FlightCause::Eta(fault),
            FieldFault::Weight(fault) => FlightCause::Weight(fault),
            FieldFault::Windows(cause) => FlightCause::Windows(cause),
            FieldFault::After(cause) => FlightCause::After(cause),
        }
    }
}
