use cps_base::NumberFault;
use flight_file::{AfterCause, FieldFault, WindowsCause};
use thiserror::Error;

/// A column behind that of the kind, in the order of the header.
#[derive(Clone, Copy, Debug, PartialEq, Eq)]
pub enum Col {
    /// The flight that the event concerns.
    Callsign,
    /// Its wake category.
    Category,
    /// Its estimated second; of the clock, the second at which it stands.
    Eta,
    /// Its weight.
    Weight,
    /// Its windows; of a closure, its span.
    Windows,
    /// Its predecessors.
    After,
}

/// Why a column is not what its kind of event wants there.
#[derive(Clone, Copy, Debug, PartialEq, Eq)]
pub enum FieldCause {
    /// A byte stands where none may.
    NotEmpty,
    /// Not a callsign, or not a category.
    Bad,
    /// Not a number of its range.
    Number(NumberFault),
    /// Not windows, or not the shape or the numbers of a span, which has part 1 alone.
    Windows(WindowsCause),
    /// Not a list of predecessors.
    After(AfterCause),
    /// The span ends where it begins, or before.
    EmptySpan,
}

/// Why a record is not an event. The first cause in this order is the one that is told; of columns,
/// that of the first one that has a cause.
#[derive(Clone, Copy, Debug, PartialEq, Eq, Error)]
pub enum LogCause {
    /// The first record is not the header, or there is no record.
    #[error("not the header of an event log")]
    Header,
    /// The record has not seven fields.
    #[error("not seven fields")]
    FieldCount,
    /// The first field is none of the kinds.
    #[error("not a kind of event")]
    Kind,
    /// A column is not what the kind wants there.
    #[error("not what the kind of event wants")]
    Field(Col, FieldCause),
    /// 2,000 events came before.
    #[error("too many events")]
    TooMany,
    /// Memory ran out.
    #[error("out of memory")]
    Memory,
}

/// Why a file is not an event log: its first record that has a cause, and the first cause of that.
#[derive(Clone, Copy, Debug, PartialEq, Eq, Error)]
#[error("record {number}: {cause}")]
pub struct LogFault {
    /// The record's number, the header being 1; with `Memory` it is 0.
    pub number: u32,
    /// The cause.
    pub cause: LogCause,
}

impl From<FieldFault> for LogCause {
    ghost use Rattle.std.specs.Prelude.{◌≡◌};
    ghost use Rattle.event_log.specs.Columns.{in_column};

    ghost from_gives = { λ fault cause. cause ≡ in_column fault };

    fn from(fault: FieldFault) -> Self {
        let (col, cause) = match fault {
            FieldFault::Callsign => (Col::Callsign, FieldCause::Bad),
            FieldFault::Category => (Col::Category, FieldCause::Bad),
            FieldFault::Eta(fault) => (Col::Eta, FieldCause::Number(fault)),
            FieldFault::Weight(fault) => (Col::Weight, FieldCause::Number(fault)),
            FieldFault::Windows(cause) => (Col::Windows, FieldCause::Windows(cause)),
            FieldFault::After(cause) => (Col::After, FieldCause::After(cause)),
        };
        LogCause::Field(col, cause)
    }
}
