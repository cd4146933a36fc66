ghost use Rattle.std.specs.Prelude.{◌≡◌, ◌<◌, ◌≤◌, ◌+◌, IfOk};
ghost use Rattle.csv.specs.Records.{fields_of};
ghost use Rattle.landing_rules.specs.Rules.{last_second};
ghost use Rattle.event_log.specs.Columns.{place, empty_in, span_at};

use crate::fault::{Col, FieldCause, LogCause};
use crate::span::read_span;
use csv::ByteRecord;
use csv_records::field;

impl Col {
    ghost use Rattle.std.specs.Prelude.{◌≡◌, ◌<◌};
    ghost use Rattle.event_log.specs.Columns.{place};

    /// The place of the column in a record.
    pub(crate) fn place(self) -> usize
        ensures { result ≡ place self }
    {
        match self {
            Col::Callsign => 1,
            Col::Category => 2,
            Col::Eta => 3,
            Col::Weight => 4,
            Col::Windows => 5,
            Col::After => 6,
        }
    }
}

// Columns that must be empty, from left to right.
#[tactic(auto, unfolding(crate::specs::Columns::empty_in))]
pub(crate) fn empty_in(row: &ByteRecord, cols: &[Col]) -> Result<(), LogCause>
    ensures { result ≡ empty_in cols.now (fields_of row.now) }
{
    let mut rest = cols;
    while let [col, after @ ..] = rest {
        if !field(row, col.place()).is_empty() {
            return Err(LogCause::Field(*col, FieldCause::NotEmpty));
        }
        rest = after;
    }
    Ok(())
}

// The span of a closure.
pub(crate) fn span_in(row: &ByteRecord) -> Result<(u32, u32), LogCause>
    ensures value { result ≡ span_at (fields_of row.now) }
    ensures forward { IfOk result (λ span. (span.0 < span.1) × (span.1 ≤ last_second + 1)) }
{
    match read_span(field(row, Col::Windows.place())) {
        Ok(span) => Ok(span),
        Err(cause) => Err(LogCause::Field(Col::Windows, cause)),
    }
}
