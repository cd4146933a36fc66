use event_log::FieldCause;
use thiserror::Error;

/// Why a record is not a trial. The first cause in this order is the one that is told.
#[derive(Clone, Copy, Debug, PartialEq, Eq, Error)]
pub enum TrialCause {
    /// The first record is not the header, or there is no record.
    #[error("not the header of a trial file")]
    Header,
    /// The record has not two fields.
    #[error("not two fields")]
    FieldCount,
    /// The first field is neither `k` nor `close`.
    #[error("not a kind of trial")]
    Kind,
    /// The second field is not what the kind wants.
    #[error("not what the kind of trial wants")]
    Value(FieldCause),
    /// `MOST_TRIALS` trials came before.
    #[error("too many trials")]
    TooMany,
    /// Memory ran out.
    #[error("out of memory")]
    Memory,
}

/// Why a file is not a trial file: its first record that has a cause, and the first cause of that.
#[derive(Clone, Copy, Debug, PartialEq, Eq, Error)]
#[error("record {number}: {cause}")]
pub struct TrialFault {
    /// The record's number, the header being 1; with `Memory` it is 0.
    pub number: u32,
    /// The cause.
    pub cause: TrialCause,
}
