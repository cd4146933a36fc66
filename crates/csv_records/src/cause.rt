/// The faults of a file of records that every such file can have.
#[derive(Clone, Copy, Debug, PartialEq, Eq)]
pub enum FileCause {
    /// The first record is not the header, or there is no record.
    Header,
    /// A record has not as many fields as the header.
    FieldCount,
    /// There are more values than there may be.
    TooMany,
    /// Memory ran out.
    Memory,
}
