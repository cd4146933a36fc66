use crate::cause::FileCause;
use csv::ByteRecord;
use std::alloc::Global;

/// A kind of file: its first record is a header, and each behind it is one value. A type that stands for such a kind gives
/// the header and what a record is read as; `read_values` does the rest.
pub trait Format {
    /// What a record is read as.
    type Value: Drop;
    /// Why a record is no value.
    type Cause: Drop;
    /// A cause, and the number of its record.
    type Fault: Drop;

    ghost use Rattle.std.specs.Prelude.{◌≡◌, ◌<◌, ◌∷◌, ◌++◌, [], List, length, map, IfOk, Ok};
    ghost use Rattle.csv.specs.Records.{fields_of};
    ghost use Rattle.csv_records.specs.Rows.{Fields};
    ghost use Rattle.csv_records.specs.Values.{Form};

    ghost form: { Form Self.Value Self.Cause Self.Fault };

    // What all values of a file are together.
    ghost holds: { List Self.Value → Type 0 };

    /// The fields of the header.
    fn header() -> &'static [&'static [u8]]
        ensures fields { map (λ t. t.now) result.now ≡ form.header }
        ensures some { 0 < length form.header };

    /// How many values there may be.
    fn most() -> usize
        ensures value { result ≡ form.most }
        ensures small { form.most < 4294967294 };

    /// The value that a record of as many fields as the header is, behind the values before it.
    fn value_in(
        alloc: Global,
        before: &[Self::Value],
        row: &ByteRecord,
    ) -> Result<Self::Value, Self::Cause>
        ensures value { result ≡ form.value before.now (fields_of row.now) }
        ensures holds { IfOk result (λ x. holds before.now → length before.now < form.most
            → holds (before.now ++ x ∷ [])) };

    /// A fault that any such file can have, as one of this kind of file.
    fn cause(cause: FileCause) -> Self::Cause
        ensures { result ≡ form.cause cause };

    /// The fault of a record.
    fn fault(number: u32, cause: Self::Cause) -> Self::Fault
        ensures { result ≡ form.fault number cause };

    ghost holds_none: { holds [] };
}
