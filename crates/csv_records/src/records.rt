// The records of a text, in the order in which `csv` reads them.
ghost use Rattle.std.specs.Prelude.{◌≡◌, ◌<◌, ◌∷◌, [], IfOk, OnErr, MatchBool};
ghost use Rattle.csv.specs.Records.{fields_of};
ghost use Rattle.csv_records.specs.Rows.{records_of, within, field};

use crate::width::{record_end, without_mark};
use csv::{ByteRecord, ErrorKind, Reader, ReaderBuilder};
use std::alloc::{AllocError, Global};
use std::marker::Model;

/// The records of a text that are still to be read, in `csv`'s default dialect and without a header
/// row: of any bytes. One record at a time is held, and of one with too many fields nothing: it
/// stands without fields, and is the last. Contracts see the list of those that are left.
#[derive(Drop)]
pub struct Records<'a> {
    reader: Reader<&'a [u8]>,
    // What stands behind the records that were read.
    rest: &'a [u8],
    most: usize,
    is_done: bool,
}

impl<'a> Model for Records<'a> {
    ghost use Rattle.std.specs.Prelude.{◌≡◌, ◌<◌, List, Some, false};
    ghost use Rattle.csv_records.specs.Rows.{Fields, within};
    ghost use Rattle.csv_records.specs.Left.{left_in, IsSet};

    ghost Value = { List Fields };

    ghost view = { λ records. within records.most
        (left_in (λ s. Some s.now) records.is_done records.reader) };

    ghost invariant = { λ records. (0 < records.most)
        × (records.is_done ≡ false → IsSet (λ s. Some s.now) records.reader records.rest.now) };
}

impl<'a> Records<'a> {
    /// All records of a text, up to the first one with more than `most` fields.
    pub fn new(alloc: Global, bytes: &'a [u8], most: usize) -> Records<'a>
        requires { 0 < most }
        ensures { result ≡ within most (records_of bytes.now) }
    {
        let reader = ReaderBuilder::new()
            .has_headers(false)
            .flexible(true)
            .from_reader(alloc, bytes);
        Records {
            reader,
            rest: without_mark(bytes),
            most,
            is_done: false,
        }
    }

    /// Reads the next record into `row`, and tells whether there was one. It fails only for want of
    /// memory, and none is left then.
    pub fn read_next(&mut self, row: &mut ByteRecord) -> Result<bool, AllocError>
        ensures read { IfOk result (λ found. MatchBool found
            (self.old ≡ fields_of row.new ∷ self.new)
            ((self.old ≡ []) × (self.new ≡ []))) }
        ensures failed { OnErr result (self.new ≡ []) }
    {
        if self.is_done {
            return Ok(false);
        }
        let Some(end) = record_end(self.rest, self.most) else {
            row.clear();
            self.is_done = true;
            return Ok(true);
        };
        self.rest = &self.rest[end..];
        match self.reader.read_byte_record(row) {
            Ok(true) => Ok(true),
            Ok(false) => {
                self.is_done = true;
                Ok(false)
            }
            Err(error) => {
                self.is_done = true;
                match error.kind() {
                    ErrorKind::OutOfMemory | ErrorKind::Io(_) => Err(AllocError),
                    // Records of any length and of any bytes are taken.
                    _ => unreachable!(),
                }
            }
        }
    }
}

/// A field of a record; a field that it does not have is empty.
pub fn field(row: &ByteRecord, i: usize) -> &[u8]
    ensures { result.now ≡ field (fields_of row.now) i }
{
    match row.get(i) {
        Some(text) => text,
        None => &[],
    }
}
