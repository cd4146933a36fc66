// Where a record ends, before it is read: one with too many fields need not be held.
ghost use Rattle.std.specs.Prelude.{◌≡◌, ◌<◌};
ghost use Rattle.csv.specs.Machine.{step};
ghost use Rattle.csv.specs.Reading.{default_config, is_bom, strip_bom};
ghost use Rattle.csv_records.specs.Extent.{turn_of, state_of, IsEnd};

/// Where a record is being read.
#[derive(Clone, Copy)]
pub(crate) enum Place {
    /// Between two records.
    Between,
    /// Behind the comma before a field.
    FieldStart,
    /// In a field without quotes, or behind one that had them.
    Plain,
    /// In a quoted field.
    Quoted,
    /// Behind a quote of a quoted field, which ends it or is the first of two.
    QuoteSeen,
}

/// What one byte does.
#[derive(Clone, Copy)]
pub(crate) enum Turn {
    /// The field, or the gap between two records, goes on.
    GoesOn(Place),
    /// A field ends, and another one begins.
    EndsField,
    /// A field ends, and its record.
    EndsRecord,
}

// What a byte does where quotes mean nothing.
fn turn_unquoted(byte: u8) -> Turn
    ensures { result ≡ turn_of (step default_config (state_of Place.Plain) byte) }
{
    match byte {
        b',' => Turn::EndsField,
        b'\r' | b'\n' => Turn::EndsRecord,
        _ => Turn::GoesOn(Place::Plain),
    }
}

// What a byte does.
fn next_turn(place: Place, byte: u8) -> Turn
    ensures { result ≡ turn_of (step default_config (state_of place) byte) }
{
    match (place, byte) {
        (Place::Between, b'\r' | b'\n') => Turn::GoesOn(Place::Between),
        (Place::Between | Place::FieldStart | Place::QuoteSeen, b'"') => {
            Turn::GoesOn(Place::Quoted)
        }
        (Place::Quoted, b'"') => Turn::GoesOn(Place::QuoteSeen),
        (Place::Quoted, _) => Turn::GoesOn(Place::Quoted),
        _ => turn_unquoted(byte),
    }
}

/// Where the first record of a text ends, which is at its end if it has none; nothing if the record
/// has more than so many fields. It looks no further than that shows.
pub(crate) fn record_end(text: &[u8], most: usize) -> Option<usize>
    requires { 0 < most }
    ensures { IsEnd most text.now result }
{
    let mut place = Place::Between;
    let mut ended = 0;
    for i in 0..text.len() {
        match next_turn(place, text[i]) {
            Turn::GoesOn(next) => place = next,
            Turn::EndsField => {
                ended += 1;
                if ended >= most {
                    return None;
                }
                place = Place::FieldStart;
            }
            Turn::EndsRecord => return Some(i + 1),
        }
    }
    Some(text.len())
}

// Whether three bytes are a byte-order mark.
fn is_mark(a: u8, b: u8, c: u8) -> bool
    ensures { result ≡ is_bom a b c }
{
    a == 0xEF && b == 0xBB && c == 0xBF
}

/// A text without a byte-order mark at its start.
pub(crate) fn without_mark(bytes: &[u8]) -> &[u8]
    ensures { result.now ≡ strip_bom bytes.now }
{
    if bytes.len() < 3 || !is_mark(bytes[0], bytes[1], bytes[2]) {
        return bytes;
    }
    &bytes[3..]
}
