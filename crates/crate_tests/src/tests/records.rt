use csv::ByteRecord;
use csv_records::{Records, field};
use std::alloc::AllocError;
use std::test::Fail;

// The next row: how many fields it has, the first and the third. There is none behind the last.
type Row<'r> = Option<(usize, &'r [u8], &'r [u8])>;

fn next_row<'r>(records: &mut Records<'_>, row: &'r mut ByteRecord) -> Result<Row<'r>, AllocError> {
    if !records.read_next(row)? {
        return Ok(None);
    }
    Ok(Some((row.len(), field(row, 0), field(row, 2))))
}

// Rows after RFC 4180: quoted commas and line breaks, doubled quotes, and either end of a line.
const QUOTED: &[u8] = b"a,b,c\r\n\n\"x,y\",\"line\none\",\"say \"\"hi\"\"\"\nlast";

const ROWS: [Row<'static>; 5] = [
    Some((3, b"a", b"c")),
    Some((3, b"x,y", b"say \"hi\"")),
    Some((1, b"last", b"")),
    None,
    None,
];

#[test]
fn records_are_read_whatever_their_length(rt: HostRuntime) -> Result<(), Fail> {
    let mut records = Records::new(rt.alloc(), QUOTED, 3);
    let mut row = ByteRecord::new(rt.alloc());
    for want in ROWS {
        assert_eq!(rt; next_row(&mut records, &mut row)?, want);
    }
    Ok(())
}

// The widest record that is held, and then one with a field more, behind a byte-order mark.
const WIDE: &[u8] = b"\xEF\xBB\xBF\"a,\"\"b\",\"c\"\n\n\"\",\"\",\"\"\nlast,one\n";

const WIDE_ROWS: [Row<'static>; 3] = [Some((2, b"a,\"b", b"")), Some((0, b"", b"")), None];

#[test]
fn a_record_with_too_many_fields_stands_without_them(rt: HostRuntime) -> Result<(), Fail> {
    let mut records = Records::new(rt.alloc(), WIDE, 2);
    let mut row = ByteRecord::new(rt.alloc());
    for want in WIDE_ROWS {
        assert_eq!(rt; next_row(&mut records, &mut row)?, want);
    }
    Ok(())
}
