ghost use Rattle.std.specs.Prelude.{◌<◌};
ghost use Rattle.wake_table.specs.Letters.{category_count};

use super::assert_send_sync;
use wake_table::{Category, PairTable, SAMPLE, TableFault};

// The fault of the sample table with two entries changed, each given by leader, follower and seconds.
fn fault_with(first: (usize, usize, u32), second: (usize, usize, u32)) -> Option<TableFault>
    requires first { (first.0 < category_count) × (first.1 < category_count) }
    requires second { (second.0 < category_count) × (second.1 < category_count) }
{
    let mut rows = SAMPLE;
    rows[first.0][first.1] = first.2;
    rows[second.0][second.1] = second.2;
    PairTable::new(rows).err()
}

#[test]
fn the_first_fault_in_letter_order_is_named(rt: HostRuntime) {
    use Category::{A, B, C, D, E, F};
    use TableFault::{OutOfRange, Triangle};
    let same = (0, 0, 90);
    let cases = [
        (same, same, None),
        ((0, 2, 70), (2, 5, 60), Some(Triangle(A, C, F))),
        ((4, 4, 130), same, Some(Triangle(E, D, E))),
        ((5, 0, 600), same, Some(Triangle(F, B, A))),
        ((5, 0, 601), (4, 4, 130), Some(OutOfRange(F, A))),
        ((5, 0, 601), (1, 3, 0), Some(OutOfRange(B, D))),
    ];
    for (first, second, fault) in cases {
        assert_eq!(rt; fault_with(first, second), fault);
    }
}

// The sample table's separation of this pair.
fn sample_sep(leader: Category, follower: Category) -> Result<u32, TableFault> {
    let table = PairTable::new(SAMPLE)?;
    assert_send_sync(&table);
    Ok(table.sep(leader, follower))
}

// The letter of the category that a text names.
fn letter_of(text: &[u8]) -> Option<u8> {
    Some(Category::read(text)?.letter())
}

#[test]
fn the_sample_table_gives_its_entries(rt: HostRuntime) {
    assert_eq!(rt; sample_sep(Category::A, Category::F), Ok(180));
    assert_eq!(rt; (letter_of(b"C"), letter_of(b"c")), (Some(b'C'), None));
}
