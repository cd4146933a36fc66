ghost use Rattle.std.specs.Prelude.{◌≡◌, ◌<◌, ◌≤◌, ◌+◌, find, slice_index};
ghost use Rattle.wake_table.specs.declared.category.Category.{Category};
ghost use Rattle.wake_table.specs.Letters.{place};
ghost use Rattle.wake_table.specs.Table.{breaks_triangle, greatest_separation, is_out_of_range, pairs, separation, table_of, triples, IsWakeTable};

use crate::category::{CATEGORIES, CATEGORY_COUNT, Category};
use std::marker::Model;

/// The greatest separation, in seconds.
pub const GREATEST_SEPARATION: u32 = 600;

/// Seconds for each category, in letter order.
pub type Row = [u32; CATEGORY_COUNT];

/// A row for each category, in letter order.
pub type Rows = [Row; CATEGORY_COUNT];

/// The rows of the sample table of separations, in the RECAT-EU form: for each leader the seconds of the followers.
pub const SAMPLE: Rows = [
    [90, 110, 120, 130, 140, 180],
    [60, 90, 100, 110, 120, 160],
    [60, 60, 60, 60, 100, 140],
    [60, 60, 60, 60, 60, 120],
    [60, 60, 60, 60, 60, 100],
    [60, 60, 60, 60, 60, 60],
];

/// The same table as an aerodrome file has it.
pub const SAMPLE_TEXT: &str = "[table]
A = [90, 110, 120, 130, 140, 180]
B = [60, 90, 100, 110, 120, 160]
C = [60, 60, 60, 60, 100, 140]
D = [60, 60, 60, 60, 60, 120]
E = [60, 60, 60, 60, 60, 100]
F = [60, 60, 60, 60, 60, 60]
";

/// Why rows of seconds are no table: the first fault, in letter order.
#[derive(Clone, Copy, Debug, PartialEq, Eq)]
pub enum TableFault {
    /// The separation of this leader and follower is outside 1 to 600 seconds.
    OutOfRange(Category, Category),
    /// The separation of the first and the last is more than that of the first and the middle one and that of the
    /// middle one and the last together.
    Triangle(Category, Category, Category),
}

#[tactic(auto, unfolding(crate::specs::Table::separation))]
fn entry(rows: &Rows, leader: Category, follower: Category) -> u32
    ensures { result ≡ separation rows.now leader follower }
{
    rows[leader.place()][follower.place()]
}

// Whether a leader and a follower have less than 1 second between them, or more than the greatest separation.
fn is_out_of_range(rows: &Rows, pair: (Category, Category)) -> bool
    ensures { result ≡ is_out_of_range rows.now pair }
{
    let seconds = entry(rows, pair.0, pair.1);
    seconds < 1 || seconds > GREATEST_SEPARATION
}

// The first such pair, in letter order.
fn bad_pair(rows: &Rows, letters: &[Category]) -> Option<(Category, Category)>
    ensures { result ≡ find (is_out_of_range rows.now) (pairs letters.now) }
{
    letters
        .iter()
        .flat_map(|leader| letters.iter().map(move |follower| (*leader, *follower)))
        .find(|pair| is_out_of_range(rows, *pair))
}

// Whether it takes longer from the first to the last than by way of the one in the middle.
fn breaks_triangle(rows: &Rows, triple: (Category, Category, Category)) -> bool
    ensures { result ≡ breaks_triangle rows.now triple }
{
    let (first, middle, last) = triple;
    let by_middle = u64::from(entry(rows, first, middle)) + u64::from(entry(rows, middle, last));
    by_middle < u64::from(entry(rows, first, last))
}

// The first such triple, in letter order.
fn bad_triple(rows: &Rows, letters: &[Category]) -> Option<(Category, Category, Category)>
    ensures { result ≡ find (breaks_triangle rows.now) (triples letters.now) }
{
    letters
        .iter()
        .flat_map(|first| letters.iter().map(move |middle| (*first, *middle)))
        .flat_map(|(first, middle)| letters.iter().map(move |last| (first, middle, *last)))
        .find(|triple| breaks_triangle(rows, *triple))
}

/// The separation of each leader and follower: 1 to 600 seconds each, and never more than by way of a third
/// flight between them (the triangle inequality).
///
/// Contracts see it as its rows: for each leader in letter order, the seconds of the followers.
#[derive(Clone, Copy, PartialEq, Eq)]
pub struct PairTable {
    rows: Rows,
}

impl Model for PairTable {
    ghost use Rattle.std.specs.Prelude.{◌≡◌, List, ℕ, Ok};
    ghost use Rattle.wake_table.specs.Table.{table_of};

    ghost Value = { List (List ℕ) };

    ghost view = { λ t. t.rows };

    ghost invariant = { λ t. table_of t.rows ≡ Ok t.rows };

    ghost inverse = { λ rows. record { rows = rows } };
}

impl PairTable {
    /// The table of these rows: `seconds[leader][follower]`, both in letter order.
    ///
    /// `OutOfRange` names the first pair, leader first, that is outside 1 to 600 seconds. Where all are inside,
    /// `Triangle` names the first triple that breaks the triangle inequality.
    #[tactic(auto, unfolding(crate::specs::Table::first_fault))]
    pub fn new(seconds: Rows) -> Result<PairTable, TableFault>
        ensures { result ≡ table_of seconds }
    {
        if let Some((leader, follower)) = bad_pair(&seconds, &CATEGORIES) {
            return Err(TableFault::OutOfRange(leader, follower));
        }
        if let Some((first, middle, last)) = bad_triple(&seconds, &CATEGORIES) {
            return Err(TableFault::Triangle(first, middle, last));
        }
        Ok(PairTable { rows: seconds })
    }

    /// The least number of seconds at which a follower lands after a leader: 1 to 600.
    pub fn sep(&self, leader: Category, follower: Category) -> u32
        ensures value { result ≡ separation self.now leader follower }
        ensures range { (1 ≤ result) × (result ≤ greatest_separation) }
        ensures triangle { (via : Category) →
            result ≤ separation self.now leader via + separation self.now via follower }
        ensures whole { IsWakeTable self.now }
    {
        entry(&self.rows, leader, follower)
    }

    /// The separations of a follower behind each leader, in letter order.
    pub fn separations_behind(&self, follower: Category) -> Row
        ensures { (leader : Category) → slice_index result (place leader)
            ≡ separation self.now leader follower }
    {
        let mut row = [0; CATEGORY_COUNT];
        for i in 0..CATEGORY_COUNT {
            row[i] = entry(&self.rows, CATEGORIES[i], follower);
        }
        row
    }
}
