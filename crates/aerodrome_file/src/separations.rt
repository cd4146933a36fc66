// The table of separations in the file.
ghost use Rattle.std.specs.Prelude.{◌≡◌, length, option_map};
ghost use Rattle.toml.specs.View.{view, items_view, table_view};
ghost use Rattle.wake_table.specs.Letters.{category_count};
ghost use Rattle.aerodrome_file.specs.Separations.{second_of, seconds_of, row_of, rows_of, rows_in, table_in};

use crate::fault::{AeroFault, Key, Part};
use crate::keys::only;
use crate::values::{get, integer_of};
use toml::{Table, Value};
use wake_table::{CATEGORIES, CATEGORY_COUNT, Category, GREATEST_SEPARATION, PairTable, Row, Rows};

// An entry of the table, where 601 stands for all above 600, and 0 for all below 1.
fn second_of(number: i64) -> u32
    ensures { result ≡ second_of number }
{
    let above = GREATEST_SEPARATION + 1;
    if number < 0 {
        0
    } else if number > i64::from(above) {
        above
    } else {
        number as u32
    }
}

// The entries of a leader's row.
#[tactic(auto, unfolding(crate::specs::Separations::seconds_of))]
fn seconds_of(leader: Category, values: &[Value]) -> Result<Row, AeroFault>
    requires { length values.now ≡ category_count }
    ensures { result ≡ seconds_of leader (items_view values.now) }
{
    let mut row = [0; CATEGORY_COUNT];
    for i in 0..CATEGORY_COUNT {
        row[i] = second_of(integer_of(Key::Row(leader), &values[i])?);
    }
    Ok(row)
}

// The row of a leader.
#[tactic(auto, using(crate::proofs::Items::items_length_view))]
fn row_of(leader: Category, value: Option<&Value>) -> Result<Row, AeroFault>
    ensures { result ≡ row_of leader (option_map (λ v. view v.now) value.entry) }
{
    let Some(value) = value else {
        return Err(AeroFault::MissingKey(Key::Row(leader)));
    };
    match value.as_array() {
        Some(values) if values.len() == CATEGORY_COUNT => seconds_of(leader, values.as_slice()),
        _ => Err(AeroFault::WrongKind(Key::Row(leader))),
    }
}

// The rows of these leaders, one after the other.
#[tactic(auto, unfolding(crate::specs::Separations::rows_of))]
fn rows_of(leaders: &[Category; CATEGORY_COUNT], table: &Table) -> Result<Rows, AeroFault>
    ensures { result ≡ rows_of leaders.now (table_view table.now) }
{
    let mut rows = [[0; CATEGORY_COUNT]; CATEGORY_COUNT];
    for i in 0..CATEGORY_COUNT {
        rows[i] = row_of(leaders[i], get(table, leaders[i].letter_text()))?;
    }
    Ok(rows)
}

// The table of these rows.
#[tactic(auto, unfolding(crate::specs::Separations::rows_in))]
fn rows_in(table: &Table) -> Result<PairTable, AeroFault>
    ensures { result ≡ rows_in (table_view table.now) }
{
    only(Part::Table, table)?;
    match PairTable::new(rows_of(&CATEGORIES, table)?) {
        Ok(table) => Ok(table),
        Err(fault) => Err(AeroFault::Table(fault)),
    }
}

// The table of separations.
#[tactic(auto, unfolding(crate::specs::Separations::table_in))]
pub(crate) fn table_in(value: Option<&Value>) -> Result<PairTable, AeroFault>
    ensures { result ≡ table_in (option_map (λ v. view v.now) value.entry) }
{
    let Some(value) = value else {
        return Err(AeroFault::MissingKey(Key::Table));
    };
    match value.as_table() {
        None => Err(AeroFault::WrongKind(Key::Table)),
        Some(rows) => rows_in(rows),
    }
}
