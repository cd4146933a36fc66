// The arrays of tables in the file.
ghost use Rattle.std.specs.Prelude.{◌≡◌, ◌≤◌, length, option_map, IfOk};
ghost use Rattle.toml.specs.View.{view, items_view};
ghost use Rattle.cps_base.specs.Answers.{ok_map};
ghost use Rattle.aerodrome_file.specs.Tables.{are_tables, tables_of, tables_in};

use crate::fault::{AeroFault, Key};
use toml::Value;

// Whether all values of an array are tables.
fn are_tables(values: &[Value]) -> bool
    ensures { result ≡ are_tables (items_view values.now) }
{
    values.iter().all(Value::is_table)
}

// The values at a key, all tables and at most so many; none where the key is absent.
#[tactic(auto, using(crate::proofs::Items::items_length_view, crate::proofs::Items::all_tables))]
pub(crate) fn tables_in<'a>(
    key: Key,
    most: usize,
    too_many: AeroFault,
    value: Option<&'a Value>,
) -> Result<&'a [Value], AeroFault>
    ensures value { ok_map (λ vs. tables_of (items_view vs.now)) result
        ≡ tables_in key most too_many (option_map (λ v. view v.now) value.entry) }
    ensures tables { IfOk result (λ vs. length (tables_of (items_view vs.now)) ≡ length vs.now) }
    ensures few { IfOk result (λ vs. length vs.now ≤ most) }
{
    let Some(value) = value else {
        return Ok(&[]);
    };
    let Some(values) = value.as_array() else {
        return Err(AeroFault::WrongKind(key));
    };
    let values = values.as_slice();
    if !are_tables(values) {
        return Err(AeroFault::WrongKind(key));
    }
    if values.len() > most {
        return Err(too_many);
    }
    Ok(values)
}
