// The values at the keys of the file.
ghost use Rattle.std.specs.Prelude.{◌≡◌, ◌≤◌, IfOk, option_map};
ghost use Rattle.toml.specs.Data.{get_member};
ghost use Rattle.toml.specs.View.{view, table_view};
ghost use Rattle.aerodrome_file.specs.Answers.{Shows, ShowsText};
ghost use Rattle.aerodrome_file.specs.Values.{present, integer_of, string_of, callsign_at, within, number_in, named_number};

use crate::fault::{AeroFault, Key, Part};
use crate::keys::only;
use cps_base::Callsign;
use toml::{Table, Value};

// The value at a key.
pub(crate) fn get<'a>(table: &'a Table, key: &str) -> Option<&'a Value>
    ensures { option_map (λ v. view v.now) result ≡ get_member key.now (table_view table.now) }
{
    table.get(key)
}

// The value, where there is one.
pub(crate) fn present<'a>(key: Key, value: Option<&'a Value>) -> Result<&'a Value, AeroFault>
    ensures { Shows result (present key (option_map (λ v. view v.now) value.entry)) }
{
    match value {
        Some(value) => Ok(value),
        None => Err(AeroFault::MissingKey(key)),
    }
}

// The integer that a value is.
pub(crate) fn integer_of(key: Key, value: &Value) -> Result<i64, AeroFault>
    ensures { result ≡ integer_of key (view value.now) }
{
    match value.as_integer() {
        Some(number) => Ok(number),
        None => Err(AeroFault::WrongKind(key)),
    }
}

// The number from `least` to `most` that an integer is.
pub(crate) fn within(key: Key, least: u32, most: u32, number: i64) -> Result<u32, AeroFault>
    ensures value { result ≡ within key least most number }
    ensures range { IfOk result (λ n. (least ≤ n) × (n ≤ most)) }
{
    if number >= i64::from(least) && number <= i64::from(most) {
        Ok(number as u32)
    } else {
        Err(AeroFault::OutOfRange(key))
    }
}

// The text that a value is.
pub(crate) fn string_of<'a>(key: Key, value: &'a Value) -> Result<&'a str, AeroFault>
    ensures { ShowsText result (string_of key (view value.now)) }
{
    match value.as_str() {
        Some(text) => Ok(text),
        None => Err(AeroFault::WrongKind(key)),
    }
}

// The callsign that a text is.
pub(crate) fn callsign_at(key: Key, text: &[u8]) -> Result<Callsign, AeroFault>
    ensures { result ≡ callsign_at key text.now }
{
    match Callsign::read(text) {
        Some(callsign) => Ok(callsign),
        None => Err(AeroFault::OutOfRange(key)),
    }
}

// The integer of a key, from `least` to `most`.
pub(crate) fn number_in(
    key: Key,
    least: u32,
    most: u32,
    value: Option<&Value>,
) -> Result<u32, AeroFault>
    ensures value { result ≡ number_in key least most (option_map (λ v. view v.now) value.entry) }
    ensures range { IfOk result (λ n. (least ≤ n) × (n ≤ most)) }
{
    let number = integer_of(key, present(key, value)?)?;
    within(key, least, most, number)
}

// The callsign and the integer of an entry, each at its key.
#[tactic(auto, unfolding(crate::specs::Values::named_number))]
pub(crate) fn named_number(
    part: Part,
    name_key: Key,
    number_key: Key,
    word: &str,
    table: &Table,
) -> Result<(Callsign, i64), AeroFault>
    ensures { result ≡ named_number part name_key number_key word.now (table_view table.now) }
{
    only(part, table)?;
    let callsign = present(name_key, get(table, "callsign"))?;
    let number = present(number_key, get(table, word))?;
    let text = string_of(name_key, callsign)?;
    let number = integer_of(number_key, number)?;
    let callsign = callsign_at(name_key, text.as_bytes())?;
    Ok((callsign, number))
}
