// What stands at the keys of a table.
use anyhow::{Result, bail};
use std::alloc::Global;
use toml::{Table, Value};

/// The text at a key, where it has one.
pub(crate) fn text_at<'a>(table: &'a Table, key: &str) -> Result<Option<&'a str>> {
    match table.get(key) {
        None => Ok(None),
        Some(Value::String(text)) => Ok(Some(text.as_str())),
        Some(_) => bail!("{key} is no text"),
    }
}

/// The text at a key that must have one.
pub(crate) fn needed_text<'a>(table: &'a Table, key: &str) -> Result<&'a str> {
    match text_at(table, key)? {
        Some(text) => Ok(text),
        None => bail!("{key} is missing"),
    }
}

/// A value that must be a number.
pub(crate) fn number_of(key: &str, value: &Value) -> Result<u32> {
    let Some(number) = value.as_integer() else {
        bail!("{key} is no number");
    };
    match u32::try_from(number) {
        Ok(number) => Ok(number),
        Err(_) => bail!("{key} is out of range"),
    }
}

/// The number at a key, where it has one.
pub(crate) fn number_at(table: &Table, key: &str) -> Result<Option<u32>> {
    match table.get(key) {
        None => Ok(None),
        Some(value) => Ok(Some(number_of(key, value)?)),
    }
}

/// The number at a key that must have one.
pub(crate) fn needed_number(table: &Table, key: &str) -> Result<u32> {
    match number_at(table, key)? {
        Some(number) => Ok(number),
        None => bail!("{key} is missing"),
    }
}

/// The items of the array at a key, and none where it has none.
pub(crate) fn items_at<'a>(table: &'a Table, key: &str) -> Result<&'a [Value]> {
    match table.get(key) {
        None => Ok(&[]),
        Some(Value::Array(items)) => Ok(items.as_slice()),
        Some(_) => bail!("{key} is no array"),
    }
}

/// The numbers of the array at a key.
pub(crate) fn numbers_at(alloc: Global, table: &Table, key: &str) -> Result<Vec<u32>> {
    let mut numbers = Vec::new(alloc);
    for item in items_at(table, key)? {
        numbers.push(number_of(key, item)?)?;
    }
    Ok(numbers)
}

fn pair_of(key: &str, value: &Value) -> Result<(u32, u32)> {
    match value {
        Value::Array(items) if items.len() == 2 => {
            Ok((number_of(key, &items[0])?, number_of(key, &items[1])?))
        }
        _ => bail!("{key} has an item that is no pair of numbers"),
    }
}

/// The pairs of numbers of the array at a key.
pub(crate) fn pairs_at(alloc: Global, table: &Table, key: &str) -> Result<Vec<(u32, u32)>> {
    let mut pairs = Vec::new(alloc);
    for item in items_at(table, key)? {
        pairs.push(pair_of(key, item)?)?;
    }
    Ok(pairs)
}
