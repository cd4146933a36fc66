// The files of a case.
use crate::fields::{items_at, needed_number, needed_text, number_of};
use anyhow::{Result, bail};
use std::alloc::Global;
use toml::{Table, Value};

// Adds a text as it is written in a table: behind an `@` the shared text of that name.
fn add_text(texts: &Table, text: &str, content: &mut Vec<u8>) -> Result<()> {
    let added = match text.strip_prefix('@') {
        None => text,
        Some(name) => needed_text(texts, name)?,
    };
    content.extend_from_slice(added.as_bytes())?;
    Ok(())
}

// Adds a text so many times.
fn add_repeated(repeated: &Table, content: &mut Vec<u8>) -> Result<()> {
    let text = needed_text(repeated, "text")?;
    for _ in 0..needed_number(repeated, "times")? {
        content.extend_from_slice(text.as_bytes())?;
    }
    Ok(())
}

// Adds bytes that are given as numbers.
fn add_bytes(numbers: &[Value], content: &mut Vec<u8>) -> Result<()> {
    for number in numbers {
        match u8::try_from(number_of("a byte", number)?) {
            Ok(byte) => content.push(byte)?,
            Err(_) => bail!("a byte is out of range"),
        }
    }
    Ok(())
}

// Adds a part of a file.
fn add_part(texts: &Table, part: &Value, content: &mut Vec<u8>) -> Result<()> {
    match part {
        Value::String(text) => add_text(texts, text.as_str(), content),
        Value::Array(numbers) => add_bytes(numbers.as_slice(), content),
        Value::Table(repeated) => add_repeated(repeated, content),
        _ => bail!("a part is a text, bytes, or a text so many times"),
    }
}

fn content_of(alloc: Global, texts: &Table, parts: &[Value]) -> Result<Vec<u8>> {
    let mut content = Vec::new(alloc);
    for part in parts {
        add_part(texts, part, &mut content)?;
    }
    Ok(content)
}

/// These files of a case, each with its name.
pub(crate) fn files_of(
    alloc: Global,
    texts: &Table,
    named: &Table,
) -> Result<Vec<(String, Vec<u8>)>> {
    let mut files = Vec::new(alloc);
    for name in named.keys() {
        let content = content_of(alloc, texts, items_at(named, name.as_str())?)?;
        files.push((String::from_str(alloc, name.as_str())?, content))?;
    }
    Ok(files)
}
