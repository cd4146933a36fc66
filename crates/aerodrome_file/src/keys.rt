// The keys that each part of the file has.
ghost use Rattle.std.specs.Prelude.{◌≡◌, ◌||◌, bytes_eq};
ghost use Rattle.toml.specs.View.{table_view};
ghost use Rattle.aerodrome_file.specs.Keys.{is_first_key, is_top_key, is_letter, is_known, only, only_in};

use crate::fault::{AeroFault, Part};
use crate::key_text::KeyText;
use toml::Table;
use wake_table::Category;

// The keys of the document in each version.
fn is_first_key(key: &str) -> bool
    ensures { result ≡ is_first_key key.now }
{
    key == "version"
        || key == "k"
        || key == "freeze"
        || key == "objective"
        || key == "table"
        || key == "closures"
}

fn is_top_key(version: u8, key: &str) -> bool
    ensures { result ≡ is_top_key version key.now }
{
    is_first_key(key)
        || (version >= 2 && (key == "clock" || key == "frozen"))
        || (version >= 3 && key == "passed")
}

fn is_letter(key: &str) -> bool
    ensures { result ≡ is_letter key.now }
{
    Category::read(key.as_bytes()).is_some()
}

fn is_either(key: &str, first: &str, second: &str) -> bool
    ensures { result ≡ (bytes_eq key.now first.now || bytes_eq key.now second.now) }
{
    key == first || key == second
}

fn is_known(version: u8, part: Part, key: &str) -> bool
    ensures { result ≡ is_known version part key.now }
{
    match part {
        Part::Top => is_top_key(version, key),
        Part::Table => is_letter(key),
        Part::Closure(_) => is_either(key, "from", "to"),
        Part::Frozen(_) => is_either(key, "callsign", "second"),
        Part::Passed(_) => is_either(key, "callsign", "count"),
    }
}

// The first key, in byte order, that the part does not have in this version.
#[tactic(auto, unfolding(crate::specs::Keys::only_in))]
pub(crate) fn only_in(version: u8, part: Part, table: &Table) -> Result<(), AeroFault>
    ensures { result ≡ only_in version part (table_view table.now) }
{
    let unknown = table
        .iter()
        .find(|(key, _)| !is_known(version, part, key.as_str()));
    match unknown {
        Some((key, _)) => Err(AeroFault::UnknownKey(part, KeyText::of(key.as_bytes()))),
        None => Ok(()),
    }
}

// The same of a part other than the document, whose keys are the same in each version.
pub(crate) fn only(part: Part, table: &Table) -> Result<(), AeroFault>
    ensures { result ≡ only part (table_view table.now) }
{
    only_in(1, part, table)
}
