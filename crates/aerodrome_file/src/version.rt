// The version of the file.
ghost use Rattle.std.specs.Prelude.{◌≡◌, IfOk, option_map};
ghost use Rattle.toml.specs.View.{view, table_view};
ghost use Rattle.arrivals.specs.Aerodromes.{IsVersion};
ghost use Rattle.aerodrome_file.specs.Version.{version_of, version_in, HasKeysOf};

use crate::fault::{AeroFault, Key, Part};
use crate::keys::only_in;
use crate::values::{get, number_in};
use toml::{Table, Value};

// The version whose keys a file has.
fn version_of(value: Option<&Value>) -> u8
    ensures { result ≡ version_of (option_map (λ v. view v.now) value.entry) }
{
    let Some(value) = value else {
        return 1;
    };
    match value.as_integer() {
        Some(2) => 2,
        Some(3) => 3,
        _ => 1,
    }
}

// The version of the file, whose keys are those of its version.
#[tactic(auto, unfolding(crate::specs::Version::version_in))]
pub(crate) fn version_in(table: &Table) -> Result<u8, AeroFault>
    ensures value { result ≡ version_in (table_view table.now) }
    ensures range { IfOk result IsVersion }
    ensures keys { IfOk result (λ v. HasKeysOf v (table_view table.now)) }
{
    only_in(version_of(get(table, "version")), Part::Top, table)?;
    let version = number_in(Key::Version, 1, 3, get(table, "version"))?;
    Ok(version as u8)
}
