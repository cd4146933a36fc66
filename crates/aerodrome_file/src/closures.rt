// The closures in the file.
ghost use Rattle.std.specs.Prelude.{◌≡◌, ◌≤◌, ◌+◌, IfOk, length, option_map};
ghost use Rattle.toml.specs.View.{view, items_view, table_view};
ghost use Rattle.cps_base.specs.Limits.{most_closures};
ghost use Rattle.landing_rules.specs.Rules.{last_second};
ghost use Rattle.aerodrome_file.specs.Tables.{tables_of};
ghost use Rattle.aerodrome_file.specs.Closures.{closure_in, closures_from, closures_in};

use crate::fault::{AeroFault, Key, Part};
use crate::keys::only;
use crate::tables::tables_in;
use crate::values::{get, integer_of, present, within};
use cps_base::MOST_CLOSURES;
use landing_windows::{ClosureFault, Closures, LAST_SECOND};
use toml::{Table, Value};

// The two seconds of a closure.
#[tactic(auto, unfolding(crate::specs::Closures::closure_in))]
fn closure_in(number: u8, table: &Table) -> Result<(u32, u32), AeroFault>
    ensures value { result ≡ closure_in number (table_view table.now) }
    ensures range { IfOk result (λ c. (c.0 ≤ last_second) × (c.1 ≤ last_second + 1)) }
{
    only(Part::Closure(number), table)?;
    let from = present(Key::From(number), get(table, "from"))?;
    let to = present(Key::To(number), get(table, "to"))?;
    let first = integer_of(Key::From(number), from)?;
    let last = integer_of(Key::To(number), to)?;
    let first = within(Key::From(number), 0, LAST_SECOND, first)?;
    let last = within(Key::To(number), 0, LAST_SECOND + 1, last)?;
    Ok((first, last))
}

// The closures that tables are.
#[tactic(auto, using(crate::proofs::Items::first_table), unfolding(crate::specs::Closures::closures_from))]
fn closures_from(values: &[Value]) -> Result<Closures, AeroFault>
    requires { length values.now ≤ most_closures }
    ensures { result ≡ closures_from 1 (tables_of (items_view values.now)) }
{
    let mut closures = Closures::new();
    let mut number: u8 = 1;
    let mut rest = values;
    while let [first, after @ ..] = rest {
        if let Some(table) = first.as_table() {
            let (from, to) = closure_in(number, table)?;
            if let Err(fault) = closures.add(from, to) {
                return Err(AeroFault::Closure(number, fault));
            }
            number += 1;
        }
        rest = after;
    }
    Ok(closures)
}

// The closures of the file.
#[tactic(auto, unfolding(crate::specs::Closures::closures_in))]
pub(crate) fn closures_in(value: Option<&Value>) -> Result<Closures, AeroFault>
    ensures { result ≡ closures_in (option_map (λ v. view v.now) value.entry) }
{
    let too_many = AeroFault::Closure(MOST_CLOSURES as u8 + 1, ClosureFault::TooMany);
    closures_from(tables_in(Key::Closures, MOST_CLOSURES, too_many, value)?)
}
