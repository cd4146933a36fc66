// The values of a file of records.
ghost use Rattle.std.specs.Prelude.{◌≡◌, ◌≤◌, ◌<◌, [], length, ◌∷◌, ◌++◌, map, IfOk, IfErr, MatchBool, OnOk, vec_len};
ghost use Rattle.csv.specs.Records.{fields_of};
ghost use Rattle.cps_base.specs.Answers.{GivesAs};
ghost use Rattle.csv_records.specs.Values.{same_fields, value_in, added, values_in, values_by, values_of, memory_fault};

use crate::cause::FileCause;
use crate::format::Format;
use crate::records::{Records, field};
use csv::ByteRecord;
use std::alloc::Global;

// Whether a record has exactly these fields.
fn has_fields(row: &ByteRecord, fields: &[&[u8]]) -> bool
    ensures { result ≡ same_fields (map (λ t. t.now) fields.now) (fields_of row.now) }
{
    if row.len() != fields.len() {
        return false;
    }
    let mut i = 0;
    let mut rest = fields;
    while let [name, after @ ..] = rest {
        if *name != field(row, i) {
            return false;
        }
        i += 1;
        rest = after;
    }
    true
}

// How many fields the header has.
fn width<F: Format>() -> usize
    ensures value { result ≡ length F.form.header }
    ensures some { 0 < length F.form.header }
{
    F::header().len()
}

// The value that a record is, behind those before it.
fn value_in<F: Format>(
    alloc: Global,
    before: &[F::Value],
    row: &ByteRecord,
) -> Result<F::Value, F::Cause>
    ensures value { result ≡ value_in F.form before.now (fields_of row.now) }
    ensures holds { IfOk result (λ x. F.holds before.now → F.holds (before.now ++ x ∷ [])) }
    ensures room { IfOk result (λ _. length before.now < F.form.most) }
{
    if row.len() != width::<F>() {
        return Err(F::cause(FileCause::FieldCount));
    }
    let value = F::value_in(alloc, before, row)?;
    if before.len() >= F::most() {
        return Err(F::cause(FileCause::TooMany));
    }
    Ok(value)
}

// Memory ran out.
fn no_memory<F: Format>() -> F::Fault
    ensures { result ≡ memory_fault F.form }
{
    F::fault(0, F::cause(FileCause::Memory))
}

// One more value, behind those of the records before.
fn add_value<F: Format>(values: &mut Vec<F::Value>, row: &ByteRecord) -> Result<(), F::Fault>
    requires few { vec_len values.old ≤ F.form.most }
    requires holds { F.holds values.old.items }
    ensures value { GivesAs (memory_fault F.form) (λ _. values.new.items) result
        (added F.form values.old.items (value_in F.form values.old.items (fields_of row.now))) }
    ensures few { OnOk result (vec_len values.new ≤ F.form.most) }
    ensures holds { OnOk result (F.holds values.new.items) }
{
    let most = F::most();
    match value_in::<F>(*values.allocator(), values.as_slice(), row) {
        Ok(value) => match values.push(value) {
            Ok(()) => Ok(()),
            Err(_) => Err(no_memory::<F>()),
        },
        Err(cause) => Err(F::fault(values.len() as u32 + 2, cause)),
    }
}

// The next record, if there is one.
fn read_next<F: Format>(records: &mut Records, row: &mut ByteRecord) -> Result<bool, F::Fault>
    ensures read { IfOk result (λ found. MatchBool found
        (records.old ≡ fields_of row.new ∷ records.new)
        ((records.old ≡ []) × (records.new ≡ []))) }
    ensures failed { IfErr result (λ e. e ≡ memory_fault F.form) }
{
    match records.read_next(row) {
        Ok(found) => Ok(found),
        Err(_) => Err(no_memory::<F>()),
    }
}

// The values of the records that are left.
#[tactic(auto, unfolding(crate::specs::Values::values_in))]
fn values_in<F: Format>(
    alloc: Global,
    records: &mut Records,
    row: &mut ByteRecord,
) -> Result<Vec<F::Value>, F::Fault>
    ensures value { GivesAs (memory_fault F.form) (λ v. v.items) result
        (values_in F.form [] records.old) }
    ensures few { IfOk result (λ v. vec_len v ≤ F.form.most) }
    ensures holds { IfOk result (λ v. F.holds v.items) }
{
    let mut values = Vec::new(alloc);
    while read_next::<F>(records, row)? {
        add_value::<F>(&mut values, row)?;
    }
    Ok(values)
}

// The values of all records of a file.
#[tactic(auto, unfolding(crate::specs::Values::values_by))]
fn values_by<F: Format>(alloc: Global, records: &mut Records) -> Result<Vec<F::Value>, F::Fault>
    ensures value { GivesAs (memory_fault F.form) (λ v. v.items) result (values_by F.form records.old) }
    ensures few { IfOk result (λ v. vec_len v ≤ F.form.most) }
    ensures holds { IfOk result (λ v. F.holds v.items) }
{
    let mut row = ByteRecord::new(alloc);
    if !read_next::<F>(records, &mut row)? || !has_fields(&row, F::header()) {
        return Err(F::fault(1, F::cause(FileCause::Header)));
    }
    values_in::<F>(alloc, records, &mut row)
}

/// The values of a file, or the first fault of its first record that has one. It stops at that record, and holds one
/// record at a time, and of one with more fields than the header nothing.
#[tactic(auto, using(crate::specs::ValuesLaw::values_within))]
pub fn read_values<F: Format>(alloc: Global, bytes: &[u8]) -> Result<Vec<F::Value>, F::Fault>
    ensures value { GivesAs (memory_fault F.form) (λ v. v.items) result (values_of F.form bytes.now) }
    ensures few { IfOk result (λ v. vec_len v ≤ F.form.most) }
    ensures holds { IfOk result (λ v. F.holds v.items) }
{
    let mut records = Records::new(alloc, bytes, width::<F>());
    values_by::<F>(alloc, &mut records)
}
