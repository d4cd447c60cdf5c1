//! Arrays of JSON objects as chunks of columns.
ghost use Rattle.std.specs.Prelude.{◌≡◌, true, false, List, IfOk, IfErr, OnOk};
ghost use Rattle.arrow_core.specs.Errors.{OnlyOutOfMemory};
ghost use Rattle.arrow_core.specs.declared.error.Error.TheVariants.{Overflow};
ghost use Rattle.arrow_core.specs.declared.types.Field.{Field};
ghost use Rattle.json_tree.specs.declared.value.Value.{out-Value};
ghost use Rattle.json_columns.specs.Faults.{AreMemberColumns, IsStructFault, TooManyFields};
ghost use Rattle.json_columns.specs.Gathered.{all_have_reading};
ghost use Rattle.json_columns.specs.Names.{AreNames, struct_names_twice as struct_names_twice_of};
ghost use Rattle.json_columns.specs.Records.{are_known, are_of_record as are_of_record_of, are_there, first_fault as first_fault_of, holds_more as holds_more_of, is_of_record as is_of_record_of, IsFieldsRefusal, IsRecordsRefusal, IsRowsRefusal, IsTableOf, row_fault as row_fault_of};

use crate::column::read_fields;
use crate::gather::lend_all;
use crate::names::{names_of, struct_names_twice};
use crate::texts::any_row_has_text;
use crate::types::has_json_reading;
use arrow_array::Chunk;
use arrow_core::{DataType, Error, Field, Reason, Result, Schema, Text};
use first_seen::FirstSeen;
use json_tree::{Object, Value};
use std::alloc::Global;

/// Whether the type is, or a list in it holds, a LargeList, a Struct or a Dictionary.
#[cycle(holds)]
fn holds_more(data_type: &DataType) -> bool
    ensures { result ≡ holds_more_of data_type.now }
{
    match data_type {
        DataType::LargeList(_) => true,
        DataType::Struct(_) => true,
        DataType::Dictionary(_, _, _) => true,
        DataType::List(item) => holds_more(&item.get().data_type),
        DataType::FixedSizeList(item, _) => holds_more(&item.get().data_type),
        _ => false,
    }
}

/// Whether members of records are read under the type.
fn is_of_record(data_type: &DataType) -> bool
    ensures { result ≡ is_of_record_of data_type.now }
{
    has_json_reading(data_type) && !holds_more(data_type)
}

/// Whether members of records are read under the type of each field.
fn are_of_record(fields: &[Field]) -> bool
    ensures { result ≡ are_of_record_of fields.now }
{
    for field in fields {
        if !is_of_record(&field.data_type) {
            return false;
        }
    }
    true
}

/// Tells that members of records are read under these fields.
fn check_fields(alloc: Global, fields: &[Field]) -> Result<()>
    ensures distinct { OnOk result (struct_names_twice_of fields.now ≡ false) }
    ensures readable { OnOk result (are_of_record_of fields.now ≡ true) }
    ensures err { IfErr result (IsFieldsRefusal fields.now) }
{
    if struct_names_twice(alloc, fields)? {
        return Err(Error::InvalidArgumentError(Reason::DuplicateName));
    }
    if !are_of_record(fields) {
        return Err(Error::NotYetImplemented(Reason::NoJsonReading));
    }
    Ok(())
}

/// Whether each key of the object is one of `names`, those of the fields. A key's name mostly stands
/// at the key's own index.
fn has_known_keys(names: &FirstSeen<Text>, object: &Object) -> bool
    ensures { (fields : List Field) → AreNames fields names.now
        → result ≡ are_known fields object.now.members }
{
    for (near, member) in object.members().iter().enumerate() {
        if names.index_near(near, &member.0).is_none() {
            return false;
        }
    }
    true
}

/// Whether the name of each field is a key of the object.
fn has_all_keys(fields: &[Field], object: &Object) -> bool
    ensures { result ≡ are_there fields.now object.now.members }
{
    for (near, field) in fields.iter().enumerate() {
        if object.get_near(near, field.name.as_str()).is_none() {
            return false;
        }
    }
    true
}

/// What is wrong with a row, if anything. `names` are those of the fields.
fn row_fault(fields: &[Field], names: &FirstSeen<Text>, row: &Value) -> Option<Reason>
    requires names { AreNames fields.now names.now }
    ensures { result ≡ row_fault_of fields.now (out-Value row.now) }
{
    let Value::Object(object) = row else {
        return Some(Reason::NotAnObject);
    };
    if !has_known_keys(names, object) {
        return Some(Reason::UnknownKey);
    }
    if !has_all_keys(fields, object) {
        return Some(Reason::MissingKey);
    }
    None
}

/// What is wrong with the first row with which anything is. `names` are those of the fields.
fn find_fault(fields: &[Field], names: &FirstSeen<Text>, rows: &[Value]) -> Option<Reason>
    requires names { AreNames fields.now names.now }
    ensures { result ≡ first_fault_of fields.now rows.now }
{
    for row in rows {
        if let Some(fault) = row_fault(fields, names, row) {
            return Some(fault);
        }
    }
    None
}

/// The same by the fields alone.
fn first_fault(alloc: Global, fields: &[Field], rows: &[Value]) -> Result<Option<Reason>>
    ensures ok { IfOk result (λ fault. fault ≡ first_fault_of fields.now rows.now) }
    ensures memory { OnlyOutOfMemory result }
{
    let names = names_of(alloc, fields)?;
    Ok(find_fault(fields, &names, rows))
}

/// The columns of the members of rows.
fn read_columns(alloc: Global, fields: &[Field], rows: &[Value]) -> Result<Chunk>
    requires readable { all_have_reading fields.now ≡ true }
    ensures columns { IfOk result (AreMemberColumns fields.now rows.now) }
    ensures counted { OnOk result (TooManyFields fields.now rows.now → ⊥) }
    ensures err { IfErr result (IsStructFault fields.now rows.now) }
{
    let null = Value::Null;
    let mut lent_rows = Vec::new(alloc);
    lend_all(&mut lent_rows, rows)?;
    let columns = read_fields(alloc, fields, lent_rows.as_slice(), &null)?;
    Chunk::try_new(columns)
}

/// What is answered in place of `Overflow` where there may be a string under a timestamp.
fn overflow(fields: &[Field], rows: &[Value]) -> Error
    requires rows { first_fault_of fields.now rows.now ≡ None }
    requires fault { IsStructFault fields.now rows.now Overflow }
    ensures { IsRowsRefusal fields.now rows.now result }
{
    if any_row_has_text(fields, rows) {
        Error::NotYetImplemented(Reason::TextTimestamp)
    } else {
        Error::Overflow
    }
}

/// The fault of columns that comes first by the order of `deserialize_records`.
fn first_refusal(fields: &[Field], rows: &[Value], error: Error) -> Error
    requires rows { first_fault_of fields.now rows.now ≡ None }
    requires fault { IsStructFault fields.now rows.now error }
    ensures { IsRowsRefusal fields.now rows.now result }
{
    match error {
        Error::Overflow => overflow(fields, rows),
        other => other,
    }
}

/// The columns of the members of rows, each an object of exactly the fields' names.
fn read_rows(alloc: Global, fields: &[Field], rows: &[Value]) -> Result<Chunk>
    requires readable { are_of_record_of fields.now ≡ true }
    ensures rows { IfOk result (λ _. first_fault_of fields.now rows.now ≡ None) }
    ensures columns { IfOk result (AreMemberColumns fields.now rows.now) }
    ensures counted { OnOk result (TooManyFields fields.now rows.now → ⊥) }
    ensures err { IfErr result (IsRowsRefusal fields.now rows.now) }
{
    if let Some(fault) = first_fault(alloc, fields, rows)? {
        return Err(Error::ExternalFormat(fault));
    }
    match read_columns(alloc, fields, rows) {
        Ok(chunk) => Ok(chunk),
        Err(error) => Err(first_refusal(fields, rows, error)),
    }
}

/// The chunk of a JSON array of objects: a column for each field of the schema, of its type, with
/// a slot for each object, which is what the member of the field's name means.
///
/// The first of these that applies: `InvalidArgumentError(DuplicateName)` where the schema, or a
/// Struct in it at any depth, names a field twice; `NotYetImplemented(NoJsonReading)` where the type
/// of a field has no reading, or is or holds a LargeList, a Struct or a Dictionary;
/// `ExternalFormat(OuterNotArray)` where the value is no array; then of the first faulty row
/// `ExternalFormat(NotAnObject)`, `ExternalFormat(UnknownKey)` where it has a key that no field
/// names, or `ExternalFormat(MissingKey)` where it lacks a field's key;
/// `NotYetImplemented(TextTimestamp)` where a string stands under a timestamp; and `Overflow` as in
/// `deserialize`. `OutOfMemory` may come in place of any answer.
pub fn deserialize_records(alloc: Global, json: &Value, schema: &Schema) -> Result<Chunk>
    ensures table { IfOk result (IsTableOf json.now schema.now.fields) }
    ensures err { IfErr result (IsRecordsRefusal json.now schema.now.fields) }
{
    let fields = schema.fields.as_slice();
    check_fields(alloc, fields)?;
    match json {
        Value::Array(rows) => read_rows(alloc, fields, rows.as_slice()),
        _ => Err(Error::ExternalFormat(Reason::OuterNotArray)),
    }
}
