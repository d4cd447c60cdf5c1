//! The type of a JSON value.
ghost use Rattle.std.specs.Prelude.{◌≡◌, ◌⊎◌, [], Ok, Err, map, IfOk, OnOk, MatchResult};
ghost use Rattle.arrow_core.specs.Errors.{OnlyOutOfMemory};
ghost use Rattle.arrow_core.specs.declared.error.Error.TheVariants as error;
ghost use Rattle.json_infer.specs.Inferred.{number_type, items_type, kept, kept_fields, type_of, all_fields, first_fields, records_fields};
ghost use Rattle.json_infer.specs.KeptTypes.{more_kept};
ghost use Rattle.json_infer.specs.Seen.{seen_after, result_of};

use crate::coercion::coerced;
use crate::parts::{is_null, list_type};
use crate::seen::Seen;
use arrow_core::{DataType, Error, Field, Items, Metadata, Reason, Result, Schema};
use json_tree::{Number, Object, Value};
use std::alloc::Global;

fn number_type(number: &Number) -> DataType
    ensures { result ≡ number_type number.now }
{
    match number {
        Number::Integer(_, _) => DataType::Int64,
        Number::Float(_, _) => DataType::Float64,
    }
}

/// Keeps what is needed of one more type, where it isn't Null.
pub(crate) fn add_kept(alloc: Global, seen: &mut Seen, data_type: &DataType) -> Result<()>
    ensures kept { OnOk result (seen.new ≡ more_kept seen.old data_type.now) }
    ensures memory { OnlyOutOfMemory result }
{
    if is_null(data_type) {
        return Ok(());
    }
    seen.add(alloc, data_type)
}

// The type of an array, by the type of its items.
fn items_type(alloc: Global, data_type: DataType) -> Result<DataType>
    ensures array { IfOk result (λ t. t ≡ items_type data_type) }
    ensures memory { OnlyOutOfMemory result }
{
    if is_null(&data_type) {
        return Ok(DataType::Null);
    }
    list_type(alloc, data_type)
}

// The type of an array, where `seen` is what is kept of types that came before it. The caller owns
// that, so that it is let go in one place.
#[cycle(infer)]
fn infer_items(alloc: Global, seen: &mut Seen, items: &[Value]) -> Result<DataType>
    ensures inferred { IfOk result
        (λ t. t ≡ items_type (result_of (seen_after seen.old (kept (map type_of items.now))))) }
    ensures memory { OnlyOutOfMemory result }
{
    for item in items {
        let data_type = infer(alloc, item)?;
        let added = add_kept(alloc, seen, &data_type);
        drop(data_type);
        added?;
    }
    let item_type = coerced(alloc, seen)?;
    items_type(alloc, item_type)
}

#[cycle(infer)]
fn infer_members(alloc: Global, object: &Object) -> Result<Items<Field>>
    ensures inferred { IfOk result
        (λ fs. fs ≡ kept_fields (map (λ m. (m.0, type_of m.1)) object.now.members)) }
    ensures memory { OnlyOutOfMemory result }
{
    let mut fields = Vec::new(alloc);
    for member in object.members() {
        let data_type = infer(alloc, &member.1)?;
        if !is_null(&data_type) {
            let name = member.0.try_clone(alloc)?;
            fields.push(Field::new(alloc, name, data_type, true))?;
        }
    }
    Ok(Items::from_vec(fields))
}

/// The type of a JSON value.
///
/// `true` and `false` are Boolean, `null` is Null, a string is Utf8, and a number is Int64, or
/// Float64 where its mantissa has a point. An object is a Struct of its members in order whose
/// type isn't Null, each nullable. An array takes the distinct types of its items that aren't Null,
/// in order of first appearance, and coerces them as `coerce_data_type` does; it is a List of that,
/// its item nullable and named `item`, or Null where that is Null. `OutOfMemory` alone.
#[tactic(auto, unfolding(crate::specs::Inferred::type_of))]
#[cycle(infer)]
pub fn infer(alloc: Global, json: &Value) -> Result<DataType>
    ensures inferred { IfOk result (λ t. t ≡ type_of json.now) }
    ensures memory { OnlyOutOfMemory result }
{
    match json {
        Value::Null => Ok(DataType::Null),
        Value::Bool(_) => Ok(DataType::Boolean),
        Value::Number(number) => Ok(number_type(number)),
        Value::String(_) => Ok(DataType::Utf8),
        Value::Array(items) => {
            let mut seen = Seen::Nothing;
            infer_items(alloc, &mut seen, items.as_slice())
        }
        Value::Object(object) => Ok(DataType::Struct(infer_members(alloc, object)?)),
    }
}

// A field for each member of a record.
fn record_fields(alloc: Global, row: &Object) -> Result<Items<Field>>
    ensures fields { IfOk result (λ fs. fs ≡ all_fields row.now.members) }
    ensures memory { OnlyOutOfMemory result }
{
    let mut fields = Vec::new(alloc);
    for member in row.members() {
        let data_type = infer(alloc, &member.1)?;
        let name = member.0.try_clone(alloc)?;
        fields.push(Field::new(alloc, name, data_type, true))?;
    }
    Ok(Items::from_vec(fields))
}

// The fields of the first of several records.
fn first_fields(alloc: Global, records: &[Value]) -> Result<Items<Field>>
    ensures fields { MatchResult result
        (λ fs. first_fields records.now ≡ Ok fs)
        (λ e. (e ≡ error.OutOfMemory) ⊎ (first_fields records.now ≡ Err e)) }
{
    match records.first() {
        None => Ok(Items::from_vec(Vec::new(alloc))),
        Some(Value::Object(row)) => record_fields(alloc, row),
        Some(_) => Err(Error::ExternalFormat(Reason::FirstNotObject)),
    }
}

/// The schema of an array of records: the fields of the first record, in the order of its members,
/// each nullable and of the type that `infer` gives, Null too. An empty array has no fields. There
/// is no metadata.
///
/// `ExternalFormat(OuterNotArray)` exactly where the value is no array. Then
/// `ExternalFormat(FirstNotObject)` exactly where its first item is no object. `OutOfMemory`.
pub fn infer_records_schema(alloc: Global, json: &Value) -> Result<Schema>
    ensures fields { MatchResult result
        (λ schema. records_fields json.now ≡ Ok schema.fields)
        (λ e. (e ≡ error.OutOfMemory) ⊎ (records_fields json.now ≡ Err e)) }
    ensures metadata { IfOk result (λ schema. schema.metadata ≡ []) }
{
    match json {
        Value::Array(records) => Ok(Schema {
            fields: first_fields(alloc, records.as_slice())?,
            metadata: Metadata::new(alloc),
        }),
        _ => Err(Error::ExternalFormat(Reason::OuterNotArray)),
    }
}
