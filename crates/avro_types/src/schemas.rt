//! The Avro record of columns.
ghost use Rattle.std.specs.Prelude.{◌≡◌, ◌+◌, true, Some, None, IfOk, IfErr, OnOk};
ghost use Rattle.arrow_core.specs.Errors.{OnlyOutOfMemory};
ghost use Rattle.avro_types.specs.Schemas.{NoAvroTypeWhere, column_schema as column_schema_of, columns_fields as columns_fields_of, optional as optional_of, plain_field, record_of, schema_of as schema_of_type, structs_in};
ghost use Rattle.avro_types.specs.Listed.{array_schema as array_schema_of, struct_schema as struct_schema_of, structs_in_all};

use crate::flat::flat_schema;
use crate::names::next_name;
use arrow_core::{Box, DataType, Field, Items, Result, Schema, Text};
use avro_schema::{AvroField, AvroSchema, Record};
use std::alloc::Global;

/// The record whose fields hold the columns of a schema, in order (Avro 1.11, "Schema
/// Declaration"). Its name is empty, and so are those of fixed types; the records of structs are
/// named r1, r2 and so on in preorder. A nullable column is a union of null, which comes first, and
/// its type. No type and no field has a namespace or a doc, and metadata plays no part. See
/// `name_types` for names.
///
/// The types that `can_serialize` takes have a schema, and so have Null, Float32, Float64,
/// FixedSizeBinary of no bytes, Struct without fields, and lists and structs of all these; no other
/// type has. `NotYetImplemented(NoAvroType)` exactly where a type at any depth has no Avro schema.
/// `OutOfMemory`.
pub fn to_record(alloc: Global, schema: &Schema) -> Result<Record>
    ensures record_is { IfOk result (λ r. record_of true schema.now.fields ≡ Some r) }
    ensures err { IfErr result (NoAvroTypeWhere (record_of true schema.now.fields ≡ None)) }
{
    to_record_with(alloc, schema, true)
}

/// The same, where `null_first` says whether null comes first in unions, or second.
pub fn to_record_with(alloc: Global, schema: &Schema, null_first: bool) -> Result<Record>
    ensures record_is { IfOk result (λ r. record_of null_first schema.now.fields ≡ Some r) }
    ensures err { IfErr result
        (NoAvroTypeWhere (record_of null_first schema.now.fields ≡ None)) }
{
    let mut structs = 0;
    let fields = columns_fields(alloc, schema.fields.as_slice(), null_first, &mut structs)?;
    Ok(Record {
        name: Text::try_from_str(alloc, "")?,
        namespace: None,
        doc: None,
        fields,
    })
}

/// The fields that hold columns, in order. `structs` counts the structs that have names.
#[cycle(schemas)]
fn columns_fields(
    alloc: Global,
    columns: &[Field],
    null_first: bool,
    structs: &mut u64,
) -> Result<Items<AvroField>>
    ensures fields { IfOk result
        (λ fs. columns_fields_of null_first structs.old columns.now ≡ Some fs) }
    ensures structs { OnOk result (structs.new ≡ structs.old + structs_in_all columns.now) }
    ensures err { IfErr result
        (NoAvroTypeWhere (columns_fields_of null_first structs.old columns.now ≡ None)) }
{
    let mut fields = Vec::new(alloc);
    for column in columns {
        let schema = column_schema(alloc, column, null_first, structs)?;
        fields.push(named_field(alloc, &column.name, schema)?)?;
    }
    Ok(Items::from_vec(fields))
}

fn named_field(alloc: Global, name: &Text, schema: AvroSchema) -> Result<AvroField>
    ensures field { IfOk result (λ f. f ≡ plain_field name.now schema) }
    ensures memory { OnlyOutOfMemory result }
{
    match name.try_clone(alloc) {
        Ok(name) => Ok(AvroField {
            name,
            doc: None,
            schema,
        }),
        Err(error) => Err(error),
    }
}

/// The schema of a column.
#[cycle(schemas)]
fn column_schema(
    alloc: Global,
    column: &Field,
    null_first: bool,
    structs: &mut u64,
) -> Result<AvroSchema>
    ensures schema { IfOk result
        (λ s. column_schema_of null_first structs.old column.now ≡ Some s) }
    ensures structs { OnOk result (structs.new ≡ structs.old + structs_in column.now.data_type) }
    ensures err { IfErr result
        (NoAvroTypeWhere (column_schema_of null_first structs.old column.now ≡ None)) }
{
    let schema = type_schema(alloc, &column.data_type, null_first, structs)?;
    if column.is_nullable {
        optional(alloc, schema, null_first)
    } else {
        Ok(schema)
    }
}

/// The union of null and another schema.
fn optional(alloc: Global, schema: AvroSchema, null_first: bool) -> Result<AvroSchema>
    ensures schema { IfOk result (λ s. s ≡ optional_of null_first true schema) }
    ensures memory { OnlyOutOfMemory result }
{
    let mut members = Vec::new(alloc);
    if null_first {
        members.push(AvroSchema::Null)?;
        members.push(schema)?;
    } else {
        members.push(schema)?;
        members.push(AvroSchema::Null)?;
    }
    Ok(AvroSchema::Union(Items::from_vec(members)))
}

/// The schema of a type's values, nulls aside.
#[cycle(schemas)]
fn type_schema(
    alloc: Global,
    data_type: &DataType,
    null_first: bool,
    structs: &mut u64,
) -> Result<AvroSchema>
    ensures schema { IfOk result
        (λ s. schema_of_type null_first structs.old data_type.now ≡ Some s) }
    ensures structs { OnOk result (structs.new ≡ structs.old + structs_in data_type.now) }
    ensures err { IfErr result
        (NoAvroTypeWhere (schema_of_type null_first structs.old data_type.now ≡ None)) }
{
    match data_type {
        DataType::List(item) => array_schema(alloc, item.get(), null_first, structs),
        DataType::LargeList(item) => array_schema(alloc, item.get(), null_first, structs),
        DataType::Struct(fields) => struct_schema(alloc, fields.as_slice(), null_first, structs),
        _ => flat_schema(alloc, data_type),
    }
}

/// The schema of lists of this field.
#[cycle(schemas)]
fn array_schema(
    alloc: Global,
    item: &Field,
    null_first: bool,
    structs: &mut u64,
) -> Result<AvroSchema>
    ensures schema { IfOk result
        (λ s. array_schema_of null_first structs.old item.now ≡ Some s) }
    ensures structs { OnOk result (structs.new ≡ structs.old + structs_in item.now.data_type) }
    ensures err { IfErr result
        (NoAvroTypeWhere (array_schema_of null_first structs.old item.now ≡ None)) }
{
    let item = column_schema(alloc, item, null_first, structs)?;
    Ok(AvroSchema::Array(Box::new(alloc, item)?))
}

/// The schema of structs of these fields.
#[cycle(schemas)]
fn struct_schema(
    alloc: Global,
    fields: &[Field],
    null_first: bool,
    structs: &mut u64,
) -> Result<AvroSchema>
    ensures schema { IfOk result
        (λ s. struct_schema_of null_first structs.old fields.now ≡ Some s) }
    ensures structs { OnOk result (structs.new ≡ structs.old + (1 + structs_in_all fields.now)) }
    ensures err { IfErr result
        (NoAvroTypeWhere (struct_schema_of null_first structs.old fields.now ≡ None)) }
{
    let name = next_name(alloc, "r", structs)?;
    let fields = columns_fields(alloc, fields, null_first, structs)?;
    Ok(AvroSchema::Record(Record {
        name,
        namespace: None,
        doc: None,
        fields,
    }))
}
