//! Schemas that JSON values declare. Each reader is told how deep schemas may nest, and looks at all of
//! its parts: a wrong form after a type by reference is still a wrong form.
ghost use Rattle.std.specs.Prelude.{◌≡◌, map, IfOk, IfErr};
ghost use Rattle.avro_schema.specs.declared.schema.Schema.{Union};
ghost use Rattle.avro_file.specs.Gives.{Gives};
ghost use Rattle.avro_file.specs.Outcome.{each, then_for};
ghost use Rattle.avro_file.specs.Reading.{reading, named, field as field_of, record_of, enum_of, inner_at, fixed_of, typed_as, of_object, strings};

use crate::attributes::{copy_at, copy_of, count_at, items_at, object_of, string_at, string_of};
use crate::fault::SchemaTextFault;
use crate::logical::{bytes_logical, fixed_logical, int_logical, long_logical, string_logical};
use arrow_core::{Box, Items, Text};
use avro_schema::{AvroField, AvroSchema, Enum, Fixed, Record};
use json_tree::{Object, Value};
use std::alloc::Global;

/// The schema that a value declares, where schemas nest at most so deep.
#[cycle(read)]
pub(crate) fn read_value(
    alloc: Global,
    value: &Value,
    depth: usize,
) -> Result<AvroSchema, SchemaTextFault>
    ensures { Gives result (reading depth value.now) }
{
    if depth == 0 {
        return Err(SchemaTextFault::Form);
    }
    match value {
        Value::String(name) => read_name(name.as_str()),
        Value::Array(members) => read_union(alloc, members.as_slice(), depth - 1),
        Value::Object(object) => read_object(alloc, object, depth - 1),
        _ => Err(SchemaTextFault::Form),
    }
}

/// The type of a name.
fn read_name(name: &str) -> Result<AvroSchema, SchemaTextFault>
    ensures { Gives result (named name.now) }
{
    match name {
        "null" => Ok(AvroSchema::Null),
        "boolean" => Ok(AvroSchema::Boolean),
        "int" => Ok(AvroSchema::Int(None)),
        "long" => Ok(AvroSchema::Long(None)),
        "float" => Ok(AvroSchema::Float),
        "double" => Ok(AvroSchema::Double),
        "bytes" => Ok(AvroSchema::Bytes(None)),
        "string" => Ok(AvroSchema::String(None)),
        _ => Err(SchemaTextFault::Reference),
    }
}

/// The union of these members.
#[cycle(read)]
fn read_union(alloc: Global, members: &[Value], depth: usize) -> Result<AvroSchema, SchemaTextFault>
    ensures { Gives result (then_for Union (each (map (reading depth) members.now))) }
{
    let mut schemas = Vec::new(alloc);
    let mut refers = false;
    for member in members {
        match read_value(alloc, member, depth) {
            Ok(schema) => schemas.push(schema)?,
            Err(SchemaTextFault::Reference) => refers = true,
            Err(fault) => return Err(fault),
        }
    }
    if refers {
        return Err(SchemaTextFault::Reference);
    }
    Ok(AvroSchema::Union(Items::from_vec(schemas)))
}

/// The schema that an object declares.
#[cycle(read)]
fn read_object(alloc: Global, object: &Object, depth: usize) -> Result<AvroSchema, SchemaTextFault>
    ensures { Gives result (of_object (reading depth) object.now) }
{
    let Some(type_value) = object.get("type") else {
        return Err(SchemaTextFault::Form);
    };
    match type_value {
        Value::String(name) => read_typed(alloc, name.as_str(), object, depth),
        Value::Array(_) | Value::Object(_) => read_value(alloc, type_value, depth),
        _ => Err(SchemaTextFault::Form),
    }
}

/// The schema of an object whose type has this name.
#[cycle(read)]
fn read_typed(
    alloc: Global,
    name: &str,
    object: &Object,
    depth: usize,
) -> Result<AvroSchema, SchemaTextFault>
    ensures { Gives result (typed_as (reading depth) object.now name.now) }
{
    match name {
        "record" => read_record(alloc, object, depth),
        "enum" => read_enum(alloc, object),
        "array" => Ok(AvroSchema::Array(read_inner(alloc, object, "items", depth)?)),
        "map" => Ok(AvroSchema::Map(read_inner(alloc, object, "values", depth)?)),
        "fixed" => read_fixed(alloc, object),
        "int" => Ok(AvroSchema::Int(int_logical(object))),
        "long" => Ok(AvroSchema::Long(long_logical(object))),
        "bytes" => Ok(AvroSchema::Bytes(bytes_logical(object))),
        "string" => Ok(AvroSchema::String(string_logical(object))),
        _ => read_name(name),
    }
}

/// The schema that one attribute is.
#[cycle(read)]
fn read_inner(
    alloc: Global,
    object: &Object,
    name: &str,
    depth: usize,
) -> Result<Box<AvroSchema>, SchemaTextFault>
    ensures { Gives result (inner_at (reading depth) name.now object.now) }
{
    let Some(value) = object.get(name) else {
        return Err(SchemaTextFault::Form);
    };
    let schema = read_value(alloc, value, depth)?;
    match Box::new(alloc, schema) {
        Ok(boxed) => Ok(boxed),
        Err(_) => Err(SchemaTextFault::Memory),
    }
}

#[cycle(read)]
fn read_record(alloc: Global, object: &Object, depth: usize) -> Result<AvroSchema, SchemaTextFault>
    ensures { Gives result (record_of (reading depth) object.now) }
{
    let Some(name) = string_at(object, "name") else {
        return Err(SchemaTextFault::Form);
    };
    let Some(items) = items_at(object, "fields") else {
        return Err(SchemaTextFault::Form);
    };
    let fields = read_fields(alloc, items, depth)?;
    Ok(AvroSchema::Record(Record {
        name: copy_of(alloc, name)?,
        namespace: copy_at(alloc, object, "namespace")?,
        doc: copy_at(alloc, object, "doc")?,
        fields,
    }))
}

#[cycle(read)]
fn read_fields(
    alloc: Global,
    items: &[Value],
    depth: usize,
) -> Result<Items<AvroField>, SchemaTextFault>
    ensures { Gives result (each (map (field_of (reading depth)) items.now)) }
{
    let mut fields = Vec::new(alloc);
    let mut refers = false;
    for item in items {
        match read_field(alloc, item, depth) {
            Ok(field) => fields.push(field)?,
            Err(SchemaTextFault::Reference) => refers = true,
            Err(fault) => return Err(fault),
        }
    }
    if refers {
        return Err(SchemaTextFault::Reference);
    }
    Ok(Items::from_vec(fields))
}

#[cycle(read)]
fn read_field(alloc: Global, item: &Value, depth: usize) -> Result<AvroField, SchemaTextFault>
    ensures { Gives result (field_of (reading depth) item.now) }
{
    let Some(object) = object_of(item) else {
        return Err(SchemaTextFault::Form);
    };
    let Some(name) = string_at(object, "name") else {
        return Err(SchemaTextFault::Form);
    };
    let Some(value) = object.get("type") else {
        return Err(SchemaTextFault::Form);
    };
    let schema = read_value(alloc, value, depth)?;
    Ok(AvroField {
        name: copy_of(alloc, name)?,
        doc: copy_at(alloc, object, "doc")?,
        schema,
    })
}

fn read_enum(alloc: Global, object: &Object) -> Result<AvroSchema, SchemaTextFault>
    ensures { Gives result (enum_of object.now) }
{
    let Some(name) = string_at(object, "name") else {
        return Err(SchemaTextFault::Form);
    };
    let Some(items) = items_at(object, "symbols") else {
        return Err(SchemaTextFault::Form);
    };
    let symbols = read_symbols(alloc, items)?;
    Ok(AvroSchema::Enum(Enum {
        name: copy_of(alloc, name)?,
        namespace: copy_at(alloc, object, "namespace")?,
        doc: copy_at(alloc, object, "doc")?,
        symbols,
    }))
}

fn read_symbols(alloc: Global, items: &[Value]) -> Result<Items<Text>, SchemaTextFault>
    ensures { Gives result (strings items.now) }
{
    let mut symbols = Vec::new(alloc);
    for item in items {
        let Some(symbol) = string_of(item) else {
            return Err(SchemaTextFault::Form);
        };
        symbols.push(copy_of(alloc, symbol)?)?;
    }
    Ok(Items::from_vec(symbols))
}

fn read_fixed(alloc: Global, object: &Object) -> Result<AvroSchema, SchemaTextFault>
    ensures { Gives result (fixed_of object.now) }
{
    let Some(name) = string_at(object, "name") else {
        return Err(SchemaTextFault::Form);
    };
    let Some(size) = count_at(object, "size") else {
        return Err(SchemaTextFault::Form);
    };
    Ok(AvroSchema::Fixed(Fixed {
        name: copy_of(alloc, name)?,
        namespace: copy_at(alloc, object, "namespace")?,
        doc: copy_at(alloc, object, "doc")?,
        size,
        logical: fixed_logical(size, object),
    }))
}
