//! Copies of types, fields and schemas, which equal what they copy.
ghost use Rattle.std.specs.Prelude.{◌≡◌, IfOk};
ghost use Rattle.arrow_core.specs.Errors.{OnlyOutOfMemory};

use crate::types::{DataType, Field, Schema};
use crate::{Box, Items, Result, Text};
use std::alloc::Global;

impl DataType {
    /// A copy of this type, with memory of its own. `OutOfMemory` alone.
    pub fn try_clone(&self, alloc: Global) -> Result<DataType>
        ensures copy { IfOk result (λ copied. copied ≡ self.now) }
        ensures memory { OnlyOutOfMemory result }
    {
        clone_type(self, alloc)
    }
}

impl Field {
    /// A copy of this field, with memory of its own. `OutOfMemory` alone.
    pub fn try_clone(&self, alloc: Global) -> Result<Field>
        ensures copy { IfOk result (λ copied. copied ≡ self.now) }
        ensures memory { OnlyOutOfMemory result }
    {
        clone_field(self, alloc)
    }
}

impl Schema {
    /// A copy of this schema, with memory of its own. `OutOfMemory` alone.
    pub fn try_clone(&self, alloc: Global) -> Result<Schema>
        ensures copy { IfOk result (λ copied. copied ≡ self.now) }
        ensures memory { OnlyOutOfMemory result }
    {
        Ok(Schema {
            fields: clone_fields(&self.fields, alloc)?,
            metadata: self.metadata.try_clone(alloc)?,
        })
    }
}

fn clone_text(text: &Option<Text>, alloc: Global) -> Result<Option<Text>>
    ensures copy { IfOk result (λ copied. copied ≡ text.now) }
    ensures memory { OnlyOutOfMemory result }
{
    match text {
        Some(text) => Ok(Some(text.try_clone(alloc)?)),
        None => Ok(None),
    }
}

fn clone_type_ids(ids: &Option<Items<i32>>, alloc: Global) -> Result<Option<Items<i32>>>
    ensures copy { IfOk result (λ copied. copied ≡ ids.now) }
    ensures memory { OnlyOutOfMemory result }
{
    match ids {
        Some(ids) => Ok(Some(Items::try_from_slice(alloc, ids.as_slice())?)),
        None => Ok(None),
    }
}

#[cycle(cloned)]
fn clone_boxed_field(boxed: &Box<Field>, alloc: Global) -> Result<Box<Field>>
    ensures copy { IfOk result (λ copied. copied ≡ boxed.now) }
    ensures memory { OnlyOutOfMemory result }
{
    let field = clone_field(boxed.get(), alloc)?;
    Box::new(alloc, field)
}

#[cycle(cloned)]
fn clone_boxed_type(boxed: &Box<DataType>, alloc: Global) -> Result<Box<DataType>>
    ensures copy { IfOk result (λ copied. copied ≡ boxed.now) }
    ensures memory { OnlyOutOfMemory result }
{
    let inner = clone_type(boxed.get(), alloc)?;
    Box::new(alloc, inner)
}

#[cycle(cloned)]
fn clone_fields(fields: &Items<Field>, alloc: Global) -> Result<Items<Field>>
    ensures copy { IfOk result (λ copied. copied ≡ fields.now) }
    ensures memory { OnlyOutOfMemory result }
{
    let mut copies = Vec::new(alloc);
    for field in fields.as_slice() {
        let copy = clone_field(field, alloc)?;
        copies.push(copy)?;
    }
    Ok(Items::from_vec(copies))
}

#[cycle(cloned)]
fn clone_field(field: &Field, alloc: Global) -> Result<Field>
    ensures copy { IfOk result (λ copied. copied ≡ field.now) }
    ensures memory { OnlyOutOfMemory result }
{
    Ok(Field {
        name: field.name.try_clone(alloc)?,
        data_type: clone_type(&field.data_type, alloc)?,
        is_nullable: field.is_nullable,
        metadata: field.metadata.try_clone(alloc)?,
    })
}

#[cycle(cloned)]
fn clone_type(data_type: &DataType, alloc: Global) -> Result<DataType>
    ensures copy { IfOk result (λ copied. copied ≡ data_type.now) }
    ensures memory { OnlyOutOfMemory result }
{
    Ok(match data_type {
        DataType::Null => DataType::Null,
        DataType::Boolean => DataType::Boolean,
        DataType::Int8 => DataType::Int8,
        DataType::Int16 => DataType::Int16,
        DataType::Int32 => DataType::Int32,
        DataType::Int64 => DataType::Int64,
        DataType::UInt8 => DataType::UInt8,
        DataType::UInt16 => DataType::UInt16,
        DataType::UInt32 => DataType::UInt32,
        DataType::UInt64 => DataType::UInt64,
        DataType::Float16 => DataType::Float16,
        DataType::Float32 => DataType::Float32,
        DataType::Float64 => DataType::Float64,
        DataType::Timestamp(unit, zone) => DataType::Timestamp(*unit, clone_text(zone, alloc)?),
        DataType::Date32 => DataType::Date32,
        DataType::Date64 => DataType::Date64,
        DataType::Time32(unit) => DataType::Time32(*unit),
        DataType::Time64(unit) => DataType::Time64(*unit),
        DataType::Duration(unit) => DataType::Duration(*unit),
        DataType::Interval(unit) => DataType::Interval(*unit),
        DataType::Binary => DataType::Binary,
        DataType::FixedSizeBinary(size) => DataType::FixedSizeBinary(*size),
        DataType::LargeBinary => DataType::LargeBinary,
        DataType::Utf8 => DataType::Utf8,
        DataType::LargeUtf8 => DataType::LargeUtf8,
        DataType::List(item) => DataType::List(clone_boxed_field(item, alloc)?),
        DataType::FixedSizeList(item, size) => {
            DataType::FixedSizeList(clone_boxed_field(item, alloc)?, *size)
        }
        DataType::LargeList(item) => DataType::LargeList(clone_boxed_field(item, alloc)?),
        DataType::Struct(fields) => DataType::Struct(clone_fields(fields, alloc)?),
        DataType::Map(item, sorted) => DataType::Map(clone_boxed_field(item, alloc)?, *sorted),
        DataType::Union(fields, ids, mode) => DataType::Union(
            clone_fields(fields, alloc)?,
            clone_type_ids(ids, alloc)?,
            *mode,
        ),
        DataType::Dictionary(key, value, sorted) => {
            DataType::Dictionary(*key, clone_boxed_type(value, alloc)?, *sorted)
        }
        DataType::Decimal(precision, scale) => DataType::Decimal(*precision, *scale),
        DataType::Decimal256(precision, scale) => DataType::Decimal256(*precision, *scale),
        DataType::Extension(name, inner, metadata) => DataType::Extension(
            name.try_clone(alloc)?,
            clone_boxed_type(inner, alloc)?,
            clone_text(metadata, alloc)?,
        ),
    })
}
