//! Fields in large forms: strings, binary values and lists with offsets of 64 bits.

ghost use Rattle.std.specs.Prelude.{◌≡◌, map, IfOk};
ghost use Rattle.arrow_core.specs.Errors.{OnlyOutOfMemory};
ghost use Rattle.avro_types.specs.Enlarged.{large_form, enlarged};

use arrow_core::{Box, DataType, Field, Items, Result, Text};
use std::alloc::Global;

/// The same field with each `Utf8`, `Binary` and `List` in it, at any depth, made `LargeUtf8`,
/// `LargeBinary` and `LargeList`, whose offsets have 64 bits. The values of a dictionary stay as
/// they are, and so do names, nullability and metadata.
///
/// Columns of the field that is given hold blocks of 2147483647 bytes at most, those of the large
/// one blocks of any size. `OutOfMemory` alone.
pub fn enlarge(alloc: Global, field: &Field) -> Result<Field>
    ensures large { IfOk result (λ large. large ≡ enlarged field.now) }
    ensures memory { OnlyOutOfMemory result }
{
    enlarge_field(alloc, field)
}

#[cycle(enlarge)]
fn enlarge_field(alloc: Global, field: &Field) -> Result<Field>
    ensures large { IfOk result (λ large. large ≡ enlarged field.now) }
    ensures memory { OnlyOutOfMemory result }
{
    Ok(Field {
        name: field.name.try_clone(alloc)?,
        data_type: enlarge_type(alloc, &field.data_type)?,
        is_nullable: field.is_nullable,
        metadata: field.metadata.try_clone(alloc)?,
    })
}

#[cycle(enlarge)]
fn enlarge_type(alloc: Global, data_type: &DataType) -> Result<DataType>
    ensures large { IfOk result (λ large. large ≡ large_form data_type.now) }
    ensures memory { OnlyOutOfMemory result }
{
    match data_type {
        DataType::Binary => Ok(DataType::LargeBinary),
        DataType::Utf8 => Ok(DataType::LargeUtf8),
        DataType::List(item) => Ok(DataType::LargeList(enlarge_item(alloc, item)?)),
        DataType::LargeList(item) => Ok(DataType::LargeList(enlarge_item(alloc, item)?)),
        DataType::FixedSizeList(item, size) => {
            Ok(DataType::FixedSizeList(enlarge_item(alloc, item)?, *size))
        }
        DataType::Struct(fields) => Ok(DataType::Struct(enlarge_fields(alloc, fields)?)),
        DataType::Map(entries, sorted) => {
            Ok(DataType::Map(enlarge_item(alloc, entries)?, *sorted))
        }
        DataType::Union(fields, ids, mode) => Ok(DataType::Union(
            enlarge_fields(alloc, fields)?,
            copy_ids(alloc, ids)?,
            *mode,
        )),
        DataType::Extension(name, inner, metadata) => Ok(DataType::Extension(
            name.try_clone(alloc)?,
            enlarge_inner(alloc, inner)?,
            copy_text(alloc, metadata)?,
        )),
        _ => data_type.try_clone(alloc),
    }
}

#[cycle(enlarge)]
fn enlarge_item(alloc: Global, item: &Box<Field>) -> Result<Box<Field>>
    ensures large { IfOk result (λ large. large ≡ enlarged item.now) }
    ensures memory { OnlyOutOfMemory result }
{
    let field = enlarge_field(alloc, item.get())?;
    Box::new(alloc, field)
}

#[cycle(enlarge)]
fn enlarge_inner(alloc: Global, inner: &Box<DataType>) -> Result<Box<DataType>>
    ensures large { IfOk result (λ large. large ≡ large_form inner.now) }
    ensures memory { OnlyOutOfMemory result }
{
    let data_type = enlarge_type(alloc, inner.get())?;
    Box::new(alloc, data_type)
}

#[cycle(enlarge)]
fn enlarge_fields(alloc: Global, fields: &Items<Field>) -> Result<Items<Field>>
    ensures large { IfOk result (λ large. large ≡ map enlarged fields.now) }
    ensures memory { OnlyOutOfMemory result }
{
    let mut large = Vec::new(alloc);
    for field in fields.as_slice() {
        let field = enlarge_field(alloc, field)?;
        large.push(field)?;
    }
    Ok(Items::from_vec(large))
}

fn copy_ids(alloc: Global, ids: &Option<Items<i32>>) -> Result<Option<Items<i32>>>
    ensures copy { IfOk result (λ copy. copy ≡ ids.now) }
    ensures memory { OnlyOutOfMemory result }
{
    match ids {
        Some(ids) => Ok(Some(Items::try_from_slice(alloc, ids.as_slice())?)),
        None => Ok(None),
    }
}

fn copy_text(alloc: Global, text: &Option<Text>) -> Result<Option<Text>>
    ensures copy { IfOk result (λ copy. copy ≡ text.now) }
    ensures memory { OnlyOutOfMemory result }
{
    match text {
        Some(text) => Ok(Some(text.try_clone(alloc)?)),
        None => Ok(None),
    }
}
