//! The fields that columns are read under before dictionaries are made of them.
ghost use Rattle.std.specs.Prelude.{IfOk};
ghost use Rattle.arrow_core.specs.Errors.{OnlyOutOfMemory};
ghost use Rattle.ndjson.specs.LineColumns.{AreStoredFor, IsStoredFor, IsStoredType};

use arrow_core::{Box, DataType, Field, Items, Result};
use std::alloc::Global;

// The type that a column is first read under: of a dictionary that of its values.
#[cycle(stored)]
fn stored_type(alloc: Global, data_type: &DataType) -> Result<DataType>
    ensures stored { IfOk result (λ stored. IsStoredType data_type.now stored) }
    ensures memory { OnlyOutOfMemory result }
{
    match data_type {
        DataType::List(item) => {
            let item = stored_field(alloc, item.get())?;
            Ok(DataType::List(Box::new(alloc, item)?))
        }
        DataType::LargeList(item) => {
            let item = stored_field(alloc, item.get())?;
            Ok(DataType::LargeList(Box::new(alloc, item)?))
        }
        DataType::FixedSizeList(item, size) => {
            let item = stored_field(alloc, item.get())?;
            Ok(DataType::FixedSizeList(Box::new(alloc, item)?, *size))
        }
        DataType::Struct(fields) => {
            let fields = stored_fields(alloc, fields.as_slice())?;
            Ok(DataType::Struct(Items::from_vec(fields)))
        }
        DataType::Dictionary(_, value, _) => value.get().try_clone(alloc),
        _ => data_type.try_clone(alloc),
    }
}

#[cycle(stored)]
fn stored_field(alloc: Global, field: &Field) -> Result<Field>
    ensures stored { IfOk result (λ stored. IsStoredFor field.now stored) }
    ensures memory { OnlyOutOfMemory result }
{
    Ok(Field {
        name: field.name.try_clone(alloc)?,
        data_type: stored_type(alloc, &field.data_type)?,
        is_nullable: field.is_nullable,
        metadata: field.metadata.try_clone(alloc)?,
    })
}

/// The fields that columns are first read under, by those of the columns.
#[cycle(stored)]
pub(crate) fn stored_fields(alloc: Global, fields: &[Field]) -> Result<Vec<Field>>
    ensures stored { IfOk result (λ stored. AreStoredFor fields.now stored.items) }
    ensures memory { OnlyOutOfMemory result }
{
    let mut stored = Vec::with_capacity(alloc, fields.len())?;
    for field in fields {
        let field = stored_field(alloc, field)?;
        stored.push(field)?;
    }
    Ok(stored)
}
