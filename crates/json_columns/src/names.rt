//! Structs that name a field twice, and names among which keys are looked up.
ghost use Rattle.std.specs.Prelude.{◌≡◌, IfOk};
ghost use Rattle.arrow_core.specs.Errors.{OnlyOutOfMemory};
ghost use Rattle.json_flat.specs.Names.{names_of as field_names, names_twice as names_twice_of, repeat};
ghost use Rattle.json_columns.specs.Names.{any_names_twice as any_names_twice_of, AreNames, struct_names_twice as struct_names_twice_of};

use arrow_core::{DataType, Field, Result, Text};
use first_seen::FirstSeen;
use json_flat::have_distinct_names;
use std::alloc::Global;

/// Whether two of the fields have the same name.
fn repeats(alloc: Global, fields: &[Field]) -> Result<bool>
    ensures ok { IfOk result (λ b. b ≡ repeat (field_names fields.now)) }
    ensures memory { OnlyOutOfMemory result }
{
    Ok(!have_distinct_names(alloc, fields)?)
}

/// Whether a Struct, the type itself or one at any depth beneath it, names a field twice. Each of n
/// names takes 1024 + log n comparisons at most, whatever names somebody picks. `OutOfMemory` alone.
#[cycle(names)]
pub fn names_twice(alloc: Global, data_type: &DataType) -> Result<bool>
    ensures ok { IfOk result (λ b. b ≡ names_twice_of data_type.now) }
    ensures memory { OnlyOutOfMemory result }
{
    match data_type {
        DataType::List(item) => names_twice(alloc, &item.get().data_type),
        DataType::LargeList(item) => names_twice(alloc, &item.get().data_type),
        DataType::FixedSizeList(item, _) => names_twice(alloc, &item.get().data_type),
        DataType::Map(entries, _) => names_twice(alloc, &entries.get().data_type),
        DataType::Struct(fields) => struct_names_twice(alloc, fields.as_slice()),
        DataType::Union(fields, _, _) => any_names_twice(alloc, fields.as_slice()),
        DataType::Dictionary(_, value, _) => names_twice(alloc, value.get()),
        DataType::Extension(_, inner, _) => names_twice(alloc, inner.get()),
        _ => Ok(false),
    }
}

/// Whether a Struct of these fields does.
#[cycle(names)]
pub(crate) fn struct_names_twice(alloc: Global, fields: &[Field]) -> Result<bool>
    ensures ok { IfOk result (λ b. b ≡ struct_names_twice_of fields.now) }
    ensures memory { OnlyOutOfMemory result }
{
    if repeats(alloc, fields)? {
        return Ok(true);
    }
    any_names_twice(alloc, fields)
}

/// Whether the type of one of the fields does.
#[cycle(names)]
fn any_names_twice(alloc: Global, fields: &[Field]) -> Result<bool>
    ensures ok { IfOk result (λ b. b ≡ any_names_twice_of fields.now) }
    ensures memory { OnlyOutOfMemory result }
{
    for field in fields {
        if names_twice(alloc, &field.data_type)? {
            return Ok(true);
        }
    }
    Ok(false)
}

/// The names of the fields, each once.
pub(crate) fn names_of(alloc: Global, fields: &[Field]) -> Result<FirstSeen<Text>>
    ensures names { IfOk result (AreNames fields.now) }
    ensures memory { OnlyOutOfMemory result }
{
    let mut names = FirstSeen::<Text>::new(alloc);
    for field in fields {
        if names.index_of(&field.name).is_none() {
            let name = field.name.try_clone(alloc)?;
            let copy = field.name.try_clone(alloc)?;
            names.push(name, copy)?;
        }
    }
    Ok(names)
}
