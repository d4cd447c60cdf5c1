//! Names of fields, at every depth of a type.
ghost use Rattle.std.specs.Prelude.{◌≡◌, true, IfOk};
ghost use Rattle.arrow_array.specs.FixedLists.{list_size};
ghost use Rattle.arrow_builders.specs.Children.{fields_of};
ghost use Rattle.arrow_builders.specs.Shapes.{fixed_lists, lists, records};
ghost use Rattle.arrow_core.specs.Errors.{OnlyOutOfMemory};
ghost use Rattle.arrow_core.specs.declared.physical.PhysicalType.{PhysicalType};
ghost use Rattle.arrow_core.specs.declared.types.DataType.{DataType};
ghost use Rattle.arrow_core.specs.declared.types.DataType.TheVariants.{Struct};
ghost use Rattle.json_line.specs.Builders.{line_shape, shapes_of, AllSuit, Suits};
ghost use Rattle.json_flat.specs.Names.{names_of as names_of_fields};
ghost use Rattle.json_line.specs.Lines.{are_line_fields as are_line_fields_of, have_line_readings as have_line_readings_of};
ghost use Rattle.json_line.specs.Types.{has_line_reading as has_line_reading_of};

use arrow_core::{DataType, Field, Result};
use json_lend::Name;
use std::alloc::Global;

/// The names of a type's fields, at every depth. They are kept beside a builder, since members are
/// looked up by names that lie in a row.
#[derive(Drop)]
pub(crate) enum FieldNames {
    /// Of a type with no types in it.
    Flat,
    /// Of lists: those of the items' type.
    Items(Box<FieldNames>),
    /// Of fixed-size lists: how many items each has, and the names of the items' type.
    Sized(usize, Box<FieldNames>),
    /// Of structs: the names of the fields, and those of each field's type.
    Fields(Vec<Name>, Vec<FieldNames>),
}

/// The fields' names.
pub(crate) fn names_of(alloc: Global, fields: &[Field]) -> Result<Vec<Name>>
    ensures names { IfOk result (λ names. names.items ≡ names_of_fields fields.now) }
    ensures memory { OnlyOutOfMemory result }
{
    let mut names = Vec::with_capacity(alloc, fields.len())?;
    for field in fields {
        let text = field.name.try_clone(alloc)?;
        let name = Name::new(alloc, text)?;
        names.push(name)?;
    }
    Ok(names)
}

/// The names of the fields of a type that lines are read into.
#[cycle(names)]
fn field_names(alloc: Global, data_type: &DataType) -> Result<FieldNames>
    requires { has_line_reading_of data_type.now ≡ true }
    ensures suits { IfOk result (λ names. Suits names (line_shape data_type.now)) }
    ensures memory { OnlyOutOfMemory result }
{
    match data_type {
        DataType::List(item) => item_names(alloc, item.get()),
        DataType::LargeList(item) => item_names(alloc, item.get()),
        DataType::FixedSizeList(item, size) => sized_names(alloc, item.get(), *size),
        DataType::Struct(fields) => struct_names(alloc, fields.as_slice()),
        _ => Ok(FieldNames::Flat),
    }
}

/// The names beneath lists of this field.
#[cycle(names)]
fn item_names(alloc: Global, item: &Field) -> Result<FieldNames>
    requires { has_line_reading_of item.now.data_type ≡ true }
    ensures suits { IfOk result (λ names. (kind : PhysicalType) (data_type : DataType)
        → Suits names (lists kind data_type (line_shape item.now.data_type))) }
    ensures memory { OnlyOutOfMemory result }
{
    let names = field_names(alloc, &item.data_type)?;
    let names = Box::new(alloc, names)?;
    Ok(FieldNames::Items(names))
}

/// The names beneath lists of `size` items of this field.
#[cycle(names)]
fn sized_names(alloc: Global, item: &Field, size: usize) -> Result<FieldNames>
    requires { has_line_reading_of item.now.data_type ≡ true }
    ensures suits { IfOk result (λ names. (data_type : DataType) → size ≡ list_size data_type
        → Suits names (fixed_lists data_type (line_shape item.now.data_type))) }
    ensures memory { OnlyOutOfMemory result }
{
    let names = field_names(alloc, &item.data_type)?;
    let names = Box::new(alloc, names)?;
    Ok(FieldNames::Sized(size, names))
}

/// The names of these fields, and those beneath each.
#[cycle(names)]
fn struct_names(alloc: Global, fields: &[Field]) -> Result<FieldNames>
    requires { are_line_fields_of fields.now ≡ true }
    ensures suits { IfOk result (λ names. Suits names
        (records (Struct fields.now) (fields_of (shapes_of fields.now)))) }
    ensures memory { OnlyOutOfMemory result }
{
    let own = names_of(alloc, fields)?;
    let below = names_below(alloc, fields)?;
    Ok(FieldNames::Fields(own, below))
}

/// The names beneath each of these fields.
#[cycle(names)]
pub(crate) fn names_below(alloc: Global, fields: &[Field]) -> Result<Vec<FieldNames>>
    requires { have_line_readings_of fields.now ≡ true }
    ensures suits { IfOk result
        (λ below. AllSuit below.items (fields_of (shapes_of fields.now))) }
    ensures memory { OnlyOutOfMemory result }
{
    let mut below = Vec::with_capacity(alloc, fields.len())?;
    for field in fields {
        let names = field_names(alloc, &field.data_type)?;
        below.push(names)?;
    }
    Ok(below)
}
