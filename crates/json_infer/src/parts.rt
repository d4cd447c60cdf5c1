//! What data types are made of.
ghost use Rattle.std.specs.Prelude.{◌≡◌, [], ◌∷◌, option_map, IfOk};
ghost use Rattle.arrow_core.specs.Errors.{OnlyOutOfMemory};
ghost use Rattle.arrow_core.specs.declared.types.DataType as types;
ghost use Rattle.json_infer.specs.Coercion.{all_structs};
ghost use Rattle.json_infer.specs.Parts.{item_of, list_of, members_of, same};

use arrow_core::{Box, DataType, Field, Result, Text};
use std::alloc::Global;

/// Whether two types are equal.
#[tactic(auto, unfolding(crate::specs::Parts::same))]
pub(crate) fn are_same(one: &DataType, other: &DataType) -> bool
    ensures { result ≡ same one.now other.now }
{
    *one == *other
}

pub(crate) fn is_null(data_type: &DataType) -> bool
    ensures { result ≡ same data_type.now types.Null }
{
    are_same(data_type, &DataType::Null)
}

pub(crate) fn is_struct(data_type: &DataType) -> bool
    ensures { result ≡ all_structs (data_type.now ∷ []) }
{
    matches!(data_type, DataType::Struct(_))
}

/// The fields of a Struct, and none of another type.
pub(crate) fn fields(data_type: &DataType) -> &[Field]
    ensures { result.now ≡ members_of data_type.now }
{
    match data_type {
        DataType::Struct(fields) => fields.as_slice(),
        _ => &[],
    }
}

/// The type of a List's items.
pub(crate) fn item(data_type: &DataType) -> Option<&DataType>
    ensures { option_map (λ t. t.now) result
        ≡ option_map (λ field. field.data_type) (item_of data_type.now) }
{
    match data_type {
        DataType::List(field) => Some(&field.get().data_type),
        _ => None,
    }
}

/// The List of nullable items of a type.
pub(crate) fn list_type(alloc: Global, data_type: DataType) -> Result<DataType>
    ensures list { IfOk result (λ list. list ≡ list_of data_type) }
    ensures memory { OnlyOutOfMemory result }
{
    let name = Text::try_from_str(alloc, "item")?;
    let field = Box::new(alloc, Field::new(alloc, name, data_type, true))?;
    Ok(DataType::List(field))
}
