//! Which data types are those of dictionaries, or have one beneath them.
ghost use Rattle.std.specs.Prelude.{◌≡◌};
ghost use Rattle.arrow_array.specs.HoldsDictionary.{any_holds_dictionary as any_holds_dictionary_of, holds_dictionary as holds_dictionary_of};

use arrow_core::{DataType, Field};

/// Whether this is the type of a dictionary, or one beneath it is, through lists and structs; false
/// of a Map, a Union and an Extension, which no array is of. It takes no memory.
#[cycle(holding)]
pub fn holds_dictionary(data_type: &DataType) -> bool
    ensures { result ≡ holds_dictionary_of data_type.now }
{
    match data_type {
        DataType::List(item) => holds_dictionary(&item.get().data_type),
        DataType::LargeList(item) => holds_dictionary(&item.get().data_type),
        DataType::FixedSizeList(item, _) => holds_dictionary(&item.get().data_type),
        DataType::Struct(fields) => any_holds_dictionary(fields.as_slice()),
        DataType::Dictionary(_, _, _) => true,
        _ => false,
    }
}

/// Whether the type of one of the fields is, or has one beneath it.
#[cycle(holding)]
fn any_holds_dictionary(fields: &[Field]) -> bool
    ensures { result ≡ any_holds_dictionary_of fields.now }
{
    for field in fields {
        if holds_dictionary(&field.data_type) {
            return true;
        }
    }
    false
}
