//! Types in which the type Null stands.
ghost use Rattle.std.specs.Prelude.{◌≡◌};
ghost use Rattle.ndjson_avro.specs.Nulls.{any_holds_null as any_holds_null_of, holds_null as holds_null_of};

use arrow_core::{DataType, Field};

/// Whether the type Null stands in this type: the type itself, or one beneath it in List, LargeList
/// and Struct. Other types with types in them, which have no Avro schema, aren't looked into.
#[cycle(nulls)]
pub(crate) fn holds_null(data_type: &DataType) -> bool
    ensures { result ≡ holds_null_of data_type.now }
{
    match data_type {
        DataType::Null => true,
        DataType::List(item) => holds_null(&item.get().data_type),
        DataType::LargeList(item) => holds_null(&item.get().data_type),
        DataType::Struct(fields) => any_holds_null(fields.as_slice()),
        _ => false,
    }
}

/// Whether it stands in the type of one of the fields.
#[cycle(nulls)]
fn any_holds_null(fields: &[Field]) -> bool
    ensures { result ≡ any_holds_null_of fields.now }
{
    for field in fields {
        if holds_null(&field.data_type) {
            return true;
        }
    }
    false
}
