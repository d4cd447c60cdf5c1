//! Whether a type holds offsets of 32 bits.

ghost use Rattle.std.specs.Prelude.{◌≡◌, ◌↔◌, IsTrue};
ghost use Rattle.avro_schema.specs.ValidBlock.{IsSmall};
ghost use Rattle.avro_types.specs.Parts.{AnyOf};

use arrow_core::{DataType, Field};

/// Whether `Utf8`, `Binary` or `List` stands in a type, at any depth; their offsets have 32 bits.
/// The values of a dictionary don't count.
#[cycle(small)]
pub fn is_small(data_type: &DataType) -> bool
    ensures { IsTrue result ↔ IsSmall data_type.now }
{
    match data_type {
        DataType::Binary | DataType::Utf8 | DataType::List(_) => true,
        DataType::FixedSizeList(item, _) => is_small(&item.get().data_type),
        DataType::LargeList(item) => is_small(&item.get().data_type),
        DataType::Struct(fields) => holds_small(fields.as_slice()),
        DataType::Map(entries, _) => is_small(&entries.get().data_type),
        DataType::Union(fields, _, _) => holds_small(fields.as_slice()),
        DataType::Extension(_, inner, _) => is_small(inner.get()),
        _ => false,
    }
}

#[cycle(small)]
fn holds_small(fields: &[Field]) -> bool
    ensures { IsTrue result ↔ AnyOf (λ f. IsSmall f.data_type) fields.now }
{
    for i in 0..fields.len() {
        if is_small(&fields[i].data_type) {
            return true;
        }
    }
    false
}
