//! Whether dictionaries can hold the symbols of a schema's enums.

ghost use Rattle.std.specs.Prelude.{◌≡◌, ◌↔◌, ◌≤◌, length, sum_by, All, IsTrue};
ghost use Rattle.avro_schema.specs.ValidBlock.{small_limit, EnumsFit};

use arrow_core::Text;
use avro_schema::{AvroField, AvroSchema};

/// Whether the symbols of each enum in a schema, at any depth, number 2147483647 at most, and so do
/// their bytes: a dictionary's keys and its strings' offsets have 32 bits.
#[cycle(enums)]
pub fn enums_fit(schema: &AvroSchema) -> bool
    ensures { IsTrue result ↔ EnumsFit schema.now }
{
    match schema {
        AvroSchema::Enum(enumeration) => symbols_fit(enumeration.symbols.as_slice()),
        AvroSchema::Record(record) => enums_of_fields_fit(record.fields.as_slice()),
        AvroSchema::Array(item) => enums_fit(item.get()),
        AvroSchema::Map(value) => enums_fit(value.get()),
        AvroSchema::Union(members) => enums_of_members_fit(members.as_slice()),
        _ => true,
    }
}

#[cycle(enums)]
fn enums_of_fields_fit(fields: &[AvroField]) -> bool
    ensures { IsTrue result ↔ All (λ a. EnumsFit a.schema) fields.now }
{
    for i in 0..fields.len() {
        if !enums_fit(&fields[i].schema) {
            return false;
        }
    }
    true
}

#[cycle(enums)]
fn enums_of_members_fit(members: &[AvroSchema]) -> bool
    ensures { IsTrue result ↔ All EnumsFit members.now }
{
    for i in 0..members.len() {
        if !enums_fit(&members[i]) {
            return false;
        }
    }
    true
}

fn symbols_fit(symbols: &[Text]) -> bool
    ensures { IsTrue result ↔ ((length symbols.now ≤ small_limit)
        × (sum_by length symbols.now ≤ small_limit)) }
{
    let limit = 2147483647usize;
    if symbols.len() > limit {
        return false;
    }
    let mut left = limit;
    for i in 0..symbols.len() {
        let size = symbols[i].as_str().len();
        if size > left {
            return false;
        }
        left -= size;
    }
    true
}
