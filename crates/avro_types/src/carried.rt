//! Which Avro schemas are carried.

ghost use Rattle.std.specs.Prelude.{◌≡◌, ◌↔◌, ◌<◌, length, IsTrue};
ghost use Rattle.avro_schema.specs.Carried.{IsNoUnion, IsFixedSize, Carried, CarriedList};
ghost use Rattle.avro_schema.specs.Encodes.{IsNull};
ghost use Rattle.avro_schema.specs.Listed.{CarriedMembersOf, CarriedFieldsOf};

use avro_schema::{AvroField, AvroSchema, Fixed, FixedLogical};

/// Whether a schema is null's.
pub fn is_null(schema: &AvroSchema) -> bool
    ensures { IsTrue result ↔ IsNull schema.now }
{
    matches!(schema, AvroSchema::Null)
}

/// Whether the values of a schema are carried: at every depth no map stands in it, no null by
/// itself, no union but of null and one type that is no union, no fixed type of no bytes, no
/// duration of another size than 12 bytes, and no record of no fields.
#[cycle(carried)]
pub fn is_carried(schema: &AvroSchema) -> bool
    ensures { IsTrue result ↔ Carried schema.now }
{
    match schema {
        AvroSchema::Null | AvroSchema::Map(_) => false,
        AvroSchema::Record(record) => is_record_carried(record.fields.as_slice()),
        AvroSchema::Array(item) => is_carried(item.get()),
        AvroSchema::Union(members) => is_union_carried(members.as_slice()),
        AvroSchema::Fixed(fixed) => is_fixed_carried(fixed),
        _ => true,
    }
}

/// Whether the schema of every field is carried.
#[cycle(carried)]
pub fn all_carried(fields: &[AvroField]) -> bool
    ensures { IsTrue result ↔ CarriedList fields.now }
{
    for i in 0..fields.len() {
        if !is_carried(&fields[i].schema) {
            return false;
        }
    }
    true
}

#[cycle(carried)]
fn is_record_carried(fields: &[AvroField]) -> bool
    ensures { IsTrue result ↔ CarriedFieldsOf fields.now }
{
    !fields.is_empty() && all_carried(fields)
}

#[cycle(carried)]
fn is_union_carried(members: &[AvroSchema]) -> bool
    ensures { IsTrue result ↔ CarriedMembersOf members.now }
{
    match members {
        [first, second] => {
            (is_null(first) && is_item_carried(second))
                || (is_null(second) && is_item_carried(first))
        }
        _ => false,
    }
}

/// Whether a schema is carried beside null in a union.
#[cycle(carried)]
fn is_item_carried(schema: &AvroSchema) -> bool
    ensures { IsTrue result ↔ (Carried schema.now × IsNoUnion schema.now) }
{
    !matches!(schema, AvroSchema::Union(_)) && is_carried(schema)
}

fn is_fixed_carried(fixed: &Fixed) -> bool
    ensures { IsTrue result ↔ IsFixedSize fixed.now.size fixed.now.logical }
{
    match fixed.logical {
        Some(FixedLogical::Duration) => fixed.size == 12,
        _ => fixed.size >= 1,
    }
}
