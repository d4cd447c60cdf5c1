//! Whether a float stands in a schema.

ghost use Rattle.std.specs.Prelude.{◌≡◌, ◌↔◌, IsTrue};
ghost use Rattle.avro_schema.specs.ValidBlock.{HasFloat};
ghost use Rattle.avro_types.specs.Parts.{AnyOf};

use avro_schema::{AvroField, AvroSchema};

/// Whether a `float` or a `double` stands in a schema, at any depth.
#[cycle(floats)]
pub fn has_float(schema: &AvroSchema) -> bool
    ensures { IsTrue result ↔ HasFloat schema.now }
{
    match schema {
        AvroSchema::Float | AvroSchema::Double => true,
        AvroSchema::Record(record) => field_has_float(record.fields.as_slice()),
        AvroSchema::Array(item) => has_float(item.get()),
        AvroSchema::Map(value) => has_float(value.get()),
        AvroSchema::Union(members) => member_has_float(members.as_slice()),
        _ => false,
    }
}

#[cycle(floats)]
fn field_has_float(fields: &[AvroField]) -> bool
    ensures { IsTrue result ↔ AnyOf (λ a. HasFloat a.schema) fields.now }
{
    for i in 0..fields.len() {
        if has_float(&fields[i].schema) {
            return true;
        }
    }
    false
}

#[cycle(floats)]
fn member_has_float(members: &[AvroSchema]) -> bool
    ensures { IsTrue result ↔ AnyOf HasFloat members.now }
{
    for i in 0..members.len() {
        if has_float(&members[i]) {
            return true;
        }
    }
    false
}
