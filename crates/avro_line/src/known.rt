//! Which fields are shown without columns.
ghost use Rattle.std.specs.Prelude.{◌≡◌, length, All, IsTrue};
ghost use Rattle.avro_schema.specs.ValidBlock.{EnumsFit, KeptEnumsFit};

use avro_schema::{AvroField, AvroSchema};

/// Whether no kept field's value need be given up for its kind: at every depth it is a boolean, an
/// int, a long, a string, an array, a record, or a union of these and null. Where it is true,
/// dictionaries can hold the symbols of each kept enum, since no enum is kept.
pub fn are_known(avro_fields: &[AvroField], projection: &[bool]) -> bool
    requires lengths { length avro_fields.now ≡ length projection.now }
    ensures { IsTrue result → KeptEnumsFit avro_fields.now projection.now }
{
    for i in 0..avro_fields.len() {
        if projection[i] && !is_known(&avro_fields[i].schema) {
            return false;
        }
    }
    true
}

#[cycle(known)]
fn is_known(schema: &AvroSchema) -> bool
    ensures { IsTrue result → EnumsFit schema.now }
{
    match schema {
        AvroSchema::Null
        | AvroSchema::Boolean
        | AvroSchema::Int(_)
        | AvroSchema::Long(_)
        | AvroSchema::String(_) => true,
        AvroSchema::Array(item) => is_known(item.get()),
        AvroSchema::Record(record) => fields_are_known(record.fields.as_slice()),
        AvroSchema::Union(members) => members_are_known(members.as_slice()),
        _ => false,
    }
}

#[cycle(known)]
fn fields_are_known(avro_fields: &[AvroField]) -> bool
    ensures { IsTrue result → All (λ a. EnumsFit a.schema) avro_fields.now }
{
    for i in 0..avro_fields.len() {
        if !is_known(&avro_fields[i].schema) {
            return false;
        }
    }
    true
}

#[cycle(known)]
fn members_are_known(members: &[AvroSchema]) -> bool
    ensures { IsTrue result → All EnumsFit members.now }
{
    for i in 0..members.len() {
        if !is_known(&members[i]) {
            return false;
        }
    }
    true
}
