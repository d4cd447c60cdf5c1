//! JSON texts of schemas. Each writer puts its part at the end of one buffer.
ghost use Rattle.std.specs.Prelude.{◌≡◌, ◌++◌, codes, map, OnOk};
ghost use Rattle.arrow_core.specs.Errors.{OnlyOutOfMemory};
ghost use Rattle.arrow_base.specs.Joined.{joined};
ghost use Rattle.avro_file.specs.Writing.{schema_text_of, record_text_of, field_text_of};

use crate::write_parts::{
    push, push_bytes, push_enum, push_fixed, push_given, push_int, push_long, push_string,
    push_string_type,
};
use arrow_core::Result;
use avro_schema::{AvroField, AvroSchema, Record};

#[cycle(write)]
pub(crate) fn push_schema(text: &mut Vec<u8>, schema: &AvroSchema) -> Result<()>
    ensures appended { OnOk result (text.new.items ≡ text.old.items ++ schema_text_of schema.now) }
    ensures memory { OnlyOutOfMemory result }
{
    match schema {
        AvroSchema::Null => push(text, b"\"null\""),
        AvroSchema::Boolean => push(text, b"\"boolean\""),
        AvroSchema::Int(logical) => push_int(text, *logical),
        AvroSchema::Long(logical) => push_long(text, *logical),
        AvroSchema::Float => push(text, b"\"float\""),
        AvroSchema::Double => push(text, b"\"double\""),
        AvroSchema::Bytes(logical) => push_bytes(text, *logical),
        AvroSchema::String(logical) => push_string_type(text, *logical),
        AvroSchema::Record(record) => push_record(text, record),
        AvroSchema::Enum(symbols) => push_enum(text, symbols),
        AvroSchema::Array(item) => push_inner(text, b"{\"type\":\"array\",\"items\":", item.get()),
        AvroSchema::Map(value) => push_inner(text, b"{\"type\":\"map\",\"values\":", value.get()),
        AvroSchema::Union(members) => push_union(text, members.as_slice()),
        AvroSchema::Fixed(fixed) => push_fixed(text, fixed),
    }
}

/// The last attribute of an object, which is a schema, after what stands before it.
#[cycle(write)]
fn push_inner(text: &mut Vec<u8>, before: &[u8], schema: &AvroSchema) -> Result<()>
    ensures appended { OnOk result (text.new.items ≡ text.old.items
        ++ (before.now ++ schema_text_of schema.now ++ codes "}")) }
    ensures memory { OnlyOutOfMemory result }
{
    push(text, before)?;
    push_schema(text, schema)?;
    push(text, b"}")
}

#[cycle(write)]
fn push_union(text: &mut Vec<u8>, members: &[AvroSchema]) -> Result<()>
    ensures appended { OnOk result (text.new.items ≡ text.old.items
        ++ (codes "[" ++ joined (map schema_text_of members.now) ++ codes "]")) }
    ensures memory { OnlyOutOfMemory result }
{
    push(text, b"[")?;
    push_members(text, members)?;
    push(text, b"]")
}

#[cycle(write)]
#[tactic(auto, using(arrow_base::proofs::Joins::led_joined))]
fn push_members(text: &mut Vec<u8>, members: &[AvroSchema]) -> Result<()>
    ensures appended { OnOk result (text.new.items ≡ text.old.items
        ++ joined (map schema_text_of members.now)) }
    ensures memory { OnlyOutOfMemory result }
{
    let mut before: &[u8] = b"";
    for member in members {
        push(text, before)?;
        push_schema(text, member)?;
        before = b",";
    }
    Ok(())
}

#[cycle(write)]
pub(crate) fn push_record(text: &mut Vec<u8>, record: &Record) -> Result<()>
    ensures appended { OnOk result (text.new.items ≡ text.old.items
        ++ record_text_of «record».now) }
    ensures memory { OnlyOutOfMemory result }
{
    push(text, b"{\"type\":\"record\",\"name\":")?;
    push_string(text, record.name.as_str())?;
    push_given(text, b",\"namespace\":", &record.namespace)?;
    push_given(text, b",\"doc\":", &record.doc)?;
    push(text, b",\"fields\":[")?;
    push_fields(text, record.fields.as_slice())?;
    push(text, b"]}")
}

#[cycle(write)]
#[tactic(auto, using(arrow_base::proofs::Joins::led_joined))]
fn push_fields(text: &mut Vec<u8>, fields: &[AvroField]) -> Result<()>
    ensures appended { OnOk result (text.new.items ≡ text.old.items
        ++ joined (map field_text_of fields.now)) }
    ensures memory { OnlyOutOfMemory result }
{
    let mut before: &[u8] = b"";
    for field in fields {
        push(text, before)?;
        push_field(text, field)?;
        before = b",";
    }
    Ok(())
}

#[cycle(write)]
fn push_field(text: &mut Vec<u8>, field: &AvroField) -> Result<()>
    ensures appended { OnOk result (text.new.items ≡ text.old.items ++ field_text_of field.now) }
    ensures memory { OnlyOutOfMemory result }
{
    push(text, b"{\"name\":")?;
    push_string(text, field.name.as_str())?;
    push_given(text, b",\"doc\":", &field.doc)?;
    push(text, b",\"type\":")?;
    push_schema(text, &field.schema)?;
    push(text, b"}")
}
