//! Texts of schemas.
ghost use Rattle.std.specs.Prelude.{◌≡◌, IfOk, IfErr};
ghost use Rattle.arrow_core.specs.Errors.{OnlyOutOfMemory};
ghost use Rattle.avro_schema.specs.declared.schema.Schema.{Record as RecordSchema};
ghost use Rattle.avro_file.specs.Reading.{IsSchemaText, SchemaTextRefused};
ghost use Rattle.avro_file.specs.Writing.{schema_text_of};

use crate::fault::SchemaTextFault;
use crate::read::read_value;
use crate::write::{push_record, push_schema};
use arrow_core::{Bytes, Error};
use avro_schema::{AvroSchema, Record};
use json_tree::{JsonFault, parse};
use std::alloc::Global;

/// How deep schemas may nest: each one within another stands in a bracket more, and a JSON text that
/// is read has at most 128 brackets open at once.
const MOST_DEPTH: usize = 129;

/// The schema that a JSON text declares (Avro 1.11, "Schema Declaration"), and the only one.
///
/// The name of a primitive type is that type, an array is a union, and an object is the type that its
/// attribute `type` names, or the schema that this attribute is. Attributes that the type doesn't have
/// are passed over, defaults, aliases and orders of fields are too, and so is a logical type that
/// doesn't belong to its type or lacks what it needs. Names may be any text, and may repeat.
///
/// `Depth` comes exactly where some prefix of the bytes is a prefix of a JSON text, but of none in
/// which at most 128 brackets are open at once; else `Form` exactly where the bytes are no JSON text
/// or no schema; else `Reference` exactly where a type is given by the name of
/// one that is declared elsewhere. `Memory` may come in place of any answer.
pub fn read_schema_text(alloc: Global, bytes: &[u8]) -> Result<AvroSchema, SchemaTextFault>
    ensures ok { IfOk result (λ schema. IsSchemaText bytes.now schema) }
    ensures err { IfErr result (λ fault. SchemaTextRefused bytes.now fault) }
{
    match parse(alloc, bytes) {
        Ok(value) => read_value(alloc, &value, MOST_DEPTH),
        Err(JsonFault::Text) => Err(SchemaTextFault::Form),
        Err(JsonFault::Depth) => Err(SchemaTextFault::Depth),
        Err(JsonFault::Memory) => Err(SchemaTextFault::Memory),
    }
}

/// The JSON text of a schema (Avro 1.11, "Schema Declaration"): without spaces, with the attributes of a
/// type in the order name, namespace, doc and what else it has, and namespace and doc only where they
/// are given. `OutOfMemory` is the only error.
pub fn schema_text(alloc: Global, schema: &AvroSchema) -> Result<Bytes, Error>
    ensures text { IfOk result (λ bytes. bytes ≡ schema_text_of schema.now) }
    ensures memory { OnlyOutOfMemory result }
{
    let mut text = Vec::new(alloc);
    push_schema(&mut text, schema)?;
    Ok(Bytes::from_vec(text))
}

/// The JSON text of a record, as [`schema_text`] gives it for the schema that is this record.
pub fn record_text(alloc: Global, record: &Record) -> Result<Bytes, Error>
    ensures text { IfOk result (λ bytes. bytes ≡ schema_text_of (RecordSchema «record».now)) }
    ensures memory { OnlyOutOfMemory result }
{
    let mut text = Vec::new(alloc);
    push_record(&mut text, record)?;
    Ok(Bytes::from_vec(text))
}
