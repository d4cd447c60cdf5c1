//! What the tests read: schemas, fields and blocks.

use arrow_core::{Bytes, Items, Text};
use avro_schema::{AvroField, AvroSchema, Block, Record};
use std::alloc::Global;
use std::process::Abort;

pub fn text(rt: &impl Abort, alloc: Global, s: &str) -> Text {
    Text::try_from_str(alloc, s).expect(rt, "memory")
}

pub fn avro_field(rt: &impl Abort, alloc: Global, name: &str, schema: AvroSchema) -> AvroField {
    AvroField {
        name: text(rt, alloc, name),
        doc: None,
        schema,
    }
}

pub fn record(rt: &impl Abort, alloc: Global, fields: Vec<AvroField>) -> Record {
    Record {
        name: text(rt, alloc, "r"),
        namespace: None,
        doc: None,
        fields: Items::from_vec(fields),
    }
}

/// A union of null and a schema.
pub fn or_null(rt: &impl Abort, alloc: Global, schema: AvroSchema) -> AvroSchema {
    let members = vec![in alloc; AvroSchema::Null, schema].expect(rt, "memory");
    AvroSchema::Union(Items::from_vec(members))
}

pub fn block(rt: &impl Abort, alloc: Global, number_of_rows: usize, bytes: &[u8]) -> Block {
    Block {
        number_of_rows,
        bytes: Bytes::try_from_slice(alloc, bytes).expect(rt, "memory"),
    }
}
