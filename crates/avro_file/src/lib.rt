//! Avro files without their rows: the header with its record, and schemas as JSON texts, both read
//! and written; with the calls that read and write blocks, and the types of schemas.
#![tactic(auto)]

mod attributes;
mod fault;
mod laws;
mod logical;
mod metadata;
mod read;
mod schema_laws;
mod text;
mod write;
mod write_parts;

pub use avro_container::{Allowance, BlockReader, Stop, fill_buffer, write_block, zigzag_encode};
pub use avro_schema::{
    AvroField, AvroSchema, Block, BytesLogical, Cursor, Enum, Fixed, FixedLogical, IntLogical,
    LongLogical, Record, Schema, SliceCursor, StringLogical, next_number, zigzag_i64,
};
pub use fault::SchemaTextFault;
pub use laws::{metadata_answers, one_avro_file};
pub use metadata::{Compression, FileMetadata, read_metadata, write_metadata};
pub use schema_laws::{depth_is_enough, one_text_one_schema, written_text_is_read};
pub use text::{read_schema_text, record_text, schema_text};
