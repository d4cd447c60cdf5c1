//! Columns, and lines that are converted into files in memory.

use arrow_base::{Bytes, Error, Items, MemorySink, MemorySource, Result};
use arrow_core::{Box, DataType, Field, Metadata, Schema, Text};
use ndjson_avro::ndjson_to_avro;
use std::alloc::Global;
use std::process::Abort;

/// How many rows a block has, under which limit, in pieces of how many bytes at most lines are read and
/// the file is written, and which calls fail, counted from 1: none where it is 0.
#[derive(Clone, Copy)]
pub struct How {
    pub rows_per_block: usize,
    pub limit: u64,
    pub piece: usize,
    pub failing_read: u64,
    pub failing_write: u64,
}

pub const PLAIN: How = How {
    rows_per_block: 10,
    limit: 1000,
    piece: 60,
    failing_read: 0,
    failing_write: 0,
};

/// The answer, and what the sink then holds.
#[derive(Drop)]
pub struct Converted {
    pub answer: Result<u64>,
    pub held: Bytes,
}

pub fn field(
    rt: &impl Abort,
    alloc: Global,
    name: &str,
    data_type: DataType,
    is_nullable: bool,
) -> Field {
    let name = Text::try_from_str(alloc, name).expect(rt, "memory");
    Field::new(alloc, name, data_type, is_nullable)
}

pub fn schema(alloc: Global, fields: Vec<Field>) -> Schema {
    Schema {
        fields: Items::from_vec(fields),
        metadata: Metadata::new(alloc),
    }
}

/// A column `a` of this type that isn't nullable.
pub fn column(rt: &impl Abort, alloc: Global, data_type: DataType) -> Schema {
    let a = field(rt, alloc, "a", data_type, false);
    schema(alloc, vec![in alloc; a].expect(rt, "memory"))
}

/// Lists of items of this type.
pub fn lists(rt: &impl Abort, alloc: Global, item: DataType, is_nullable: bool) -> DataType {
    let item = field(rt, alloc, "item", item, is_nullable);
    DataType::List(Box::new(alloc, item).expect(rt, "memory"))
}

/// Structs of these fields.
pub fn structs(fields: Vec<Field>) -> DataType {
    DataType::Struct(Items::from_vec(fields))
}

/// The number of one call.
fn one_call(rt: &impl Abort, alloc: Global, number: u64) -> Items<u64> {
    Items::try_from_slice(alloc, &[number]).expect(rt, "memory")
}

/// The pieces of a file, one after another.
pub fn joined(rt: &impl Abort, alloc: Global, pieces: &[&[u8]]) -> Bytes {
    let mut bytes = Bytes::new(alloc);
    for piece in pieces {
        bytes.push_slice(piece).expect(rt, "memory");
    }
    bytes
}

/// What becomes of lines under the name `t` and a marker of sixteen bytes 1.
pub fn convert(
    rt: &impl Abort,
    alloc: Global,
    lines: &[u8],
    columns: &Schema,
    how: How,
) -> Converted {
    let failing_read = one_call(rt, alloc, how.failing_read);
    let failing_write = one_call(rt, alloc, how.failing_write);
    let piece = how.piece.max(1);
    let mut source = MemorySource::new(joined(rt, alloc, &[lines]), piece, failing_read);
    let mut sink = MemorySink::with_room(alloc, 1000, piece, failing_write).expect(rt, "memory");
    let marker = [1u8; 16];
    let rows = how.rows_per_block.max(1);
    let answer = ndjson_to_avro(
        alloc,
        &mut source,
        &mut sink,
        columns,
        "t",
        marker,
        rows,
        how.limit,
    );
    let held = Bytes::try_from_slice(alloc, sink.held()).expect(rt, "memory");
    drop((source, sink));
    Converted { answer, held }
}

/// Whether the answer is this, and the sink then holds these bytes.
pub fn gives(
    rt: &impl Abort,
    alloc: Global,
    lines: &[u8],
    columns: &Schema,
    how: How,
    answer: Result<u64>,
    held: &[&[u8]],
) -> bool {
    let converted = convert(rt, alloc, lines, columns, how);
    let held = joined(rt, alloc, held);
    let gives_so = converted.answer == answer && converted.held.as_slice() == held.as_slice();
    drop((converted, held));
    gives_so
}

/// Whether lines of one int are refused so, with these bytes written.
pub fn is_refused(
    rt: &impl Abort,
    alloc: Global,
    lines: &[u8],
    how: How,
    error: Error,
    held: &[&[u8]],
) -> bool {
    let columns = column(rt, alloc, DataType::Int32);
    let is_refused = gives(rt, alloc, lines, &columns, how, Err(error), held);
    drop(columns);
    is_refused
}
