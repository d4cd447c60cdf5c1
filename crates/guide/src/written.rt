//! A file, chunk by chunk.

ghost use Rattle.std.specs.Prelude.{ℕ, List, map, IfOk, OnOk};
ghost use Rattle.std.specs.Io.KnownBytes.{Appends};
ghost use Rattle.arrow_array.specs.Arrays.{array_slots};
ghost use Rattle.avro_file.specs.File.{metadata_bytes};
ghost use Rattle.avro_schema.specs.declared.schema.Record.{out-Record};
ghost use Rattle.guide.specs.Written.{IsBlockOf};

use arrow_array::Chunk;
use arrow_base::{Error, Reason, Result, Sink};
use arrow_core::{Bytes, Schema};
use avro_file::{Block, Record, write_block, write_metadata};
use avro_write::{name_types, new_serializer, serialize, to_record};
use std::alloc::Global;

/// The most rows and the most bytes of a block, which are written as signed numbers.
const MOST: usize = i64::MAX as usize;

/// Begins a file of these columns, and answers the record of its rows, which gets this name.
///
/// The errors are those of `to_record` and of `write_metadata`; no clause says so.
pub fn write_header<K: Sink>(
    alloc: Global,
    sink: &mut K,
    schema: &Schema,
    name: &str,
    marker: [u8; 16],
) -> Result<Record>
    ensures written { IfOk result (λ root.
        Appends (K.held sink.old) (K.held sink.new) (metadata_bytes root marker)) }
{
    let root = name_types(alloc, to_record(alloc, schema)?, name)?;
    write_metadata(alloc, sink, &root, marker)?;
    Ok(root)
}

/// Appends the rows of a chunk to a file of this record, as one block.
///
/// `InvalidArgumentError(Lengths)` where the record has more or fewer fields than the chunk has
/// columns, `Overflow` where the rows or their bytes are more than 2^63 - 1; the errors of
/// `new_serializer`, of `serialize` and of `write_block`. No clause says so.
pub fn write_chunk<K: Sink>(
    alloc: Global,
    sink: &mut K,
    root: &Record,
    chunk: &Chunk,
    marker: [u8; 16],
) -> Result<()>
    ensures written { OnOk result ((block : List ℕ)
        × IsBlockOf (out-Record root.now).fields marker (map array_slots chunk.now) block
        × Appends (K.held sink.old) (K.held sink.new) block) }
{
    let rows = chunk.len();
    let columns = chunk.arrays();
    let fields = root.fields.as_slice();
    if fields.len() != columns.len() {
        return Err(Error::InvalidArgumentError(Reason::Lengths));
    }
    if rows > MOST {
        return Err(Error::Overflow);
    }
    let mut serializers = Vec::new(alloc);
    for k in 0..columns.len() {
        serializers.push(new_serializer(alloc, &columns[k], &fields[k].schema)?)?;
    }
    let mut block = Block {
        number_of_rows: rows,
        bytes: Bytes::new(alloc),
    };
    serialize(serializers.as_mut_slice(), &mut block)?;
    if block.bytes.as_slice().len() > MOST {
        return Err(Error::Overflow);
    }
    write_block(sink, &block, marker)
}
