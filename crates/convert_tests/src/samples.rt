//! Sources of files in memory, and chunks of integers.

use arrow_array::{Array, Chunk, PrimitiveArray};
use arrow_base::{Bytes, Items, MemorySource};
use avro_file::{FileMetadata, read_metadata};
use std::alloc::Global;
use std::process::Abort;

/// A source of these pieces, one after another, that does not fail.
pub fn source(rt: &impl Abort, alloc: Global, pieces: &[&[u8]]) -> MemorySource {
    let mut bytes = Bytes::new(alloc);
    for piece in pieces {
        bytes.push_slice(piece).expect(rt, "memory");
    }
    MemorySource::new(bytes, 1000, Items::from_vec(Vec::new(alloc)))
}

/// What the header of a file says.
pub fn header_of(rt: &impl Abort, alloc: Global, source: &mut MemorySource) -> FileMetadata {
    read_metadata(alloc, source, 1000).expect(rt, "a header").0
}

fn is_int(column: &PrimitiveArray<i32>, i: usize, value: i64) -> bool {
    i < column.len() && column.is_valid(i) && column.value(i) as i64 == value
}

fn is_long(column: &PrimitiveArray<i64>, i: usize, value: i64) -> bool {
    i < column.len() && column.is_valid(i) && column.value(i) == value
}

fn is_value(array: &Array, i: usize, value: i64) -> bool {
    match array {
        Array::Int32(column) => is_int(column, i, value),
        Array::Int64(column) => is_long(column, i, value),
        _ => false,
    }
}

/// Whether the chunk is one column of these integers.
pub fn holds(chunk: &Chunk, values: &[i64]) -> bool {
    let [array] = chunk.arrays() else {
        return false;
    };
    if array.len() != values.len() {
        return false;
    }
    for i in 0..values.len() {
        if !is_value(array, i, values[i]) {
            return false;
        }
    }
    true
}
