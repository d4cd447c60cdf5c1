//! Blocks under a projection, and into builders that are reserved once.

use crate::guide_samples::{avro_field, block, or_null, record};
use arrow_array::{Array, Chunk, PrimitiveArray};
use arrow_core::Error;
use avro_read::{infer_schema, make_builders};
use avro_schema::{AvroSchema, Block, Record};
use guide::{count_rows, first_and_third, reserve};
use std::alloc::Global;
use std::process::Abort;

/// The rows 1, "hi" and 3, and -2, null and 300.
pub const ROWS: &[u8] = b"\x02\x02\x04hi\x06\x03\x00\xd8\x04";

/// An int, a string or null, and a long.
pub fn three_fields(rt: &impl Abort, alloc: Global) -> Record {
    let string = or_null(rt, alloc, AvroSchema::String(None));
    let fields = vec![in alloc;
        avro_field(rt, alloc, "a", AvroSchema::Int(None)),
        avro_field(rt, alloc, "b", string),
        avro_field(rt, alloc, "c", AvroSchema::Long(None)),
    ];
    record(rt, alloc, fields.expect(rt, "memory"))
}

fn are_ints(ints: &PrimitiveArray<i32>) -> bool {
    ints.len() == 2 && (ints.value(0) == 1 && ints.value(1) == -2)
}

fn are_longs(longs: &PrimitiveArray<i64>) -> bool {
    longs.len() == 2 && (longs.value(0) == 3 && longs.value(1) == 300)
}

fn are_columns(chunk: &Chunk) -> bool {
    match chunk.arrays() {
        [Array::Int32(ints), Array::Int64(longs)] => are_ints(ints) && are_longs(longs),
        _ => false,
    }
}

#[test]
fn the_second_field_is_skipped(rt: HostRuntime) {
    let record = three_fields(&rt, rt.alloc());
    let block = block(&rt, rt.alloc(), 2, ROWS);
    let chunk = first_and_third(rt.alloc(), &record, &block).expect(&rt, "two rows");
    assert!(rt; are_columns(&chunk));
}

/// How many rows the blocks have, by way of builders that are reserved for ten bytes.
fn counted(alloc: Global, record: &Record, blocks: &[Block]) -> Result<u64, Error> {
    let fields = infer_schema(alloc, record)?.fields;
    let avro_fields = record.fields.as_slice();
    let projection = [true, true, true];
    let mut builders = make_builders(alloc, fields.as_slice(), avro_fields, &projection)?;
    let builders = builders.as_mut_slice();
    reserve(builders, 10)?;
    count_rows(
        blocks,
        fields.as_slice(),
        avro_fields,
        &projection,
        builders,
    )
}

#[test]
fn reserved_builders_are_filled_again(rt: HostRuntime) {
    let record = three_fields(&rt, rt.alloc());
    let first = block(&rt, rt.alloc(), 2, ROWS);
    let second = block(&rt, rt.alloc(), 1, b"\x02\x00\x02");
    let rows = counted(rt.alloc(), &record, &[first, second]).expect(&rt, "three rows");
    assert!(rt; rows == 3);
}
