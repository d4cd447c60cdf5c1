//! Arrays, records and enums in blocks.

use crate::samples::{avro_field, block, or_null, record, text};
use arrow_array::{Array, Chunk, DictionaryArray, Keys, ListArray, StructArray, Utf8Array};
use arrow_core::{Box, Error, Items, Reason};
use avro_decode::deserialize;
use avro_schema::{AvroSchema, Enum, Record};
use avro_types::infer_schema;
use std::alloc::Global;
use std::process::Abort;

fn longs(rt: &impl Abort, alloc: Global) -> AvroSchema {
    AvroSchema::Array(Box::new(alloc, AvroSchema::Long(None)).expect(rt, "memory"))
}

/// A record of a boolean `c`.
fn flag(rt: &impl Abort, alloc: Global) -> AvroSchema {
    let c = avro_field(rt, alloc, "c", AvroSchema::Boolean);
    AvroSchema::Record(record(rt, alloc, vec![in alloc; c].expect(rt, "memory")))
}

/// The record of a row: an array `a` of longs, and a record `b` or null.
fn row(rt: &impl Abort, alloc: Global) -> Record {
    let a = avro_field(rt, alloc, "a", longs(rt, alloc));
    let b = avro_field(rt, alloc, "b", or_null(rt, alloc, flag(rt, alloc)));
    record(rt, alloc, vec![in alloc; a, b].expect(rt, "memory"))
}

/// The columns of rows of this record.
fn columns_of(
    rt: &impl Abort,
    alloc: Global,
    row: Record,
    rows: usize,
    bytes: &[u8],
    projection: &[bool],
) -> Result<Chunk, Error> {
    let fields = infer_schema(alloc, &row).expect(rt, "memory").fields;
    let block = block(rt, alloc, rows, bytes);
    deserialize(
        alloc,
        &block,
        fields.as_slice(),
        row.fields.as_slice(),
        projection,
    )
}

fn columns(
    rt: &impl Abort,
    alloc: Global,
    rows: usize,
    bytes: &[u8],
    projection: &[bool],
) -> Result<Chunk, Error> {
    columns_of(rt, alloc, row(rt, alloc), rows, bytes, projection)
}

/// Whether these are `[1, -2]` and `[3]`.
fn are_lists(lists: &ListArray) -> bool {
    match lists.values() {
        Array::Int64(items) => {
            lists.offsets() == [0, 2, 3].as_slice()
                && items.len() == 3
                && (items.value(0) == 1 && items.value(1) == -2 && items.value(2) == 3)
        }
        _ => false,
    }
}

/// Whether these are a struct of true and a null.
fn are_structs(structs: &StructArray) -> bool {
    match structs.values() {
        [Array::Boolean(flags)] => {
            structs.len() == 2
                && flags.len() == 2
                && (structs.is_valid(0) && flags.is_valid(0) && flags.value(0))
                && !structs.is_valid(1)
        }
        _ => false,
    }
}

fn are_columns(chunk: &Chunk) -> bool {
    match chunk.arrays() {
        [Array::List(lists), Array::Struct(structs)] => are_lists(lists) && are_structs(structs),
        _ => false,
    }
}

/// The rows `[1, -2]` and a record of true, and `[3]` in a block that states its size and null.
const ROWS: &[u8] = b"\x04\x02\x03\x00\x02\x01\x01\x02\x06\x00\x00";

#[test]
fn arrays_and_records_become_columns(rt: HostRuntime) {
    let chunk = columns(&rt, rt.alloc(), 2, ROWS, &[true, true]).expect(&rt, "two rows");
    assert!(rt; are_columns(&chunk));
}

/// A row whose array isn't kept, and has a block that states the size -1.
#[test]
fn a_negative_size_is_told(rt: HostRuntime) {
    let refused = columns(&rt, rt.alloc(), 1, b"\x01\x01\x06\x00\x00", &[false, true]).err();
    assert!(rt; refused == Some(Error::OutOfSpec(Reason::NegativeSize)));
}

/// An enum of the symbols A and B.
fn symbols(rt: &impl Abort, alloc: Global) -> AvroSchema {
    let symbols = vec![in alloc; text(rt, alloc, "A"), text(rt, alloc, "B")].expect(rt, "memory");
    AvroSchema::Enum(Enum {
        name: text(rt, alloc, "e"),
        namespace: None,
        doc: None,
        symbols: Items::from_vec(symbols),
    })
}

/// The record of a row: an array `a` of records of a symbol.
fn symbol_row(rt: &impl Abort, alloc: Global) -> Record {
    let symbol = avro_field(rt, alloc, "e", symbols(rt, alloc));
    let symbol = record(rt, alloc, vec![in alloc; symbol].expect(rt, "memory"));
    let item = Box::new(alloc, AvroSchema::Record(symbol)).expect(rt, "memory");
    let a = avro_field(rt, alloc, "a", AvroSchema::Array(item));
    record(rt, alloc, vec![in alloc; a].expect(rt, "memory"))
}

/// Whether these are "A" and "B".
fn are_strings(strings: &Utf8Array<i32>) -> bool {
    strings.len() == 2 && strings.value(0) == "A" && strings.value(1) == "B"
}

/// Whether these are the symbols B and A, by their indices into A and B.
fn are_symbols(symbols: &DictionaryArray) -> bool {
    match (symbols.keys(), symbols.values()) {
        (Keys::Int32(keys), Array::Utf8(strings)) => {
            keys.len() == 2 && (keys.value(0) == 1 && keys.value(1) == 0) && are_strings(strings)
        }
        _ => false,
    }
}

fn are_records(items: &Array) -> bool {
    match items {
        Array::Struct(records) => match records.values() {
            [Array::Dictionary(symbols)] => are_symbols(symbols),
            _ => false,
        },
        _ => false,
    }
}

fn are_symbol_lists(chunk: &Chunk) -> bool {
    match chunk.arrays() {
        [Array::List(lists)] => lists.len() == 1 && are_records(lists.values()),
        _ => false,
    }
}

#[test]
fn symbols_are_kept_in_records_in_arrays(rt: HostRuntime) {
    let row = symbol_row(&rt, rt.alloc());
    let chunk = columns_of(&rt, rt.alloc(), row, 1, b"\x04\x02\x00\x00", &[true]).expect(
        &rt, "a row",
    );
    assert!(rt; are_symbol_lists(&chunk));
}
