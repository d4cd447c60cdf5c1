//! Columns of large forms.

use crate::blocks::{ROWS, are_numbers, avro_fields};
use crate::samples::{avro_field, block, or_null, record, text};
use arrow_array::{Array, Chunk, LargeListArray, Utf8Array};
use arrow_core::{Box, DataType, Error, Field, Reason};
use avro_decode::deserialize;
use avro_schema::{AvroField, AvroSchema};
use avro_types::{enlarge, infer_schema};
use std::alloc::Global;
use std::process::Abort;

/// A string or null `b`.
fn avro_string(rt: &impl Abort, alloc: Global) -> AvroField {
    avro_field(rt, alloc, "b", or_null(rt, alloc, AvroSchema::String(None)))
}

/// The column of the rows "hi" and null, where it is to have this type.
fn strings(rt: &impl Abort, alloc: Global, data_type: DataType) -> Result<Chunk, Error> {
    let field = Field::new(alloc, text(rt, alloc, "b"), data_type, true);
    let avro_field = avro_string(rt, alloc);
    let block = block(rt, alloc, 2, b"\x02\x04hi\x00");
    deserialize(alloc, &block, &[field], &[avro_field], &[true])
}

/// Whether these are "hi" and null.
fn are_strings(strings: &Utf8Array<i64>) -> bool {
    strings.len() == 2 && strings.is_valid(0) && strings.value(0) == "hi" && !strings.is_valid(1)
}

fn is_large_column(chunk: &Chunk) -> bool {
    match chunk.arrays() {
        [Array::LargeUtf8(strings)] => are_strings(strings),
        _ => false,
    }
}

#[test]
fn strings_become_a_large_column(rt: HostRuntime) {
    let chunk = strings(&rt, rt.alloc(), DataType::LargeUtf8).expect(&rt, "two rows");
    assert!(rt; is_large_column(&chunk));
}

/// The columns of the rows 1 and "hi", and -2 and null, the second of them large.
fn rows(rt: &impl Abort, alloc: Global) -> Result<Chunk, Error> {
    let a = Field::new(alloc, text(rt, alloc, "a"), DataType::Int32, false);
    let b = Field::new(alloc, text(rt, alloc, "b"), DataType::LargeUtf8, true);
    let avro_fields = avro_fields(rt, alloc);
    let block = block(rt, alloc, 2, ROWS);
    deserialize(
        alloc,
        &block,
        &[a, b],
        avro_fields.as_slice(),
        &[true, true],
    )
}

fn are_rows(chunk: &Chunk) -> bool {
    match chunk.arrays() {
        [Array::Int32(numbers), Array::LargeUtf8(strings)] => {
            are_numbers(numbers) && are_strings(strings)
        }
        _ => false,
    }
}

#[test]
fn rows_fill_a_large_column_beside_another(rt: HostRuntime) {
    let chunk = rows(&rt, rt.alloc()).expect(&rt, "two rows");
    assert!(rt; are_rows(&chunk));
}

#[test]
fn strings_are_no_large_binary_values(rt: HostRuntime) {
    let refused = strings(&rt, rt.alloc(), DataType::LargeBinary).err();
    assert!(rt; refused == Some(Error::InvalidArgumentError(Reason::FieldType)));
}

/// The lists ["hi", null] and [], in the enlarged column of an array of such strings.
fn lists(rt: &impl Abort, alloc: Global) -> Result<Chunk, Error> {
    let item = or_null(rt, alloc, AvroSchema::String(None));
    let array = AvroSchema::Array(Box::new(alloc, item).expect(rt, "memory"));
    let avro_field = avro_field(rt, alloc, "b", array);
    let row = record(rt, alloc, vec![in alloc; avro_field].expect(rt, "memory"));
    let fields = infer_schema(alloc, &row).expect(rt, "memory").fields;
    let mut large = Vec::new(alloc);
    for field in fields.as_slice() {
        let field = enlarge(alloc, field).expect(rt, "memory");
        large.push(field).expect(rt, "memory");
    }
    let block = block(rt, alloc, 2, b"\x04\x02\x04hi\x00\x00\x00");
    let avro_fields = row.fields.as_slice();
    deserialize(alloc, &block, large.as_slice(), avro_fields, &[true])
}

fn are_lists(lists: &LargeListArray) -> bool {
    match lists.values() {
        Array::LargeUtf8(strings) => {
            lists.offsets() == [0, 2, 2].as_slice() && are_strings(strings)
        }
        _ => false,
    }
}

fn are_large_lists(chunk: &Chunk) -> bool {
    match chunk.arrays() {
        [Array::LargeList(lists)] => are_lists(lists),
        _ => false,
    }
}

#[test]
fn lists_of_strings_become_large(rt: HostRuntime) {
    let chunk = lists(&rt, rt.alloc()).expect(&rt, "two rows");
    assert!(rt; are_large_lists(&chunk));
}
