//! Blocks into columns.

use crate::samples::{avro_field, block, or_null, text};
use arrow_array::{Array, Chunk, PrimitiveArray, Utf8Array};
use arrow_core::{DataType, Error, Field, Items, Reason};
use avro_decode::{Decoder, deserialize};
use avro_schema::{AvroField, AvroSchema, IntLogical};
use std::alloc::Global;
use std::process::Abort;

/// The rows 1 and "hi", and -2 and null.
pub(crate) const ROWS: &[u8] = b"\x02\x02\x04hi\x03\x00";

/// An int `a`, and a string or null `b`.
pub(crate) fn avro_fields(rt: &impl Abort, alloc: Global) -> Vec<AvroField> {
    let a = avro_field(rt, alloc, "a", AvroSchema::Int(None));
    let string = or_null(rt, alloc, AvroSchema::String(None));
    let b = avro_field(rt, alloc, "b", string);
    vec![in alloc; a, b].expect(rt, "memory")
}

/// Their columns, where `a` has this type.
pub(crate) fn fields(rt: &impl Abort, alloc: Global, number: DataType) -> Vec<Field> {
    let a = Field::new(alloc, text(rt, alloc, "a"), number, false);
    let b = Field::new(alloc, text(rt, alloc, "b"), DataType::Utf8, true);
    vec![in alloc; a, b].expect(rt, "memory")
}

/// The columns of the two rows, where `a` is to have this type, under this projection.
fn columns(
    rt: &impl Abort,
    alloc: Global,
    number: DataType,
    projection: &[bool],
) -> Result<Chunk, Error> {
    let block = block(rt, alloc, 2, ROWS);
    let avro_fields = avro_fields(rt, alloc);
    let fields = fields(rt, alloc, number);
    deserialize(
        alloc,
        &block,
        fields.as_slice(),
        avro_fields.as_slice(),
        projection,
    )
}

/// Whether these are 1 and -2.
pub(crate) fn are_numbers(numbers: &PrimitiveArray<i32>) -> bool {
    numbers.len() == 2
        && (numbers.is_valid(0) && numbers.value(0) == 1)
        && (numbers.is_valid(1) && numbers.value(1) == -2)
}

/// Whether these are "hi" and null.
fn are_strings(strings: &Utf8Array<i32>) -> bool {
    strings.len() == 2 && strings.is_valid(0) && strings.value(0) == "hi" && !strings.is_valid(1)
}

pub(crate) fn are_columns(chunk: &Chunk) -> bool {
    match chunk.arrays() {
        [Array::Int32(numbers), Array::Utf8(strings)] => {
            are_numbers(numbers) && are_strings(strings)
        }
        _ => false,
    }
}

/// A decoder of such rows.
fn decoder(rt: &impl Abort, alloc: Global) -> Decoder {
    let fields = fields(rt, alloc, DataType::Int32);
    let avro_fields = Items::from_vec(avro_fields(rt, alloc));
    let projection = vec![in alloc; true; 2].expect(rt, "memory");
    Decoder::new(alloc, fields, avro_fields, projection).expect(rt, "a decoder")
}

fn is_empty(chunk: &Chunk) -> bool {
    chunk.len() == 0 && chunk.arrays().len() == 2
}

#[test]
fn a_block_holds_no_row_of_those_before(rt: HostRuntime) {
    let alloc = rt.alloc();
    let mut decoder = decoder(&rt, alloc);
    let rows = block(&rt, alloc, 2, ROWS);
    assert!(rt; are_columns(&decoder.decode(&rows).expect(&rt, "two rows")));
    assert!(rt; are_columns(&decoder.decode(&rows).expect(&rt, "two rows")));
    let none = block(&rt, alloc, 0, b"");
    assert!(rt; is_empty(&decoder.decode(&none).expect(&rt, "no row")));
}

#[test]
fn rows_of_a_refused_block_are_dropped(rt: HostRuntime) {
    let alloc = rt.alloc();
    let mut decoder = decoder(&rt, alloc);
    // The second row is cut short.
    let cut = block(&rt, alloc, 2, b"\x02\x02\x04hi\x03");
    let wrong = decoder.decode(&cut).err();
    assert!(rt; wrong == Some(Error::ExternalFormat(Reason::BlockBytes)));
    let few = decoder.decode(&block(&rt, alloc, 2, b"\x02")).err();
    assert!(rt; few == Some(Error::ExternalFormat(Reason::Rows)));
    let rows = block(&rt, alloc, 2, ROWS);
    assert!(rt; are_columns(&decoder.decode(&rows).expect(&rt, "two rows")));
}

#[test]
fn rows_become_columns(rt: HostRuntime) {
    let chunk = columns(&rt, rt.alloc(), DataType::Int32, &[true, true]).expect(&rt, "two rows");
    assert!(rt; are_columns(&chunk));
}

#[test]
fn a_wider_column_is_refused(rt: HostRuntime) {
    let refused = columns(&rt, rt.alloc(), DataType::Int64, &[true, true]).err();
    assert!(rt; refused == Some(Error::InvalidArgumentError(Reason::FieldType)));
}

#[test]
fn a_shorter_projection_is_refused(rt: HostRuntime) {
    let refused = columns(&rt, rt.alloc(), DataType::Int32, &[true]).err();
    assert!(rt; refused == Some(Error::InvalidArgumentError(Reason::Lengths)));
}

/// Why a date has no column of integers.
fn refused_date(rt: &impl Abort, alloc: Global) -> Option<Error> {
    let date = avro_field(rt, alloc, "a", AvroSchema::Int(Some(IntLogical::Date)));
    let field = Field::new(alloc, text(rt, alloc, "a"), DataType::Int32, false);
    let block = block(rt, alloc, 1, b"\x02");
    deserialize(alloc, &block, &[field], &[date], &[true]).err()
}

#[test]
fn an_integer_is_no_date(rt: HostRuntime) {
    let refused = refused_date(&rt, rt.alloc());
    assert!(rt; refused == Some(Error::InvalidArgumentError(Reason::FieldType)));
}
