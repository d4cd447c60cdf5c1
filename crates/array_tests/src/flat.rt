//! The values of flat arrays, and chunks.

use crate::samples::{copied, integers, is_refused, numbers};
use arrow_columns::{Array, Bitmap, BooleanArray, Chunk, PrimitiveArray, Utf8Array};
use arrow_core::{DataType, IntervalUnit, MonthsDaysNs, NativeType, Reason, Result};
use std::alloc::Global;
use std::process::Abort;

/// "hello", a null, "hello2".
fn hello_twice(rt: &impl Abort, alloc: Global) -> Utf8Array<i32> {
    let offsets = copied(rt, alloc, &[0, 5, 5, 11]);
    let values = copied(rt, alloc, b"hellohello2");
    let validity = Bitmap::try_from_slice(alloc, &[true, false, true]).expect(rt, "memory");
    let array = Utf8Array::try_new(alloc, DataType::Utf8, offsets, values, Some(validity));
    array.expect(rt, "strings")
}

fn are_hello_twice(array: Utf8Array<i32>) -> bool {
    let holds = array.len() == 3
        && (array.is_valid(0) && !array.is_valid(1) && array.is_valid(2))
        && (array.value(0) == "hello" && array.value(2) == "hello2");
    drop(array);
    holds
}

#[test]
fn strings_lie_between_offsets(rt: HostRuntime) {
    assert!(rt; are_hello_twice(hello_twice(&rt, rt.alloc())));
}

fn without_first(rt: &impl Abort, alloc: Global, array: Utf8Array<i32>) -> Utf8Array<i32> {
    assert!(rt; array.len() == 3);
    let slice = array.slice(alloc, 1, 2).expect(rt, "memory");
    drop(array);
    slice
}

fn are_null_and_hello(slice: Utf8Array<i32>) -> bool {
    let holds = slice.len() == 2
        && (!slice.is_valid(0) && slice.value(1) == "hello2")
        && slice.offsets() == [5, 5, 11].as_slice();
    drop(slice);
    holds
}

#[test]
fn a_slice_of_strings_cuts_their_offsets(rt: HostRuntime) {
    let slice = without_first(&rt, rt.alloc(), hello_twice(&rt, rt.alloc()));
    assert!(rt; are_null_and_hello(slice));
}

/// The two bytes of a character, a string each.
fn try_halves(rt: &impl Abort, alloc: Global) -> Result<Utf8Array<i32>> {
    let offsets = copied(rt, alloc, &[0, 1, 2]);
    let values = copied(rt, alloc, &[0xcf, 0x80]);
    Utf8Array::try_new(alloc, DataType::Utf8, offsets, values, None)
}

#[test]
fn a_character_that_offsets_cut_is_refused(rt: HostRuntime) {
    assert!(rt; is_refused(try_halves(&rt, rt.alloc()), Reason::ArrayParts));
}

fn two_booleans(rt: &impl Abort, alloc: Global) -> BooleanArray {
    let values = copied(rt, alloc, &[true, false]);
    BooleanArray::try_new(alloc, DataType::Boolean, values, None).expect(rt, "booleans")
}

fn second_boolean(rt: &impl Abort, alloc: Global, array: BooleanArray) -> BooleanArray {
    assert!(rt; array.len() == 2);
    let slice = array.slice(alloc, 1, 1).expect(rt, "memory");
    drop(array);
    slice
}

fn is_false(slice: BooleanArray) -> bool {
    let holds = slice.len() == 1 && !slice.value(0);
    drop(slice);
    holds
}

#[test]
fn a_slice_of_booleans_begins_at_its_offset(rt: HostRuntime) {
    assert!(rt; is_false(second_boolean(&rt, rt.alloc(), two_booleans(&rt, rt.alloc()))));
}

const MONTH: MonthsDaysNs = MonthsDaysNs {
    months: 1,
    days: 0,
    ns: 0,
};

const DAY: MonthsDaysNs = MonthsDaysNs {
    months: 0,
    days: 1,
    ns: 0,
};

fn second_of<T: NativeType>(
    rt: &impl Abort,
    alloc: Global,
    array: PrimitiveArray<T>,
) -> PrimitiveArray<T> {
    assert!(rt; array.len() == 2);
    let slice = array.slice(alloc, 1, 1).expect(rt, "memory");
    drop(array);
    slice
}

fn is_one<T: NativeType>(slice: PrimitiveArray<T>, number: T) -> bool {
    let holds = slice.len() == 1 && slice.value(0) == number;
    drop(slice);
    holds
}

/// Whether the array of two numbers has a slice from the second on that shows it.
fn shows<T: NativeType>(
    rt: &impl Abort,
    alloc: Global,
    data_type: DataType,
    two: &[T],
    second: T,
) -> bool {
    let array = numbers(rt, alloc, data_type, two);
    is_one(second_of(rt, alloc, array), second)
}

#[test]
fn slices_of_integers_of_any_width_show_them(rt: HostRuntime) {
    let alloc = rt.alloc();
    assert!(rt; shows(&rt, alloc, DataType::Int8, &[1_i8, -1], -1));
    assert!(rt; shows(&rt, alloc, DataType::Int16, &[1_i16, -1], -1));
    assert!(rt; shows(&rt, alloc, DataType::Int32, &[1_i32, -1], -1));
    assert!(rt; shows(&rt, alloc, DataType::Int64, &[1_i64, -1], -1));
    assert!(rt; shows(&rt, alloc, DataType::UInt8, &[1, u8::MAX], u8::MAX));
    assert!(rt; shows(&rt, alloc, DataType::UInt16, &[1, u16::MAX], u16::MAX));
    assert!(rt; shows(&rt, alloc, DataType::UInt32, &[1, u32::MAX], u32::MAX));
    assert!(rt; shows(&rt, alloc, DataType::UInt64, &[1, u64::MAX], u64::MAX));
    assert!(rt; shows(&rt, alloc, DataType::Decimal(32, 32), &[1_i128, -1], -1));
    let interval = DataType::Interval(IntervalUnit::MonthDayNano);
    assert!(rt; shows(&rt, alloc, interval, &[MONTH, DAY], DAY));
}

/// Columns of two slots and of one.
fn uneven(rt: &impl Abort, alloc: Global) -> Vec<Array> {
    let booleans = Array::Boolean(two_booleans(rt, alloc));
    vec![in alloc; booleans, integers(rt, alloc, &[1])].expect(rt, "memory")
}

#[test]
fn the_columns_of_a_chunk_have_one_length(rt: HostRuntime) {
    assert!(rt; is_refused(Chunk::try_new(uneven(&rt, rt.alloc())), Reason::Lengths));
}

fn chunk(rt: &impl Abort, alloc: Global) -> Chunk {
    let booleans = Array::Boolean(two_booleans(rt, alloc));
    Chunk::try_new(vec![in alloc; booleans].expect(rt, "memory")).expect(rt, "a chunk")
}

fn has_one_column_of_two(chunk: Chunk) -> bool {
    let count = chunk.len();
    let arrays = chunk.into_arrays();
    let holds = arrays.len() == 1 && count == 2;
    drop(arrays);
    holds
}

#[test]
fn a_chunk_gives_its_columns_back(rt: HostRuntime) {
    assert!(rt; has_one_column_of_two(chunk(&rt, rt.alloc())));
}
