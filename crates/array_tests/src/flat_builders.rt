//! Each builder without children, given a value and a null.

use arrow_array::{
    BinaryArray, BooleanArray, DictionaryArray, FixedSizeBinaryArray, PrimitiveArray, Utf8Array,
};
use arrow_builders::{
    Container, FixedItemsUtf8Dictionary, MutableArray, MutableBinaryArray, MutableBooleanArray,
    MutableFixedSizeBinaryArray, MutableNullArray, MutablePrimitiveArray, MutableUtf8Array,
};
use arrow_core::{DataType, MonthsDaysNs, NativeType};
use std::alloc::Global;
use std::process::Abort;

// The makers of a value and a null check that their builder is empty once it has given its array.

fn number_and_null<T: NativeType>(rt: &impl Abort, alloc: Global, number: T) -> PrimitiveArray<T> {
    let mut builder = MutablePrimitiveArray::with_capacity(alloc, 0).expect(rt, "memory");
    builder.push(Some(number)).expect(rt, "memory");
    builder.push(None).expect(rt, "memory");
    let array = builder.as_box().expect(rt, "memory");
    assert!(rt; builder.len() == 0);
    drop(builder);
    array
}

fn is_kept<T: NativeType>(rt: &impl Abort, alloc: Global, number: T) -> bool {
    let array = number_and_null(rt, alloc, number);
    let holds = array.len() == 2
        && (array.is_valid(0) && array.value(0) == number)
        && !array.is_valid(1);
    drop(array);
    holds
}

#[test]
fn numbers_and_intervals_are_kept(rt: HostRuntime) {
    assert!(rt; is_kept(&rt, rt.alloc(), 1_i8));
    assert!(rt; is_kept(&rt, rt.alloc(), 1_u64));
    assert!(rt; is_kept(&rt, rt.alloc(), 1_i128));
    let interval = MonthsDaysNs {
        months: 1,
        days: 2,
        ns: -3,
    };
    assert!(rt; is_kept(&rt, rt.alloc(), interval));
}

fn no_dates(rt: &impl Abort, alloc: Global) -> PrimitiveArray<i32> {
    let integers = MutablePrimitiveArray::<i32>::with_capacity(alloc, 0).expect(rt, "memory");
    let mut dates = integers.to(DataType::Date32);
    let array = dates.as_box().expect(rt, "memory");
    drop(dates);
    array
}

fn are_no_dates(array: PrimitiveArray<i32>) -> bool {
    let holds = matches!(array.data_type(), DataType::Date32) && array.len() == 0;
    drop(array);
    holds
}

#[test]
fn integers_become_dates(rt: HostRuntime) {
    assert!(rt; are_no_dates(no_dates(&rt, rt.alloc())));
}

fn true_and_null(rt: &impl Abort, alloc: Global) -> BooleanArray {
    let mut builder = MutableBooleanArray::with_capacity(alloc, 0).expect(rt, "memory");
    builder.push(Some(true)).expect(rt, "memory");
    builder.push(None).expect(rt, "memory");
    let array = builder.as_box().expect(rt, "memory");
    assert!(rt; builder.len() == 0);
    drop(builder);
    array
}

fn is_true_and_null(array: BooleanArray) -> bool {
    let holds = array.len() == 2 && array.is_valid(0) && array.value(0) && !array.is_valid(1);
    drop(array);
    holds
}

#[test]
fn booleans_are_kept(rt: HostRuntime) {
    assert!(rt; is_true_and_null(true_and_null(&rt, rt.alloc())));
}

/// "hi", a null, "é".
fn strings(rt: &impl Abort, alloc: Global) -> Utf8Array<i32> {
    let mut builder = MutableUtf8Array::<i32>::with_capacity(alloc, 0).expect(rt, "memory");
    builder.push(Some("hi")).expect(rt, "memory");
    builder.push(None).expect(rt, "memory");
    builder.push(Some("é")).expect(rt, "memory");
    let array = builder.as_box().expect(rt, "memory");
    assert!(rt; builder.len() == 0);
    drop(builder);
    array
}

fn are_strings(array: Utf8Array<i32>) -> bool {
    let holds = array.offsets() == [0, 2, 2, 4].as_slice() && array.values() == "hié".as_bytes();
    drop(array);
    holds
}

#[test]
fn strings_lie_one_after_another(rt: HostRuntime) {
    assert!(rt; are_strings(strings(&rt, rt.alloc())));
}

fn bytes_and_null(rt: &impl Abort, alloc: Global) -> BinaryArray<i64> {
    let mut builder = MutableBinaryArray::<i64>::with_capacity(alloc, 0).expect(rt, "memory");
    builder.push(Some(&[1, 255])).expect(rt, "memory");
    builder.push(None).expect(rt, "memory");
    let array = builder.as_box().expect(rt, "memory");
    assert!(rt; builder.len() == 0);
    drop(builder);
    array
}

fn are_bytes_and_null(array: BinaryArray<i64>) -> bool {
    let holds = array.len() == 2
        && (array.is_valid(0) && array.value(0) == [1, 255].as_slice())
        && !array.is_valid(1);
    drop(array);
    holds
}

#[test]
fn binary_values_are_kept(rt: HostRuntime) {
    assert!(rt; are_bytes_and_null(bytes_and_null(&rt, rt.alloc())));
}

/// Binary values of two bytes: a null takes two as well.
fn pair_and_null(rt: &impl Abort, alloc: Global) -> FixedSizeBinaryArray {
    let mut builder = MutableFixedSizeBinaryArray::with_capacity(alloc, 2, 0).expect(rt, "memory");
    assert!(rt; builder.size() == 2);
    builder.push(Some(&[1, 255])).expect(rt, "memory");
    builder.push(None).expect(rt, "memory");
    assert!(rt; builder.lengths().bytes == 4);
    let array = builder.as_box().expect(rt, "memory");
    assert!(rt; builder.len() == 0);
    drop(builder);
    array
}

fn is_pair_and_null(array: FixedSizeBinaryArray) -> bool {
    let holds = array.len() == 2
        && (array.is_valid(0) && array.value(0) == [1, 255].as_slice())
        && !array.is_valid(1);
    drop(array);
    holds
}

#[test]
fn fixed_size_binary_values_are_kept(rt: HostRuntime) {
    assert!(rt; is_pair_and_null(pair_and_null(&rt, rt.alloc())));
}

fn are_no_nulls(builder: MutableArray) -> bool {
    let holds = matches!(builder.data_type(), DataType::Null) && builder.len() == 0;
    drop(builder);
    holds
}

#[test]
fn nulls_are_counted(rt: HostRuntime) {
    assert!(rt; are_no_nulls(MutableArray::Null(MutableNullArray::new(rt.alloc()))));
    let mut builder = MutableNullArray::new(rt.alloc());
    builder.push_null().expect(&rt, "memory");
    let array = builder.as_box().expect(&rt, "memory");
    assert!(rt; builder.len() == 0);
    assert!(rt; array.len() == 1);
    drop((builder, array));
}

/// The strings A and B.
fn letters(rt: &impl Abort, alloc: Global) -> Utf8Array<i32> {
    let mut builder = MutableUtf8Array::with_capacity(alloc, 2).expect(rt, "memory");
    builder.push(Some("A")).expect(rt, "memory");
    builder.push(Some("B")).expect(rt, "memory");
    let array = builder.as_box().expect(rt, "memory");
    drop(builder);
    array
}

fn empty_dictionary(rt: &impl Abort, alloc: Global) -> FixedItemsUtf8Dictionary {
    FixedItemsUtf8Dictionary::with_capacity(alloc, letters(rt, alloc), 0).expect(rt, "memory")
}

/// Pushes the second of two values, and a null.
fn push_second_and_null(rt: &impl Abort, builder: &mut FixedItemsUtf8Dictionary) {
    assert!(rt; builder.values_len() == 2);
    builder.push_valid(1).expect(rt, "memory");
    builder.push_null().expect(rt, "memory");
}

fn given_keys(rt: &impl Abort, builder: &mut FixedItemsUtf8Dictionary) -> DictionaryArray {
    let array = builder.as_box().expect(rt, "memory");
    assert!(rt; builder.len() == 0);
    array
}

fn is_second_and_null(array: &DictionaryArray) -> bool {
    array.len() == 2 && array.keys().index(0) == Some(1) && !array.is_valid(1)
}

fn gives_second_and_null(rt: &impl Abort, builder: &mut FixedItemsUtf8Dictionary) -> bool {
    push_second_and_null(rt, builder);
    let array = given_keys(rt, builder);
    let is_given = is_second_and_null(&array);
    drop(array);
    is_given
}

/// Whether a builder gives them twice: `as_box` leaves it its values.
fn gives_them_twice(rt: &impl Abort, builder: &mut FixedItemsUtf8Dictionary) -> bool {
    let once = gives_second_and_null(rt, builder);
    let twice = gives_second_and_null(rt, builder);
    once && twice
}

#[test]
fn strings_are_known_by_their_keys(rt: HostRuntime) {
    let mut builder = empty_dictionary(&rt, rt.alloc());
    assert!(rt; gives_them_twice(&rt, &mut builder));
    drop(builder);
}
