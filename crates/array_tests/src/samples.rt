//! Arrays to test, and what is asked of them.

use arrow_columns::{
    Array, BinaryArray, Bitmap, BooleanArray, DictionaryArray, FixedSizeBinaryArray,
    FixedSizeListArray, Keys, LargeListArray, ListArray, NullArray, PrimitiveArray, StructArray,
    Utf8Array, equal,
};
use arrow_core::{
    Box, DataType, Error, Field, IntegerType, Items, NativeType, Reason, Result, Text,
};
use std::alloc::Global;
use std::process::Abort;

pub fn are_equal(left: Array, right: Array) -> bool {
    let are_equal = equal(&left, &right);
    drop((left, right));
    are_equal
}

/// Whether the array has two slots, and its slice of the first is the other array.
pub fn begins_with(rt: &impl Abort, alloc: Global, array: Array, first: Array) -> bool {
    assert!(rt; array.len() == 2);
    let slice = array.slice(alloc, 0, 1).expect(rt, "memory");
    drop(array);
    are_equal(slice, first)
}

/// Whether parts were refused, for this reason.
pub fn is_refused<T: Drop>(made: Result<T>, reason: Reason) -> bool {
    match made {
        Ok(_) => false,
        Err(error) => error == Error::InvalidArgumentError(reason),
    }
}

pub fn copied<T: Copy>(rt: &impl Abort, alloc: Global, items: &[T]) -> Vec<T> {
    Vec::from_slice(alloc, items).expect(rt, "memory")
}

pub fn nulls(rt: &impl Abort, alloc: Global, count: usize) -> Array {
    Array::Null(NullArray::try_new(alloc, DataType::Null, count).expect(rt, "nulls"))
}

pub fn booleans(rt: &impl Abort, alloc: Global, values: &[bool], valid: &[bool]) -> Array {
    let values = copied(rt, alloc, values);
    let validity = Bitmap::try_from_slice(alloc, valid).expect(rt, "memory");
    let array = BooleanArray::try_new(alloc, DataType::Boolean, values, Some(validity));
    Array::Boolean(array.expect(rt, "booleans"))
}

pub fn numbers<T: NativeType>(
    rt: &impl Abort,
    alloc: Global,
    data_type: DataType,
    values: &[T],
) -> PrimitiveArray<T> {
    let values = copied(rt, alloc, values);
    PrimitiveArray::try_new(alloc, data_type, values, None).expect(rt, "numbers")
}

pub fn integers(rt: &impl Abort, alloc: Global, values: &[i32]) -> Array {
    Array::Int32(numbers(rt, alloc, DataType::Int32, values))
}

pub fn dates(rt: &impl Abort, alloc: Global, values: &[i32]) -> Array {
    Array::Int32(numbers(rt, alloc, DataType::Date32, values))
}

/// The strings between these offsets into `AB`.
pub fn strings(rt: &impl Abort, alloc: Global, offsets: &[i64]) -> Array {
    let offsets = copied(rt, alloc, offsets);
    let values = copied(rt, alloc, b"AB");
    let array = Utf8Array::try_new(alloc, DataType::LargeUtf8, offsets, values, None);
    Array::LargeUtf8(array.expect(rt, "strings"))
}

/// The binary values between these offsets.
pub fn binaries(rt: &impl Abort, alloc: Global, offsets: &[i32], values: &[u8]) -> Array {
    let offsets = copied(rt, alloc, offsets);
    let values = copied(rt, alloc, values);
    let array = BinaryArray::try_new(alloc, DataType::Binary, offsets, values, None);
    Array::Binary(array.expect(rt, "binary values"))
}

pub fn try_fixed_binaries(
    rt: &impl Abort,
    alloc: Global,
    values: &[u8],
    size: usize,
) -> Result<FixedSizeBinaryArray> {
    let data_type = DataType::FixedSizeBinary(size);
    FixedSizeBinaryArray::try_new(alloc, data_type, copied(rt, alloc, values), None)
}

/// The binary values of this size.
pub fn fixed_binaries(rt: &impl Abort, alloc: Global, values: &[u8], size: usize) -> Array {
    let array = try_fixed_binaries(rt, alloc, values, size);
    Array::FixedSizeBinary(array.expect(rt, "binary values"))
}

fn item(rt: &impl Abort, alloc: Global) -> Field {
    let name = Text::try_from_str(alloc, "item").expect(rt, "memory");
    Field::new(alloc, name, DataType::Int32, true)
}

fn boxed_item(rt: &impl Abort, alloc: Global) -> Box<Field> {
    Box::new(alloc, item(rt, alloc)).expect(rt, "memory")
}

pub fn try_lists(rt: &impl Abort, alloc: Global, offsets: &[i32]) -> Result<ListArray> {
    let data_type = DataType::List(boxed_item(rt, alloc));
    let offsets = copied(rt, alloc, offsets);
    let values = integers(rt, alloc, &[1, 2]);
    ListArray::try_new(alloc, data_type, offsets, values, None)
}

/// The lists between these offsets into 1 and 2.
pub fn lists(rt: &impl Abort, alloc: Global, offsets: &[i32]) -> Array {
    Array::List(try_lists(rt, alloc, offsets).expect(rt, "lists"))
}

/// The same, with offsets of 64 bits.
pub fn large_lists(rt: &impl Abort, alloc: Global, offsets: &[i64]) -> Array {
    let data_type = DataType::LargeList(boxed_item(rt, alloc));
    let offsets = copied(rt, alloc, offsets);
    let values = integers(rt, alloc, &[1, 2]);
    let array = LargeListArray::try_new(alloc, data_type, offsets, values, None);
    Array::LargeList(array.expect(rt, "lists"))
}

pub fn try_pairs(rt: &impl Abort, alloc: Global, values: &[i32]) -> Result<FixedSizeListArray> {
    let data_type = DataType::FixedSizeList(boxed_item(rt, alloc), 2);
    FixedSizeListArray::try_new(alloc, data_type, integers(rt, alloc, values), None)
}

/// The lists of two of these integers each.
pub fn pairs(rt: &impl Abort, alloc: Global, values: &[i32]) -> Array {
    Array::FixedSizeList(try_pairs(rt, alloc, values).expect(rt, "pairs"))
}

/// The structs of these integers.
pub fn structs(rt: &impl Abort, alloc: Global, values: &[i32]) -> Array {
    let fields = vec![in alloc; item(rt, alloc)].expect(rt, "memory");
    let data_type = DataType::Struct(Items::from_vec(fields));
    let children = vec![in alloc; integers(rt, alloc, values)].expect(rt, "memory");
    let array = StructArray::try_new(alloc, data_type, children, None);
    Array::Struct(array.expect(rt, "structs"))
}

pub fn try_dictionary(rt: &impl Abort, alloc: Global, indices: &[i32]) -> Result<DictionaryArray> {
    let value_type = Box::new(alloc, DataType::LargeUtf8).expect(rt, "memory");
    let data_type = DataType::Dictionary(IntegerType::Int32, value_type, false);
    let values = strings(rt, alloc, &[0, 1, 2]);
    let keys = Keys::Int32(numbers(rt, alloc, DataType::Int32, indices));
    DictionaryArray::try_new(alloc, data_type, keys, values)
}

/// The strings A and B at these keys.
pub fn dictionary(rt: &impl Abort, alloc: Global, indices: &[i32]) -> Array {
    Array::Dictionary(try_dictionary(rt, alloc, indices).expect(rt, "a dictionary"))
}
