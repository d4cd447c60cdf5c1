//! Columns to test.

use arrow_columns::{
    Array, Bitmap, BooleanArray, Chunk, DictionaryArray, FixedSizeListArray, Keys, LargeListArray,
    ListArray, NullArray, PrimitiveArray, StructArray, Utf8Array,
};
use arrow_core::{Box, DataType, Field, IntegerType, Items, NativeType, Text, TimeUnit};
use json_text::{push_slot, push_slots};
use std::alloc::Global;
use std::process::Abort;

pub fn copied<T: Copy>(rt: &impl Abort, alloc: Global, items: &[T]) -> Vec<T> {
    Vec::from_slice(alloc, items).expect(rt, "memory")
}

/// Whether slot `i` has this text.
pub fn slot_is(rt: &impl Abort, alloc: Global, array: Array, i: usize, text: &str) -> bool {
    assert!(rt; i < array.len());
    let mut out = Vec::new(alloc);
    push_slot(&mut out, &array, i).expect(rt, "memory");
    drop(array);
    out.as_slice() == text.as_bytes()
}

/// Whether the slots have these texts, with commas between them.
pub fn slots_are(rt: &impl Abort, alloc: Global, array: Array, texts: &str) -> bool {
    let mut out = Vec::new(alloc);
    push_slots(&mut out, &array).expect(rt, "memory");
    drop(array);
    out.as_slice() == texts.as_bytes()
}

/// A bitmap that says so of each slot.
pub fn bitmap(rt: &impl Abort, alloc: Global, valid: &[bool]) -> Bitmap {
    Bitmap::try_from_slice(alloc, valid).expect(rt, "memory")
}

pub fn nulls(rt: &impl Abort, alloc: Global) -> Array {
    Array::Null(NullArray::try_new(alloc, DataType::Null, 1).expect(rt, "nulls"))
}

/// True, a null over true, and false.
pub fn booleans(rt: &impl Abort, alloc: Global) -> Array {
    let values = copied(rt, alloc, &[true, true, false]);
    let validity = Some(bitmap(rt, alloc, &[true, false, true]));
    let array = BooleanArray::try_new(alloc, DataType::Boolean, values, validity);
    Array::Boolean(array.expect(rt, "booleans"))
}

pub fn numbers<T: NativeType>(
    rt: &impl Abort,
    alloc: Global,
    data_type: DataType,
    values: &[T],
) -> PrimitiveArray<T> {
    let values = copied(rt, alloc, values);
    PrimitiveArray::try_new(alloc, data_type, values, None).expect(rt, "numbers")
}

pub fn longs(rt: &impl Abort, alloc: Global, values: &[i64]) -> Array {
    Array::Int64(numbers(rt, alloc, DataType::Int64, values))
}

pub fn days(rt: &impl Abort, alloc: Global, day: i32) -> Array {
    Array::Int32(numbers(rt, alloc, DataType::Date32, &[day]))
}

/// A null over a day of the year 10000.
pub fn hidden_day(rt: &impl Abort, alloc: Global) -> Array {
    let values = copied(rt, alloc, &[2932897i32]);
    let validity = Some(bitmap(rt, alloc, &[false]));
    let array = PrimitiveArray::try_new(alloc, DataType::Date32, values, validity);
    Array::Int32(array.expect(rt, "days"))
}

/// A timestamp in microseconds, in this zone, if it isn't empty.
pub fn timestamp(rt: &impl Abort, alloc: Global, zone: &str, value: i64) -> Array {
    let zone = if zone.is_empty() {
        None
    } else {
        Some(Text::try_from_str(alloc, zone).expect(rt, "memory"))
    };
    let data_type = DataType::Timestamp(TimeUnit::Microsecond, zone);
    Array::Int64(numbers(rt, alloc, data_type, &[value]))
}

/// The one string.
pub fn string(rt: &impl Abort, alloc: Global, value: &str) -> Array {
    let values = copied(rt, alloc, value.as_bytes());
    let offsets = copied(rt, alloc, &[0, value.len() as i64]);
    let array = Utf8Array::try_new(alloc, DataType::LargeUtf8, offsets, values, None);
    Array::LargeUtf8(array.expect(rt, "a string"))
}

/// The one string `x`, with offsets of 32 bits.
pub fn short_string(rt: &impl Abort, alloc: Global) -> Array {
    let values = copied(rt, alloc, b"x");
    let offsets = copied(rt, alloc, &[0i32, 1]);
    let array = Utf8Array::try_new(alloc, DataType::Utf8, offsets, values, None);
    Array::Utf8(array.expect(rt, "a string"))
}

pub fn field(rt: &impl Abort, alloc: Global, name: &str, data_type: DataType) -> Field {
    let name = Text::try_from_str(alloc, name).expect(rt, "memory");
    Field::new(alloc, name, data_type, true)
}

fn item(rt: &impl Abort, alloc: Global) -> Box<Field> {
    Box::new(alloc, field(rt, alloc, "item", DataType::Int64)).expect(rt, "memory")
}

/// The list between these offsets into a day of the year 10000 and 1970-01-01.
pub fn list_of_days(rt: &impl Abort, alloc: Global, offsets: &[i32]) -> Array {
    let item = Box::new(alloc, field(rt, alloc, "item", DataType::Date32));
    let data_type = DataType::List(item.expect(rt, "memory"));
    let offsets = copied(rt, alloc, offsets);
    let values = Array::Int32(numbers(rt, alloc, DataType::Date32, &[2932897i32, 0]));
    let array = ListArray::try_new(alloc, data_type, offsets, values, None);
    Array::List(array.expect(rt, "a list"))
}

/// The lists between these offsets into 1, 2, 3; the second is null.
pub fn lists(rt: &impl Abort, alloc: Global, offsets: &[i32]) -> Array {
    let data_type = DataType::List(item(rt, alloc));
    let offsets = copied(rt, alloc, offsets);
    let values = longs(rt, alloc, &[1, 2, 3]);
    let validity = Some(bitmap(rt, alloc, &[true, false]));
    let array = ListArray::try_new(alloc, data_type, offsets, values, validity);
    Array::List(array.expect(rt, "lists"))
}

/// 1 and a null over 2 in one list.
pub fn list_with_a_null(rt: &impl Abort, alloc: Global) -> Array {
    let values = copied(rt, alloc, &[1i64, 2]);
    let validity = Some(bitmap(rt, alloc, &[true, false]));
    let values = PrimitiveArray::try_new(alloc, DataType::Int64, values, validity);
    let values = Array::Int64(values.expect(rt, "numbers"));
    let offsets = copied(rt, alloc, &[0i32, 2]);
    let array = ListArray::try_new(
        alloc,
        DataType::List(item(rt, alloc)),
        offsets,
        values,
        None,
    );
    Array::List(array.expect(rt, "lists"))
}

/// 1, 2, 3 in one list.
pub fn large_list(rt: &impl Abort, alloc: Global) -> Array {
    let data_type = DataType::LargeList(item(rt, alloc));
    let offsets = copied(rt, alloc, &[0i64, 3]);
    let values = longs(rt, alloc, &[1, 2, 3]);
    let array = LargeListArray::try_new(alloc, data_type, offsets, values, None);
    Array::LargeList(array.expect(rt, "lists"))
}

/// 1, 2 and 3, 4.
pub fn pairs(rt: &impl Abort, alloc: Global) -> Array {
    let data_type = DataType::FixedSizeList(item(rt, alloc), 2);
    let values = longs(rt, alloc, &[1, 2, 3, 4]);
    let array = FixedSizeListArray::try_new(alloc, data_type, values, None);
    Array::FixedSizeList(array.expect(rt, "pairs"))
}

/// A struct of a long `a"` and a string `b`.
pub fn structs(rt: &impl Abort, alloc: Global) -> Array {
    structs_named(rt, alloc, "a\"")
}

/// A struct of a long of this name and a string `b`.
pub fn structs_named(rt: &impl Abort, alloc: Global, name: &str) -> Array {
    let fields = [
        field(rt, alloc, name, DataType::Int64),
        field(rt, alloc, "b", DataType::LargeUtf8),
    ];
    let data_type = DataType::Struct(Items::from_vec(Vec::from_array(alloc, fields).expect(
        rt, "memory",
    )));
    let children = [longs(rt, alloc, &[-5]), string(rt, alloc, "x")];
    let children = Vec::from_array(alloc, children).expect(rt, "memory");
    let array = StructArray::try_new(alloc, data_type, children, None);
    Array::Struct(array.expect(rt, "structs"))
}

/// A struct of a `p` and a `q"`.
pub fn struct_of(rt: &impl Abort, alloc: Global, p: Array, q: Array) -> Array {
    let first = p.data_type().try_clone(alloc).expect(rt, "memory");
    let second = q.data_type().try_clone(alloc).expect(rt, "memory");
    let fields = [
        field(rt, alloc, "p", first),
        field(rt, alloc, "q\"", second),
    ];
    let data_type = DataType::Struct(Items::from_vec(Vec::from_array(alloc, fields).expect(
        rt, "memory",
    )));
    let children = Vec::from_array(alloc, [p, q]).expect(rt, "memory");
    let array = StructArray::try_new(alloc, data_type, children, None);
    Array::Struct(array.expect(rt, "structs"))
}

/// The string `x` by a key.
pub fn dictionary(rt: &impl Abort, alloc: Global) -> Array {
    let value_type = Box::new(alloc, DataType::LargeUtf8).expect(rt, "memory");
    let data_type = DataType::Dictionary(IntegerType::UInt8, value_type, false);
    let keys = Keys::UInt8(numbers(rt, alloc, DataType::UInt8, &[0u8]));
    let array = DictionaryArray::try_new(alloc, data_type, keys, string(rt, alloc, "x"));
    Array::Dictionary(array.expect(rt, "a dictionary"))
}

/// The chunk of one array.
pub fn chunk(rt: &impl Abort, alloc: Global, array: Array) -> Chunk {
    let arrays = vec![in alloc; array].expect(rt, "memory");
    Chunk::try_new(arrays).expect(rt, "one length")
}
