//! Arrays that no block of Avro makes, written: slices, and what lies beneath nulls.
//! The bytes are those that Python's `avro` writes for the values that stand beside them.
use arrow_array::{Array, Bitmap, ListArray, PrimitiveArray, StructArray, Utf8Array};
use arrow_core::{Box, Bytes, DataType, Field, Items, Metadata, Schema, Text};
use avro_schema::{AvroSchema, Block, Record};
use avro_types::{can_serialize, to_record_with};
use avro_write::{BoxSerializer, new_serializer, serialize};
use lending::StreamingIterator;
use std::alloc::Global;
use std::process::Abort;

fn column(
    rt: &impl Abort,
    alloc: Global,
    name: &str,
    data_type: DataType,
    is_nullable: bool,
) -> Field {
    let name = Text::try_from_str(alloc, name).expect(rt, "memory");
    Field::new(alloc, name, data_type, is_nullable)
}

/// The record of one column of the array's type, with null second where it is nullable.
fn record_of(rt: &impl Abort, alloc: Global, array: &Array, is_nullable: bool) -> Record {
    let data_type = array.data_type().try_clone(alloc).expect(rt, "memory");
    let field = column(rt, alloc, "a", data_type, is_nullable);
    let schema = Schema {
        fields: Items::from_vec(vec![in alloc; field].expect(rt, "memory")),
        metadata: Metadata::new(alloc),
    };
    let root = to_record_with(alloc, &schema, false).expect(rt, "a record");
    drop(schema);
    root
}

/// The rows of the array under a schema.
fn rows_under(rt: &impl Abort, alloc: Global, array: &Array, schema: &AvroSchema) -> Bytes {
    let serializer = new_serializer(alloc, array, schema).expect(rt, "a serializer");
    let mut block = Block {
        number_of_rows: serializer.left(),
        bytes: Bytes::new(alloc),
    };
    let mut serializers = [serializer];
    serialize(&mut serializers, &mut block).expect(rt, "rows");
    drop(serializers);
    block.bytes
}

/// The rows of the array under the record's field.
fn rows_of(rt: &impl Abort, alloc: Global, array: &Array, root: &Record) -> Bytes {
    match root.fields.as_slice() {
        [field] => rows_under(rt, alloc, array, &field.schema),
        _ => Bytes::new(alloc),
    }
}

/// Whether the rows of the array are these bytes.
fn is_written(
    rt: &impl Abort,
    alloc: Global,
    array: Array,
    is_nullable: bool,
    wanted: &[u8],
) -> bool {
    let root = record_of(rt, alloc, &array, is_nullable);
    let rows = rows_of(rt, alloc, &array, &root);
    drop((array, root));
    rows.as_slice() == wanted
}

/// The slots of an array but its first.
fn but_first(rt: &impl Abort, alloc: Global, array: Array) -> Array {
    assert!(rt; array.len() == 3);
    let slice = array.slice(alloc, 1, 2).expect(rt, "memory");
    drop(array);
    slice
}

fn longs(rt: &impl Abort, alloc: Global, numbers: &[i64], validity: Option<Bitmap>) -> Array {
    let values = Vec::from_slice(alloc, numbers).expect(rt, "memory");
    let array = PrimitiveArray::try_new(alloc, DataType::Int64, values, validity);
    Array::Int64(array.expect(rt, "longs"))
}

/// "h\u{e9}", "" and "b".
fn large_strings(rt: &impl Abort, alloc: Global) -> Array {
    let offsets: Vec<i64> = vec![in alloc; 0, 3, 3, 4].expect(rt, "memory");
    let bytes = vec![in alloc; 0x68, 0xc3, 0xa9, 0x62].expect(rt, "memory");
    let array = Utf8Array::try_new(alloc, DataType::LargeUtf8, offsets, bytes, None);
    Array::LargeUtf8(array.expect(rt, "strings"))
}

fn item(rt: &impl Abort, alloc: Global) -> Box<Field> {
    Box::new(alloc, column(rt, alloc, "item", DataType::Int64, false)).expect(rt, "memory")
}

/// [1, 2], [] and [3].
fn lists(rt: &impl Abort, alloc: Global) -> Array {
    let offsets: Vec<i32> = vec![in alloc; 0, 2, 2, 3].expect(rt, "memory");
    let items = longs(rt, alloc, &[1, 2, 3], None);
    let data_type = DataType::List(item(rt, alloc));
    let array = ListArray::try_new(alloc, data_type, offsets, items, None);
    Array::List(array.expect(rt, "lists"))
}

/// {x = 1}, {x = 2} and {x = 3}.
fn structs(rt: &impl Abort, alloc: Global) -> Array {
    let x = column(rt, alloc, "x", DataType::Int64, false);
    let fields = vec![in alloc; x].expect(rt, "memory");
    let children = vec![in alloc; longs(rt, alloc, &[1, 2, 3], None)].expect(rt, "memory");
    let data_type = DataType::Struct(Items::from_vec(fields));
    let array = StructArray::try_new(alloc, data_type, children, None);
    Array::Struct(array.expect(rt, "structs"))
}

/// "" and "b".
#[test]
fn a_slice_of_strings_is_written(rt: HostRuntime) {
    let array = but_first(&rt, rt.alloc(), large_strings(&rt, rt.alloc()));
    assert!(rt; is_written(&rt, rt.alloc(), array, false, b"\x00\x02\x62"));
}

/// [] and [3].
#[test]
fn a_slice_of_lists_is_written(rt: HostRuntime) {
    let array = but_first(&rt, rt.alloc(), lists(&rt, rt.alloc()));
    assert!(rt; is_written(&rt, rt.alloc(), array, false, b"\x00\x02\x06\x00"));
}

/// {x = 2} and {x = 3}.
#[test]
fn a_slice_of_structs_is_written(rt: HostRuntime) {
    let array = but_first(&rt, rt.alloc(), structs(&rt, rt.alloc()));
    assert!(rt; is_written(&rt, rt.alloc(), array, false, b"\x04\x06"));
}

/// 5 and null, which stands second: 7 lies beneath it.
fn five_and_null(rt: &impl Abort, alloc: Global) -> Array {
    let validity = Bitmap::try_from_slice(alloc, &[true, false]).expect(rt, "memory");
    longs(rt, alloc, &[5, 7], Some(validity))
}

#[test]
fn nothing_beneath_a_null_is_written(rt: HostRuntime) {
    let array = five_and_null(&rt, rt.alloc());
    assert!(rt; is_written(&rt, rt.alloc(), array, true, b"\x00\x0a\x02"));
}

/// Appends what the serializer shows of two items, and answers how many are left.
fn append_shown(rt: &impl Abort, shown: &mut Vec<u8>, serializer: &mut BoxSerializer<'_>) -> usize {
    StreamingIterator::advance(serializer).expect(rt, "an item");
    if let Some(item) = StreamingIterator::get(serializer) {
        shown.extend_from_slice(item).expect(rt, "memory");
    }
    if let Some(item) = StreamingIterator::next(serializer).expect(rt, "an item") {
        shown.extend_from_slice(item).expect(rt, "memory");
    }
    serializer.left()
}

/// Whether a serializer shows two longs one by one as these bytes, and then has none left.
fn shows_both(rt: &impl Abort, alloc: Global, array: &Array, wanted: &[u8]) -> bool {
    let mut shown = Vec::new(alloc);
    let made = new_serializer(alloc, array, &AvroSchema::Long(None));
    let mut serializer = made.expect(rt, "a serializer");
    let left = append_shown(rt, &mut shown, &mut serializer);
    drop(serializer);
    shown.as_slice() == wanted && left == 0
}

#[test]
fn items_are_shown_in_order(rt: HostRuntime) {
    let array = longs(&rt, rt.alloc(), &[1, -1], None);
    assert!(rt; shows_both(&rt, rt.alloc(), &array, b"\x02\x01"));
    drop(array);
}

#[test]
fn dates_can_be_serialized_and_floats_cannot(rt: HostRuntime) {
    assert!(rt; can_serialize(&DataType::Date32));
    assert!(rt; can_serialize(&DataType::FixedSizeBinary(1)));
    assert!(rt; !can_serialize(&DataType::FixedSizeBinary(0)));
    assert!(rt; !can_serialize(&DataType::Float32));
}
