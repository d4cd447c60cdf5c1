//! Calls of the Avro writer, and what they tell.
use arrow_array::{Array, Bitmap, PrimitiveArray};
use arrow_core::{
    Box, DataType, Error, Field, IntegerType, IntervalUnit, Items, Metadata, MonthsDaysNs, Reason,
    Result, Schema, Text,
};
use avro_schema::{AvroSchema, Record};
use avro_types::{name_types, to_record};
use avro_write::new_serializer;
use std::alloc::Global;
use std::process::Abort;

fn column(rt: &impl Abort, alloc: Global, name: &str, data_type: DataType) -> Field {
    let name = Text::try_from_str(alloc, name).expect(rt, "memory");
    Field::new(alloc, name, data_type, false)
}

/// The record of one column of this type.
fn record_of_type(rt: &impl Abort, alloc: Global, data_type: DataType) -> Result<Record> {
    let a = column(rt, alloc, "a", data_type);
    let schema = Schema {
        fields: Items::from_vec(vec![in alloc; a].expect(rt, "memory")),
        metadata: Metadata::new(alloc),
    };
    let root = to_record(alloc, &schema);
    drop(schema);
    root
}

/// The name of the type of a record's first field.
fn name_of_first(root: &Record) -> Option<&str> {
    match &root.fields.as_slice().first()?.schema {
        AvroSchema::Record(record) => Some(record.name.as_str()),
        AvroSchema::Fixed(fixed) => Some(fixed.name.as_str()),
        _ => None,
    }
}

fn is_first_named(root: Result<Record>, name: &str) -> bool {
    match root {
        Ok(root) => {
            let is_named = name_of_first(&root) == Some(name);
            drop(root);
            is_named
        }
        Err(_) => false,
    }
}

fn struct_of_x(rt: &impl Abort, alloc: Global) -> Result<Record> {
    let x = column(rt, alloc, "x", DataType::Int32);
    let fields = vec![in alloc; x].expect(rt, "memory");
    record_of_type(rt, alloc, DataType::Struct(Items::from_vec(fields)))
}

fn bytes(rt: &impl Abort, alloc: Global) -> Result<Record> {
    record_of_type(rt, alloc, DataType::FixedSizeBinary(2))
}

fn named_bytes(rt: &impl Abort, alloc: Global) -> Result<Record> {
    name_types(alloc, bytes(rt, alloc).expect(rt, "a record"), "root")
}

fn dictionary(rt: &impl Abort, alloc: Global) -> Result<Record> {
    let values = Box::new(alloc, DataType::Utf8).expect(rt, "memory");
    let data_type = DataType::Dictionary(IntegerType::Int32, values, false);
    record_of_type(rt, alloc, data_type)
}

#[test]
fn records_and_fixed_types_have_names(rt: HostRuntime) {
    let alloc = rt.alloc();
    assert!(rt; is_first_named(struct_of_x(&rt, alloc), "r1"));
    assert!(rt; is_first_named(bytes(&rt, alloc), ""));
    assert!(rt; is_first_named(named_bytes(&rt, alloc), "f1"));
}

#[test]
fn dictionaries_have_no_avro_type(rt: HostRuntime) {
    let refused = dictionary(&rt, rt.alloc()).err();
    assert!(rt; refused == Some(Error::NotYetImplemented(Reason::NoAvroType)));
}

fn interval() -> DataType {
    DataType::Interval(IntervalUnit::MonthDayNano)
}

fn one_nanosecond(rt: &impl Abort, alloc: Global) -> Array {
    let nanosecond = MonthsDaysNs {
        months: 0,
        days: 0,
        ns: 1,
    };
    let values = vec![in alloc; nanosecond].expect(rt, "memory");
    let array = PrimitiveArray::try_new(alloc, interval(), values, None);
    Array::MonthDayNano(array.expect(rt, "an interval"))
}

/// Why a serializer of the record's field takes no such array.
fn refusal(alloc: Global, array: &Array, root: &Record) -> Option<Error> {
    match root.fields.as_slice() {
        [field] => new_serializer(alloc, array, &field.schema).err(),
        _ => None,
    }
}

#[test]
fn a_nanosecond_is_no_duration(rt: HostRuntime) {
    let array = one_nanosecond(&rt, rt.alloc());
    let root = record_of_type(&rt, rt.alloc(), interval()).expect(&rt, "a record");
    let refused = refusal(rt.alloc(), &array, &root);
    drop((array, root));
    assert!(rt; refused == Some(Error::InvalidArgumentError(Reason::Interval)));
}

fn a_null(rt: &impl Abort, alloc: Global) -> Array {
    let values = vec![in alloc; 0_i32].expect(rt, "memory");
    let validity = Bitmap::try_from_slice(alloc, &[false]).expect(rt, "memory");
    let array = PrimitiveArray::try_new(alloc, DataType::Int32, values, Some(validity));
    Array::Int32(array.expect(rt, "a null"))
}

#[test]
fn a_null_needs_a_union(rt: HostRuntime) {
    let array = a_null(&rt, rt.alloc());
    let refused = new_serializer(rt.alloc(), &array, &AvroSchema::Int(None)).err();
    drop(array);
    assert!(rt; refused == Some(Error::InvalidArgumentError(Reason::NullUnderRequired)));
}
