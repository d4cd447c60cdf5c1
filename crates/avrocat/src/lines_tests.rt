//! The lines of arrays of binary values, lists, structs and intervals, made without a block.

use arrow_columns::{Array, BinaryArray, ListArray, PrimitiveArray, StructArray};
use arrow_core::{Box, DataType, Field, IntervalUnit, Items, MonthsDaysNs, Text};
use avrocat_commands::Lines;
use std::alloc::Global;
use std::process::Abort;

/// Whether this is the line of the column under the name `a`.
fn has_line(rt: &impl Abort, alloc: Global, column: Array, line: &str) -> bool {
    let mut lines = Lines::new(alloc);
    lines.push_column("a", &column).expect(rt, "memory");
    lines.as_slice() == line.as_bytes()
}

fn copied<T: Copy>(rt: &impl Abort, alloc: Global, items: &[T]) -> Vec<T> {
    Vec::from_slice(alloc, items).expect(rt, "memory")
}

fn numbers(rt: &impl Abort, alloc: Global, values: &[i32]) -> Array {
    let values = copied(rt, alloc, values);
    let array = PrimitiveArray::try_new(alloc, DataType::Int32, values, None);
    Array::Int32(array.expect(rt, "numbers"))
}

fn item(rt: &impl Abort, alloc: Global) -> Field {
    let name = Text::try_from_str(alloc, "item").expect(rt, "memory");
    Field::new(alloc, name, DataType::Int32, false)
}

fn binaries(rt: &impl Abort, alloc: Global) -> Array {
    let offsets = copied(rt, alloc, &[0, 2, 2]);
    let values = copied(rt, alloc, &[1, 255]);
    let array = BinaryArray::try_new(alloc, DataType::Binary, offsets, values, None);
    Array::Binary(array.expect(rt, "binary values"))
}

fn lists(rt: &impl Abort, alloc: Global) -> Array {
    let data_type = DataType::List(Box::new(alloc, item(rt, alloc)).expect(rt, "memory"));
    let offsets = copied(rt, alloc, &[0, 2, 2]);
    let values = numbers(rt, alloc, &[1, 2]);
    let array = ListArray::try_new(alloc, data_type, offsets, values, None);
    Array::List(array.expect(rt, "lists"))
}

fn structs(rt: &impl Abort, alloc: Global) -> Array {
    let fields = vec![in alloc; item(rt, alloc), item(rt, alloc)].expect(rt, "memory");
    let data_type = DataType::Struct(Items::from_vec(fields));
    let values = vec![in alloc; numbers(rt, alloc, &[1, -2]), numbers(rt, alloc, &[3, 4])];
    let array = StructArray::try_new(alloc, data_type, values.expect(rt, "memory"), None);
    Array::Struct(array.expect(rt, "structs"))
}

fn intervals(rt: &impl Abort, alloc: Global) -> Array {
    let interval = MonthsDaysNs {
        months: 1,
        days: 2,
        ns: -1_000_000,
    };
    let data_type = DataType::Interval(IntervalUnit::MonthDayNano);
    let array = PrimitiveArray::try_new(alloc, data_type, copied(rt, alloc, &[interval]), None);
    Array::MonthDayNano(array.expect(rt, "intervals"))
}

#[test]
fn bytes_are_shown_in_hexadecimal(rt: HostRuntime) {
    let alloc = rt.alloc();
    assert!(rt; has_line(&rt, alloc, binaries(&rt, alloc), "a:[0x01ff,0x]\n"));
}

#[test]
fn lists_are_shown_in_brackets(rt: HostRuntime) {
    let alloc = rt.alloc();
    assert!(rt; has_line(&rt, alloc, lists(&rt, alloc), "a:[[1,2],[]]\n"));
}

#[test]
fn structs_are_shown_in_braces(rt: HostRuntime) {
    let alloc = rt.alloc();
    assert!(rt; has_line(&rt, alloc, structs(&rt, alloc), "a:[{1,3},{-2,4}]\n"));
}

#[test]
fn an_interval_is_shown_as_a_struct(rt: HostRuntime) {
    let alloc = rt.alloc();
    assert!(rt; has_line(&rt, alloc, intervals(&rt, alloc), "a:[{1,2,-1000000}]\n"));
}
