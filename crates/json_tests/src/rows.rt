//! Rows as JSON objects, and JSON arrays of them.

use crate::samples::{booleans, chunk, days, field, longs, numbers};
use arrow_base::MemorySink;
use arrow_columns::{Array, Chunk};
use arrow_core::{DataType, Error, Items, Metadata, Reason, Result, Schema, TimeUnit};
use json_write::{RecordSerializer, write};
use lending::FallibleStreamingIterator;
use std::alloc::Global;
use std::process::Abort;

/// The schema of one column of this name.
fn schema(rt: &impl Abort, alloc: Global, name: &str) -> Schema {
    let fields = vec![in alloc; field(rt, alloc, name, DataType::Null)].expect(rt, "memory");
    Schema {
        fields: Items::from_vec(fields),
        metadata: Metadata::new(alloc),
    }
}

fn rows<'a>(rt: &impl Abort, alloc: Global, chunk: &'a Chunk) -> RecordSerializer<'a> {
    let buffer = Vec::new(alloc);
    RecordSerializer::new(alloc, schema(rt, alloc, "a\""), chunk, buffer).expect(rt, "rows")
}

#[test]
fn a_row_is_an_object_with_escaped_names(rt: HostRuntime) {
    let alloc = rt.alloc();
    let chunk = chunk(&rt, alloc, longs(&rt, alloc, &[1]));
    let mut rows = rows(&rt, alloc, &chunk);
    assert!(rt; rows.get() == None);
    assert!(rt; rows.next() == Ok(Some(b"{\"a\\\"\":1}".as_slice())));
    assert!(rt; rows.next() == Ok(None));
    drop(rows);
    drop(chunk);
}

#[test]
fn rows_are_written_as_an_array(rt: HostRuntime) {
    let alloc = rt.alloc();
    let chunk = chunk(&rt, alloc, booleans(&rt, alloc));
    let none = Items::from_vec(Vec::new(alloc));
    let mut sink = MemorySink::with_room(alloc, 64, 3, none).expect(&rt, "memory");
    assert!(rt; write(&mut sink, rows(&rt, alloc, &chunk)) == Ok(()));
    assert!(rt; sink.held() == b"[{\"a\\\"\":true},{\"a\\\"\":null},{\"a\\\"\":false}]".as_slice());
    drop((chunk, sink));
}

/// Why the array makes no rows, if it makes none.
fn outcome(rt: &impl Abort, alloc: Global, array: Array) -> Result<()> {
    let chunk = chunk(rt, alloc, array);
    let made = RecordSerializer::new(alloc, schema(rt, alloc, "a"), &chunk, Vec::new(alloc));
    let outcome = match made {
        Ok(rows) => {
            drop(rows);
            Ok(())
        }
        Err(error) => Err(error),
    };
    drop(chunk);
    outcome
}

#[test]
fn an_array_without_a_text_makes_no_rows(rt: HostRuntime) {
    let alloc = rt.alloc();
    let data_type = DataType::Duration(TimeUnit::Second);
    let array = Array::Int64(numbers(&rt, alloc, data_type, &[1i64]));
    let refused = Err(Error::NotYetImplemented(Reason::NoJsonText));
    assert!(rt; outcome(&rt, alloc, array) == refused);
    let refused = Err(Error::InvalidArgumentError(Reason::DateRange));
    assert!(rt; outcome(&rt, alloc, days(&rt, alloc, 2932897)) == refused);
}

/// Why no array under one field, or one array under none, makes no rows.
fn unequal(rt: &impl Abort, alloc: Global, arrays: usize) -> Result<()> {
    let (chunk, schema) = if arrays == 0 {
        let chunk = Chunk::try_new(Vec::new(alloc)).expect(rt, "no arrays");
        (chunk, schema(rt, alloc, "a"))
    } else {
        let fields = Items::from_vec(Vec::new(alloc));
        let metadata = Metadata::new(alloc);
        (
            chunk(rt, alloc, longs(rt, alloc, &[1])),
            Schema { fields, metadata },
        )
    };
    let made = RecordSerializer::new(alloc, schema, &chunk, Vec::new(alloc));
    let outcome = match made {
        Ok(rows) => {
            drop(rows);
            Ok(())
        }
        Err(error) => Err(error),
    };
    drop(chunk);
    outcome
}

#[test]
fn fields_are_as_many_as_arrays(rt: HostRuntime) {
    let alloc = rt.alloc();
    let refused = Err(Error::InvalidArgumentError(Reason::Lengths));
    assert!(rt; unequal(&rt, alloc, 0) == refused);
    assert!(rt; unequal(&rt, alloc, 1) == refused);
}
