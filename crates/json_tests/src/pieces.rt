//! Arrays as lines, shown and written.

use arrow_base::{Error, Items, MemorySink, Result};
use arrow_columns::{Array, Bitmap, PrimitiveArray};
use arrow_core::DataType;
use lending::FallibleStreamingIterator;
use ndjson::{FileWriter, Serializer};
use std::alloc::Global;
use std::process::Abort;

/// 1 and a null.
fn one_and_null(rt: &impl Abort, alloc: Global) -> Array {
    let values = Vec::from_slice(alloc, &[1i64, 0]).expect(rt, "memory");
    let valid = Bitmap::try_from_slice(alloc, &[true, false]).expect(rt, "memory");
    let array = PrimitiveArray::try_new(alloc, DataType::Int64, values, Some(valid));
    Array::Int64(array.expect(rt, "longs"))
}

/// That array, and an error.
fn arrays(rt: &impl Abort, alloc: Global) -> Vec<Result<Array>> {
    let arrays = [Ok(one_and_null(rt, alloc)), Err(Error::Overflow)];
    Vec::from_array(alloc, arrays).expect(rt, "memory")
}

/// A sink of 64 bytes, whose writes of these numbers fail.
fn sink(rt: &impl Abort, alloc: Global, failing: &[u64]) -> MemorySink {
    let failing = Vec::from_slice(alloc, failing).expect(rt, "memory");
    MemorySink::with_room(alloc, 64, 4, Items::from_vec(failing)).expect(rt, "memory")
}

#[test]
fn each_slot_is_a_line(rt: HostRuntime) {
    let alloc = rt.alloc();
    let mut lines = Serializer::new(arrays(&rt, alloc).into_iter(), Vec::new(alloc));
    assert!(rt; lines.get() == None);
    assert!(rt; lines.size_hint() == (0, None));
    assert!(rt; lines.next() == Ok(Some(b"1\nnull\n".as_slice())));
    assert!(rt; lines.next() == Err(Error::Overflow));
    assert!(rt; lines.next() == Ok(None));
    drop(lines);
}

#[test]
fn each_piece_is_written_once(rt: HostRuntime) {
    let alloc = rt.alloc();
    let lines = Serializer::new(arrays(&rt, alloc).into_iter(), Vec::new(alloc));
    let mut writer = FileWriter::new(sink(&rt, alloc, &[]), lines);
    assert!(rt; writer.next() == Some(Ok(())));
    assert!(rt; writer.next() == Some(Err(Error::Overflow)));
    assert!(rt; writer.next() == None);
    let (sink, lines) = writer.into_inner();
    drop(lines);
    assert!(rt; sink.held() == b"1\nnull\n".as_slice());
    drop(sink);
}

#[test]
fn a_failed_write_ends_it(rt: HostRuntime) {
    let alloc = rt.alloc();
    let lines = Serializer::new(arrays(&rt, alloc).into_iter(), Vec::new(alloc));
    let mut writer = FileWriter::new(sink(&rt, alloc, &[2]), lines);
    assert!(rt; writer.next() == Some(Err(Error::WriteFault)));
    assert!(rt; writer.next() == None);
    let (sink, lines) = writer.into_inner();
    drop(lines);
    assert!(rt; sink.held() == b"1\nnu".as_slice());
    drop(sink);
}
