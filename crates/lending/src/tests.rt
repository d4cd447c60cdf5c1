//! Tests of what no clause says.
mod listed;

use crate::{BufStreamingIterator, StreamingIterator, write_joined};
use arrow_base::{Items, MemorySink};
use arrow_core::{Error, Result};
use listed::write_listed;
use std::alloc::Global;
use std::process::Abort;

#[test]
fn items_are_shown_from_one_buffer_and_then_none(rt: HostRuntime) {
    let push = |byte: u8, buffer: &mut Vec<u8>| -> Result<()> {
        if buffer.capacity() < 64 {
            return Err(Error::Overflow);
        }
        Ok(buffer.push(byte)?)
    };
    let buffer = Vec::with_capacity(rt.alloc(), 64).expect(&rt, "memory");
    let mut bytes = BufStreamingIterator::new(1..3u8, push, buffer);
    assert!(rt; bytes.get() == None && bytes.size_hint() == (2, Some(2)));
    assert!(rt; bytes.next() == Ok(Some([1u8].as_slice())));
    assert!(rt; bytes.size_hint() == (1, Some(1)));
    assert!(rt; bytes.next() == Ok(Some([2u8].as_slice())));
    assert!(rt; bytes.next() == Ok(None));
    assert!(rt; bytes.next() == Ok(None));
}

#[test]
fn an_error_hides_its_item_alone(rt: HostRuntime) {
    let push = |byte: u8, buffer: &mut Vec<u8>| -> Result<()> {
        buffer.push(byte)?;
        if byte == 2 {
            Err(Error::Overflow)
        } else {
            Ok(())
        }
    };
    let mut bytes = BufStreamingIterator::new(1..4u8, push, Vec::new(rt.alloc()));
    assert!(rt; bytes.next() == Ok(Some([1u8].as_slice())));
    assert!(rt; bytes.advance() == Err(Error::Overflow) && bytes.get() == None);
    assert!(rt; bytes.next() == Ok(Some([3u8].as_slice())));
    assert!(rt; bytes.next() == Ok(None));
}

fn bytes(rt: &impl Abort, alloc: Global, bytes: &[u8]) -> Vec<u8> {
    Vec::from_slice(alloc, bytes).expect(rt, "memory")
}

/// `a`, nothing, `bc`.
fn items(rt: &impl Abort, alloc: Global) -> Vec<Vec<u8>> {
    let items = [
        bytes(rt, alloc, b"a"),
        bytes(rt, alloc, b""),
        bytes(rt, alloc, b"bc"),
    ];
    Vec::from_array(alloc, items).expect(rt, "memory")
}

fn sink(rt: &impl Abort, alloc: Global) -> MemorySink {
    let none = Items::from_vec(Vec::new(alloc));
    MemorySink::with_room(alloc, 9, 9, none).expect(rt, "memory")
}

#[test]
fn listed_items_are_written_joined(rt: HostRuntime) {
    let mut sink = sink(&rt, rt.alloc());
    assert!(rt; write_listed(&mut sink, b',', items(&rt, rt.alloc()).as_slice()).is_ok());
    assert!(rt; sink.held() == b"a,,bc".as_slice());
}

#[test]
fn lent_items_are_written_joined(rt: HostRuntime) {
    let copy = |item: Vec<u8>, buffer: &mut Vec<u8>| -> Result<()> {
        Ok(buffer.extend_from_slice(item.as_slice())?)
    };
    let items = items(&rt, rt.alloc()).into_iter();
    let copies = BufStreamingIterator::new(items, copy, Vec::new(rt.alloc()));
    let mut sink = sink(&rt, rt.alloc());
    assert!(rt; write_joined(&mut sink, b',', copies).is_ok());
    assert!(rt; sink.held() == b"a,,bc".as_slice());
}
