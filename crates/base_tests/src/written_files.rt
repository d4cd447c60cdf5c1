//! Headers, blocks and numbers, written.

use crate::files::{BLOCK, HEADER, MARKER, SCHEMA};
use arrow_base::{Bytes, Items, MemorySink};
use avro_container::{write_block, write_header, zigzag_encode};
use avro_schema::{Block, SliceCursor, zigzag_i64};
use std::alloc::Global;
use std::process::Abort;

fn sink(rt: &impl Abort, alloc: Global) -> MemorySink {
    let none = Items::from_vec(Vec::new(alloc));
    MemorySink::with_room(alloc, 200, 7, none).expect(rt, "memory")
}

#[test]
fn a_header_is_written(rt: HostRuntime) {
    let mut sink = sink(&rt, rt.alloc());
    assert!(rt; write_header(&mut sink, SCHEMA, MARKER) == Ok(()));
    assert!(rt; sink.held() == HEADER);
    drop(sink);
}

#[test]
fn a_block_is_written(rt: HostRuntime) {
    let mut sink = sink(&rt, rt.alloc());
    let block = Block {
        number_of_rows: 2,
        bytes: Bytes::try_from_slice(rt.alloc(), b"\x02\x03").expect(&rt, "memory"),
    };
    assert!(rt; write_block(&mut sink, &block, MARKER) == Ok(()));
    assert!(rt; sink.held() == BLOCK);
    drop((sink, block));
}

#[test]
fn numbers_have_their_shortest_encoding(rt: HostRuntime) {
    let mut bytes = Vec::new(rt.alloc());
    zigzag_encode(64, &mut bytes).expect(&rt, "memory");
    zigzag_encode(i64::MIN, &mut bytes).expect(&rt, "memory");
    let wanted = b"\x80\x01\xff\xff\xff\xff\xff\xff\xff\xff\xff\x01";
    assert!(rt; bytes.as_slice() == wanted.as_slice());
    let mut cursor = SliceCursor::new(wanted.as_slice());
    assert!(rt; zigzag_i64(&mut cursor) == Ok(64));
    assert!(rt; zigzag_i64(&mut cursor) == Ok(i64::MIN));
}
