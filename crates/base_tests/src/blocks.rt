//! Blocks of files, read.

use crate::files::{BLOCK, MARKER, are_blocks, cut, empty_block, failing, is_block, source};
use crate::samples::TWO_BLOCKS;
use arrow_base::{Error, Reason, Result, Source};
use avro_container::BlockReader;
use std::alloc::Global;
use std::process::Abort;

/// The first answer of a reader, and the second.
fn two<S: Source + Drop>(
    alloc: Global,
    source: S,
    byte_limit: u64,
) -> (Result<bool>, Result<bool>) {
    let mut reader = BlockReader::new(alloc, source, MARKER, byte_limit);
    let mut block = empty_block(alloc);
    let first = reader.next(&mut block);
    let second = reader.next(&mut block);
    drop((reader, block));
    (first, second)
}

fn first(rt: &impl Abort, alloc: Global, bytes: &[u8], byte_limit: u64) -> Result<bool> {
    two(alloc, source(rt, alloc, bytes), byte_limit).0
}

#[test]
fn a_block_is_read_and_then_the_end(rt: HostRuntime) {
    let alloc = rt.alloc();
    let reader = BlockReader::new(alloc, source(&rt, alloc, BLOCK), MARKER, 20);
    assert!(rt; are_blocks(alloc, reader, &[(2, b"\x02\x03")]));
}

#[test]
fn a_block_that_is_cut_is_refused(rt: HostRuntime) {
    assert!(rt; first(&rt, rt.alloc(), b"", 20) == Ok(false));
    for k in 1..20usize {
        let answer = first(&rt, rt.alloc(), cut(BLOCK, k), 20);
        assert!(rt;
            answer == Err(Error::ExternalFormat(Reason::Container)),
            "{k}"
        );
    }
}

#[test]
fn a_failing_read_is_told_again(rt: HostRuntime) {
    let fault = Err(Error::ReadFault { line: None });
    for number in 1..21u64 {
        let source = failing(&rt, rt.alloc(), BLOCK, number);
        assert!(rt; two(rt.alloc(), source, 20) == (fault, fault), "{number}");
    }
    // The read that would show the end.
    let last = failing(&rt, rt.alloc(), BLOCK, 21);
    assert!(rt; two(rt.alloc(), last, 20) == (Ok(true), fault));
}

#[test]
fn each_fault_has_its_reason(rt: HostRuntime) {
    let alloc = rt.alloc();
    let container = Err(Error::ExternalFormat(Reason::Container));
    let marker = Err(Error::ExternalFormat(Reason::Marker));
    assert!(rt; first(&rt, alloc, b"\x01", 20) == container);
    assert!(rt; first(&rt, alloc, b"\x02\x01", 20) == container);
    assert!(rt;
        first(
            &rt,
            alloc,
            b"\x02\x00\x01\x01\x01\x01\x01\x01\x01\x01\x01\x01\x01\x01\x01\x01\x01\x02",
            20
        ) == marker
    );
    assert!(rt; first(&rt, alloc, BLOCK, 20) == Ok(true));
    assert!(rt; first(&rt, alloc, BLOCK, 19) == Err(Error::LimitExceeded));
}

#[test]
fn a_size_that_no_bytes_back_takes_no_memory(rt: HostRuntime) {
    // Two to the power of 62, less one.
    let answer = first(
        &rt,
        rt.alloc(),
        b"\x02\xfe\xff\xff\xff\xff\xff\xff\xff\x7f",
        100,
    );
    assert!(rt; answer == Err(Error::ExternalFormat(Reason::Container)));
}

#[test]
fn no_byte_past_a_block_is_taken(rt: HostRuntime) {
    let alloc = rt.alloc();
    let bytes = b"\x00\x00\x01\x01\x01\x01\x01\x01\x01\x01\x01\x01\x01\x01\x01\x01\x01\x01\xaa";
    let mut reader = BlockReader::new(alloc, source(&rt, alloc, bytes), MARKER, 100);
    let mut block = empty_block(alloc);
    assert!(rt; reader.next(&mut block) == Ok(true) && is_block(&block, 0, b""));
    drop(block);
    let mut rest = reader.into_inner();
    let mut buffer = [0u8; 4];
    let read = rest.read(&mut buffer);
    drop(rest);
    assert!(rt; read == Ok(1));
    assert!(rt; buffer[0] == 0xaa);
}

#[test]
fn blocks_of_another_writer_are_read(rt: HostRuntime) {
    let alloc = rt.alloc();
    let blocks = TWO_BLOCKS.get(227..).unwrap_or(b"");
    let marker = *b"0123456789abcdef";
    let reader = BlockReader::new(alloc, source(&rt, alloc, blocks), marker, 80);
    let two_rows = b"\x00\x02\x00\x06\x00\x00\x00\x00\x02\x00\x06\x02\x02\x02\x00";
    let three_rows =
        b"\x04\x02\x04xx\x06\x04\x04\x04\x00\x06\x00\x06\x06\x06\x06\x00\x08\x02\x08xxxx\x06\x08\x08\x08\x00";
    assert!(rt; are_blocks(alloc, reader, &[(2, two_rows), (3, three_rows)]));
}
