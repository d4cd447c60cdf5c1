//! What the tests read: a small file, and sources of bytes.

use arrow_base::{Bytes, Items, MemorySource, Source, SteadySource};
use avro_container::BlockReader;
use avro_schema::Block;
use std::alloc::Global;
use std::process::Abort;

/// The text of a record `t` of one int `a`.
pub static SCHEMA: &[u8] =
    b"{\"type\":\"record\",\"name\":\"t\",\"fields\":[{\"name\":\"a\",\"type\":\"int\"}]}";

/// A header of 101 bytes: the magic, a map of one entry, and a marker of sixteen bytes 1.
pub static HEADER: &[u8] =
    b"Obj\x01\x02\x16avro.schema\x82\x01{\"type\":\"record\",\"name\":\"t\",\"fields\":[{\"name\":\"a\",\"type\":\"int\"}]}\x00\x01\x01\x01\x01\x01\x01\x01\x01\x01\x01\x01\x01\x01\x01\x01\x01";

/// The only block of that file: two rows, two bytes, `02 03`, and the marker.
pub static BLOCK: &[u8] =
    b"\x04\x04\x02\x03\x01\x01\x01\x01\x01\x01\x01\x01\x01\x01\x01\x01\x01\x01\x01\x01";

/// That header with the size of its entry, 79 bytes, and with a size of one byte less.
pub static SIZED_HEADER: &[u8] =
    b"Obj\x01\x01\x9e\x01\x16avro.schema\x82\x01{\"type\":\"record\",\"name\":\"t\",\"fields\":[{\"name\":\"a\",\"type\":\"int\"}]}\x00\x01\x01\x01\x01\x01\x01\x01\x01\x01\x01\x01\x01\x01\x01\x01\x01";

pub static SHORT_HEADER: &[u8] =
    b"Obj\x01\x01\x9c\x01\x16avro.schema\x82\x01{\"type\":\"record\",\"name\":\"t\",\"fields\":[{\"name\":\"a\",\"type\":\"int\"}]}\x00\x01\x01\x01\x01\x01\x01\x01\x01\x01\x01\x01\x01\x01\x01\x01\x01";

pub static MARKER: [u8; 16] = [1; 16];

/// A source of bytes that gives one byte a read.
pub fn source(rt: &impl Abort, alloc: Global, bytes: &[u8]) -> SteadySource {
    SteadySource::new(Bytes::try_from_slice(alloc, bytes).expect(rt, "memory"), 1)
}

/// The same, whose read of this number fails.
pub fn failing(rt: &impl Abort, alloc: Global, bytes: &[u8], number: u64) -> MemorySource {
    let numbers = vec![in alloc; number].expect(rt, "memory");
    let bytes = Bytes::try_from_slice(alloc, bytes).expect(rt, "memory");
    MemorySource::new(bytes, 1, Items::from_vec(numbers))
}

/// The first `n` of the bytes.
pub fn cut(bytes: &[u8], n: usize) -> &[u8] {
    bytes.get(..n).unwrap_or(bytes)
}

pub fn empty_block(alloc: Global) -> Block {
    Block {
        number_of_rows: 0,
        bytes: Bytes::new(alloc),
    }
}

pub fn is_block(block: &Block, rows: usize, bytes: &[u8]) -> bool {
    block.number_of_rows == rows && block.bytes.as_slice() == bytes
}

/// Whether a reader gives blocks of so many rows and these bytes, and then the end, as often as it
/// is asked.
fn gives<S: Source>(
    reader: &mut BlockReader<S>,
    block: &mut Block,
    blocks: &[(usize, &[u8])],
) -> bool {
    for (rows, bytes) in blocks {
        if reader.next(block) != Ok(true) || !is_block(block, *rows, bytes) {
            return false;
        }
    }
    reader.next(block) == Ok(false) && reader.next(block) == Ok(false)
}

/// Whether a reader gives these blocks alone.
pub fn are_blocks<S: Source + Drop>(
    alloc: Global,
    mut reader: BlockReader<S>,
    blocks: &[(usize, &[u8])],
) -> bool {
    let mut block = empty_block(alloc);
    let gives_them = gives(&mut reader, &mut block, blocks);
    drop((reader, block));
    gives_them
}
