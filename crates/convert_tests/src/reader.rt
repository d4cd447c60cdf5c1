//! Files, chunk by chunk.

use crate::files::{BLOCK, EVENTS, FLOAT, HEADER};
use crate::samples::{header_of, holds, source};
use arrow_base::{Error, MemorySource, Reason, Result};
use avro_file::{Compression, FileMetadata};
use avro_read::Reader;
use avro_types::infer_schema;
use std::alloc::Global;
use std::process::Abort;

/// A reader of a file that has these bytes, with the fields that its record has.
fn reader(
    rt: &impl Abort,
    alloc: Global,
    file: &[&[u8]],
    projection: Option<Vec<bool>>,
) -> Result<Reader<MemorySource>> {
    let mut source = source(rt, alloc, file);
    let metadata = header_of(rt, alloc, &mut source);
    match infer_schema(alloc, &metadata.root) {
        Ok(schema) => {
            let fields = schema.fields.into_vec();
            Reader::new(alloc, source, metadata, fields, projection, 1000)
        }
        Err(error) => {
            drop((source, metadata));
            Err(error)
        }
    }
}

/// Whether the next chunk is one column of these integers.
fn gives(reader: &mut Reader<MemorySource>, values: &[i64]) -> bool {
    match reader.next() {
        Some(Ok(chunk)) => {
            let holds_them = holds(&chunk, values);
            drop(chunk);
            holds_them
        }
        Some(Err(_)) | None => false,
    }
}

/// The next error; `None` where the next answer is none.
fn next_error(reader: &mut Reader<MemorySource>) -> Option<Error> {
    match reader.next() {
        Some(Ok(chunk)) => {
            drop(chunk);
            None
        }
        Some(Err(error)) => Some(error),
        None => None,
    }
}

/// Whether there is no further answer.
fn ends(reader: &mut Reader<MemorySource>) -> bool {
    match reader.next() {
        Some(Ok(chunk)) => {
            drop(chunk);
            false
        }
        Some(Err(_)) => false,
        None => true,
    }
}

/// Whether the next answer is this error, and then nothing, with the error told.
fn fails(reader: &mut Reader<MemorySource>, error: Error) -> bool {
    next_error(reader) == Some(error)
        && (ends(reader) && ends(reader))
        && reader.failed() == Some(error)
}

#[test]
fn a_chunk_for_each_block(rt: HostRuntime) {
    let alloc = rt.alloc();
    let ids = vec![in alloc; true, false, false, false].expect(&rt, "memory");
    let mut events = reader(&rt, alloc, &[EVENTS], Some(ids)).expect(&rt, "a file");
    assert!(rt; gives(&mut events, &[7, 8]));
    assert!(rt; gives(&mut events, &[9]));
    assert!(rt; ends(&mut events));
    assert!(rt; ends(&mut events));
    assert!(rt; events.failed().is_none());
    drop(events);
}

#[test]
fn an_error_is_the_last_answer(rt: HostRuntime) {
    let alloc = rt.alloc();
    // Two rows are stated, of which the second is cut short.
    let cut = b"\x04\x04\x0a\x80\x01\x01\x01\x01\x01\x01\x01\x01\x01\x01\x01\x01\x01\x01\x01\x01";
    let mut wrong = reader(&rt, alloc, &[HEADER, BLOCK, cut, BLOCK], None).expect(&rt, "a file");
    assert!(rt; gives(&mut wrong, &[1, -2]));
    assert!(rt; fails(&mut wrong, Error::ExternalFormat(Reason::BlockBytes)));
    drop(wrong);
    // A block of another marker.
    let other = b"\x04\x04\x02\x03\x01\x01\x01\x01\x01\x01\x01\x01\x01\x01\x01\x01\x01\x01\x01\x02";
    let mut marked = reader(&rt, alloc, &[HEADER, other, BLOCK], None).expect(&rt, "a file");
    assert!(rt; fails(&mut marked, Error::ExternalFormat(Reason::Marker)));
    drop(marked);
}

#[test]
fn what_cannot_be_read_has_no_reader(rt: HostRuntime) {
    let alloc = rt.alloc();
    let float = reader(&rt, alloc, &[FLOAT], None).err();
    assert!(rt; float == Some(Error::NotYetImplemented(Reason::Float)));
    let short = vec![in alloc; true].expect(&rt, "memory");
    let short = reader(&rt, alloc, &[FLOAT], Some(short)).err();
    assert!(rt; short == Some(Error::InvalidArgumentError(Reason::Lengths)));
    let mut source = source(&rt, alloc, &[HEADER]);
    let metadata = FileMetadata {
        compression: Some(Compression::Snappy),
        ..header_of(&rt, alloc, &mut source)
    };
    let packed = Reader::new(alloc, source, metadata, Vec::new(alloc), None, 1000).err();
    assert!(rt; packed == Some(Error::NotYetImplemented(Reason::Codec)));
}
