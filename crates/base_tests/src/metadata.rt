//! The metadata of files, read and written.

use crate::files::{BLOCK, HEADER, MARKER, SHORT_HEADER, SIZED_HEADER, cut, failing, source};
use crate::samples::{DEFLATED, TWO_BLOCKS};
use arrow_base::{Bytes, Error, Items, MemorySink, Reason, Source};
use avro_container::write_header;
use avro_file::{Block, Record, read_metadata, write_block, write_metadata};
use std::alloc::Global;
use std::process::Abort;

fn sink(rt: &impl Abort, alloc: Global) -> MemorySink {
    let none = Items::from_vec(Vec::new(alloc));
    MemorySink::with_room(alloc, 200, 7, none).expect(rt, "memory")
}

/// Whether the record has this name and this many fields, the first of them with this name.
fn is_record(record: &Record, name: &str, count: usize, first: &str) -> bool {
    match record.fields.as_slice().first() {
        Some(field) => {
            record.name.as_str() == name
                && record.fields.as_slice().len() == count
                && field.name.as_str() == first
        }
        None => false,
    }
}

#[test]
fn metadata_is_read_and_a_file_written(rt: HostRuntime) {
    let alloc = rt.alloc();
    let mut source = source(&rt, alloc, HEADER);
    let (metadata, count) = read_metadata(alloc, &mut source, 101).expect(&rt, "metadata");
    drop(source);
    assert!(rt; count == 101);
    assert!(rt; metadata.compression == None);
    assert!(rt; is_record(&metadata.root, "t", 1, "a"));
    assert!(rt; metadata.marker.as_slice() == MARKER.as_slice());
    let block = Block {
        number_of_rows: 2,
        bytes: Bytes::try_from_slice(alloc, b"\x02\x03").expect(&rt, "memory"),
    };
    let mut sink = sink(&rt, alloc);
    assert!(rt; write_metadata(alloc, &mut sink, &metadata.root, MARKER) == Ok(()));
    assert!(rt; write_block(&mut sink, &block, MARKER) == Ok(()));
    drop((metadata, block));
    assert!(rt; sink.held().len() == 121);
    assert!(rt; cut(sink.held(), 101) == HEADER);
    assert!(rt; sink.held().get(101..) == Some(BLOCK));
    drop(sink);
}

#[test]
fn a_root_that_another_program_wrote_is_read(rt: HostRuntime) {
    let alloc = rt.alloc();
    let mut source = source(&rt, alloc, TWO_BLOCKS);
    let (metadata, _) = read_metadata(alloc, &mut source, 1000).expect(&rt, "metadata");
    assert!(rt; is_record(&metadata.root, "r", 3, "a"));
    drop((source, metadata));
}

/// The error that the metadata of a source is refused with.
fn fault<S: Source + Drop>(alloc: Global, mut source: S, byte_limit: u64) -> Option<Error> {
    let read = read_metadata(alloc, &mut source, byte_limit);
    drop(source);
    match read {
        Ok(metadata) => {
            drop(metadata);
            None
        }
        Err(error) => Some(error),
    }
}

/// The error that a file's metadata is refused with.
fn refusal(rt: &impl Abort, alloc: Global, file: &[u8]) -> Option<Error> {
    fault(alloc, source(rt, alloc, file), 1000)
}

#[test]
fn a_file_that_is_cut_in_its_header_is_refused(rt: HostRuntime) {
    let mut file = Vec::new(rt.alloc());
    file.extend_from_slice(HEADER).expect(&rt, "memory");
    file.extend_from_slice(BLOCK).expect(&rt, "memory");
    for k in 0..122usize {
        let wanted = match k {
            0..=3 => Some(Error::ExternalFormat(Reason::Magic)),
            4..=100 => Some(Error::ExternalFormat(Reason::Header)),
            _ => None,
        };
        assert!(rt; refusal(&rt, rt.alloc(), cut(&file, k)) == wanted, "{k}");
    }
}

#[test]
fn each_failing_read_is_told(rt: HostRuntime) {
    let alloc = rt.alloc();
    for number in 1..102u64 {
        let fault = fault(alloc, failing(&rt, alloc, HEADER, number), 101);
        assert!(rt; fault == Some(Error::ReadFault { line: None }), "{number}");
    }
    assert!(rt; fault(alloc, failing(&rt, alloc, HEADER, 102), 101) == None);
}

#[test]
fn the_limit_is_the_last_byte_that_may_be_taken(rt: HostRuntime) {
    let alloc = rt.alloc();
    let limited = fault(alloc, source(&rt, alloc, HEADER), 100);
    assert!(rt; limited == Some(Error::LimitExceeded));
    assert!(rt; fault(alloc, source(&rt, alloc, HEADER), 101) == None);
}

#[test]
fn a_stated_size_is_compared(rt: HostRuntime) {
    let alloc = rt.alloc();
    let mut source = source(&rt, alloc, SIZED_HEADER);
    let (metadata, count) = read_metadata(alloc, &mut source, 103).expect(&rt, "metadata");
    assert!(rt; count == 103);
    assert!(rt; is_record(&metadata.root, "t", 1, "a"));
    drop((source, metadata));
    let short = refusal(&rt, alloc, SHORT_HEADER);
    assert!(rt; short == Some(Error::ExternalFormat(Reason::Header)));
}

/// The error that a file with this schema text is refused with.
fn text_refusal(rt: &impl Abort, alloc: Global, schema: &[u8]) -> Option<Error> {
    let mut sink = sink(rt, alloc);
    write_header(&mut sink, schema, MARKER).expect(rt, "capacity");
    let refusal = refusal(rt, alloc, sink.held());
    drop(sink);
    refusal
}

#[test]
fn a_codec_is_refused(rt: HostRuntime) {
    let codec = Some(Error::NotYetImplemented(Reason::Codec));
    assert!(rt; refusal(&rt, rt.alloc(), DEFLATED) == codec);
}

#[test]
fn a_schema_that_is_no_record_is_refused(rt: HostRuntime) {
    let alloc = rt.alloc();
    let form = Some(Error::ExternalFormat(Reason::SchemaText));
    let reference = Some(Error::NotYetImplemented(Reason::TypeReference));
    let no_record = Some(Error::NotYetImplemented(Reason::RootNotRecord));
    assert!(rt; text_refusal(&rt, alloc, b"{") == form);
    assert!(rt; text_refusal(&rt, alloc, b"\"t\"") == reference);
    assert!(rt; text_refusal(&rt, alloc, b"\"int\"") == no_record);
}
