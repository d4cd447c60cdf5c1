//! Headers of files, read.

use crate::files::{HEADER, MARKER, SCHEMA, source};
use crate::samples::{DEFLATED, NO_BLOCKS, TWO_BLOCKS};
use arrow_base::{Error, Reason};
use avro_container::read_header;
use std::alloc::Global;
use std::process::Abort;

/// Whether the bytes begin with a header of so many bytes that names this schema.
fn is_read(rt: &impl Abort, alloc: Global, bytes: &[u8], schema: &[u8], length: u64) -> bool {
    let mut source = source(rt, alloc, bytes);
    let read = read_header(alloc, &mut source, length);
    let is_read = match &read {
        Ok((header, count)) => *count == length && header.schema.as_slice() == schema,
        Err(_) => false,
    };
    drop((source, read));
    is_read
}

fn header_fault(rt: &impl Abort, alloc: Global, bytes: &[u8]) -> Option<Error> {
    let mut source = source(rt, alloc, bytes);
    let read = read_header(alloc, &mut source, 1000);
    drop(source);
    match read {
        Ok(header) => {
            drop(header);
            None
        }
        Err(error) => Some(error),
    }
}

#[test]
fn a_header_is_read(rt: HostRuntime) {
    let alloc = rt.alloc();
    assert!(rt; is_read(&rt, alloc, HEADER, SCHEMA, 101));
    let mut source = source(&rt, alloc, HEADER);
    let (header, _) = read_header(alloc, &mut source, 101).expect(&rt, "a header");
    assert!(rt; header.marker.as_slice() == MARKER.as_slice());
    drop((source, header));
}

#[test]
fn a_stated_size_is_exact(rt: HostRuntime) {
    let alloc = rt.alloc();
    let header = Some(Error::ExternalFormat(Reason::Header));
    let right = b"Obj\x01\x01\x1e\x16avro.schema\x04{}\x000123456789abcdef";
    let short = b"Obj\x01\x01\x1c\x16avro.schema\x04{}\x000123456789abcdef";
    let long = b"Obj\x01\x01\x20\x16avro.schema\x04{}\x000123456789abcdef";
    assert!(rt; is_read(&rt, alloc, right, b"{}", 38));
    assert!(rt; header_fault(&rt, alloc, short) == header);
    assert!(rt; header_fault(&rt, alloc, long) == header);
}

#[test]
fn what_the_entries_say_counts(rt: HostRuntime) {
    let alloc = rt.alloc();
    let twice = b"Obj\x01\x04\x16avro.schema\x02a\x16avro.schema\x02b\x000123456789abcdef";
    assert!(rt; is_read(&rt, alloc, twice, b"b", 50));
    let none = header_fault(&rt, alloc, b"Obj\x01\x000123456789abcdef");
    assert!(rt; none == Some(Error::ExternalFormat(Reason::Header)));
    // A key of two to the power of 62 bytes, less one.
    let long = header_fault(
        &rt,
        alloc,
        b"Obj\x01\x02\xfe\xff\xff\xff\xff\xff\xff\xff\x7f",
    );
    assert!(rt; long == Some(Error::ExternalFormat(Reason::Header)));
    let other = header_fault(&rt, alloc, b"Obj\x02");
    assert!(rt; other == Some(Error::ExternalFormat(Reason::Magic)));
}

#[test]
fn headers_of_other_writers_are_read(rt: HostRuntime) {
    let alloc = rt.alloc();
    let schema =
        b"{\"type\": \"record\", \"name\": \"r\", \"fields\": [{\"type\": \"long\", \"name\": \"a\"}, {\"type\": [\"null\", \"string\"], \"name\": \"b\"}, {\"type\": {\"type\": \"array\", \"items\": \"int\"}, \"name\": \"c\"}]}";
    assert!(rt; is_read(&rt, alloc, NO_BLOCKS, schema, 227));
    assert!(rt; is_read(&rt, alloc, TWO_BLOCKS, schema, 227));
    let codec = header_fault(&rt, alloc, DEFLATED);
    assert!(rt; codec == Some(Error::NotYetImplemented(Reason::Codec)));
}
