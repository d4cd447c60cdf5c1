//! Avro files into JSON lines.

use crate::files::{
    BINARY, BINARY_BLOCK, BLOCK, DATES, DATES_HEADER, EVENTS, FALSE_COUNT, FLOAT, FLOAT_BLOCK,
    HEADER, MAP, NAMES, NAMES_LINE, NANOSECONDS, NESTED, NESTED_BLOCK, NESTED_SIZED, NO_FIELD,
};
use crate::written::{WRITTEN, WRITTEN_LINES};
use arrow_base::{Bytes, Error, Items, MemorySink, MemorySource, Reason, Result};
use avro_ndjson::avro_to_ndjson;
use std::alloc::Global;
use std::process::Abort;

/// The lines of `HEADER` and `BLOCK`.
const TWO_LINES: &str = "{\"a\":1}\n{\"a\":-2}\n";

/// What the events print.
const EVENT_LINES: &str =
    "{\"id\":7,\"user\":\"ann\",\"tags\":[\"a\",null],\"when\":\"2024-01-02T03:04:05+00:00\"}\n{\"id\":8,\"user\":\"bob\",\"tags\":[],\"when\":\"1970-01-01T00:00:00+00:00\"}\n{\"id\":9,\"user\":\"é\",\"tags\":[\"x\"],\"when\":\"1969-12-31T23:59:59.999+00:00\"}\n";

/// How a file is read, and which calls fail, counted from 1: none where it is 0.
#[derive(Clone, Copy)]
struct How {
    piece: usize,
    limit: u64,
    failing_read: u64,
    failing_write: u64,
}

const PLAIN: How = How {
    piece: 1000,
    limit: 1000,
    failing_read: 0,
    failing_write: 0,
};

fn numbers(rt: &impl Abort, alloc: Global, number: u64) -> Items<u64> {
    Items::try_from_slice(alloc, &[number]).expect(rt, "memory")
}

/// The pieces of a file, one after another.
fn joined(rt: &impl Abort, alloc: Global, pieces: &[&[u8]]) -> Bytes {
    let mut bytes = Bytes::new(alloc);
    for piece in pieces {
        bytes.push_slice(piece).expect(rt, "memory");
    }
    bytes
}

/// Whether the conversion answers so, and the sink then holds this text.
fn gives(
    rt: &impl Abort,
    alloc: Global,
    file: &[&[u8]],
    keep: Option<&[usize]>,
    how: How,
    answer: Result<u64>,
    held: &[u8],
) -> bool {
    let failing_read = numbers(rt, alloc, how.failing_read);
    let bytes = joined(rt, alloc, file);
    let mut source = MemorySource::new(bytes, how.piece.max(1), failing_read);
    let failing_write = numbers(rt, alloc, how.failing_write);
    let mut sink = MemorySink::with_room(alloc, 400, how.piece.max(1), failing_write).expect(
        rt, "memory",
    );
    let given = avro_to_ndjson(alloc, &mut source, &mut sink, keep, how.limit);
    let gives_so = given == answer && sink.held() == held;
    drop((source, sink));
    gives_so
}

#[test]
fn rows_become_lines(rt: HostRuntime) {
    let alloc = rt.alloc();
    let empty = b"\x00\x00\x01\x01\x01\x01\x01\x01\x01\x01\x01\x01\x01\x01\x01\x01\x01\x01";
    let two = TWO_LINES.as_bytes();
    assert!(rt; gives(&rt, alloc, &[HEADER, BLOCK], None, PLAIN, Ok(2), two));
    assert!(rt; gives(&rt, alloc, &[HEADER, empty, BLOCK], None, PLAIN, Ok(2), two));
    assert!(rt; gives(&rt, alloc, &[HEADER], None, PLAIN, Ok(0), b""));
    let events = EVENT_LINES.as_bytes();
    assert!(rt; gives(&rt, alloc, &[EVENTS], None, PLAIN, Ok(3), events));
    let single = How { piece: 1, ..PLAIN };
    assert!(rt; gives(&rt, alloc, &[EVENTS], None, single, Ok(3), events));
    let users = "{\"user\":\"ann\"}\n{\"user\":\"bob\"}\n{\"user\":\"é\"}\n".as_bytes();
    assert!(rt; gives(&rt, alloc, &[EVENTS], Some(&[1]), PLAIN, Ok(3), users));
    let nano = b"{\"a\":\"1970-01-01 00:00:00.000000001\"}\n";
    assert!(rt; gives(&rt, alloc, &[NANOSECONDS], None, PLAIN, Ok(1), nano));
}

#[test]
fn arrays_become_lines_in_blocks_or_with_sizes(rt: HostRuntime) {
    let alloc = rt.alloc();
    let first =
        b"{\"a\":5,\"b\":[{\"c\":true,\"d\":[1,-1]},{\"c\":false,\"d\":[]}]}\n{\"a\":null,\"b\":[]}\n";
    let both =
        b"{\"a\":5,\"b\":[{\"c\":true,\"d\":[1,-1]},{\"c\":false,\"d\":[]}]}\n{\"a\":null,\"b\":[]}\n{\"a\":null,\"b\":[{\"c\":false,\"d\":[3,4]}]}\n";
    let file = [NESTED, NESTED_BLOCK, NESTED_SIZED];
    assert!(rt;
        gives(
            &rt,
            alloc,
            &[NESTED, NESTED_BLOCK],
            None,
            PLAIN,
            Ok(2),
            first
        )
    );
    assert!(rt; gives(&rt, alloc, &file, None, PLAIN, Ok(3), both));
    let numbers = b"{\"a\":5}\n{\"a\":null}\n{\"a\":null}\n";
    assert!(rt; gives(&rt, alloc, &file, Some(&[0]), PLAIN, Ok(3), numbers));
    let arrays =
        b"{\"b\":[{\"c\":true,\"d\":[1,-1]},{\"c\":false,\"d\":[]}]}\n{\"b\":[]}\n{\"b\":[{\"c\":false,\"d\":[3,4]}]}\n";
    assert!(rt; gives(&rt, alloc, &file, Some(&[1]), PLAIN, Ok(3), arrays));
}

#[test]
fn a_late_row_leaves_no_line_of_its_block(rt: HostRuntime) {
    let alloc = rt.alloc();
    let days =
        b"\x04\x10\xc0\x82\xe6\x02\xc2\x82\xe6\x02\x01\x01\x01\x01\x01\x01\x01\x01\x01\x01\x01\x01\x01\x01\x01\x01";
    let range = Err(Error::InvalidArgumentError(Reason::DateRange));
    assert!(rt; gives(&rt, alloc, &[DATES_HEADER, days], None, PLAIN, range, b""));
}

#[test]
fn lines_are_those_of_another_program(rt: HostRuntime) {
    let alloc = rt.alloc();
    assert!(rt; gives(&rt, alloc, &[WRITTEN], None, PLAIN, Ok(3), WRITTEN_LINES));
    assert!(rt; gives(&rt, alloc, &[NAMES], None, PLAIN, Ok(1), NAMES_LINE));
}

#[test]
fn numbers_are_refused_before_floats(rt: HostRuntime) {
    let alloc = rt.alloc();
    let numbers = Err(Error::InvalidArgumentError(Reason::KeepNumber));
    assert!(rt; gives(&rt, alloc, &[FLOAT], Some(&[0, 0]), PLAIN, numbers, b""));
}

/// Whether the conversion ends with this error, and the sink then holds this text.
fn ends(rt: &impl Abort, alloc: Global, file: &[&[u8]], error: Error, held: &[u8]) -> bool {
    gives(rt, alloc, file, None, PLAIN, Err(error), held)
}

#[test]
fn lines_before_a_refused_block_are_written(rt: HostRuntime) {
    let alloc = rt.alloc();
    let rows = b"\x04\x02\x02\x01\x01\x01\x01\x01\x01\x01\x01\x01\x01\x01\x01\x01\x01\x01\x01";
    let bytes = b"\x02\x04\x02\x03\x01\x01\x01\x01\x01\x01\x01\x01\x01\x01\x01\x01\x01\x01\x01\x01";
    let other = b"\x04\x04\x02\x03\x01\x01\x01\x01\x01\x01\x01\x01\x01\x01\x01\x01\x01\x01\x01\x02";
    let two = TWO_LINES.as_bytes();
    let few = Error::ExternalFormat(Reason::Rows);
    assert!(rt; ends(&rt, alloc, &[HEADER, BLOCK, rows, BLOCK], few, two));
    let wrong = Error::ExternalFormat(Reason::BlockBytes);
    assert!(rt; ends(&rt, alloc, &[HEADER, BLOCK, bytes, BLOCK], wrong, two));
    assert!(rt; ends(&rt, alloc, &[FALSE_COUNT], wrong, b""));
    let marker = Error::ExternalFormat(Reason::Marker);
    assert!(rt; ends(&rt, alloc, &[HEADER, other], marker, b""));
    assert!(rt; ends(&rt, alloc, &[HEADER, BLOCK, other], marker, two));
    let range = Error::InvalidArgumentError(Reason::DateRange);
    let day = b"{\"a\":\"9999-12-31\"}\n";
    assert!(rt; ends(&rt, alloc, &[DATES_HEADER, DATES], range, day));
}

#[test]
fn the_header_counts_for_the_limit(rt: HostRuntime) {
    let alloc = rt.alloc();
    let limit = |limit: u64| How { limit, ..PLAIN };
    let file = [HEADER, BLOCK];
    let exceeded = Err(Error::LimitExceeded);
    assert!(rt; gives(&rt, alloc, &file, None, limit(120), exceeded, b""));
    assert!(rt;
        gives(
            &rt,
            alloc,
            &file,
            None,
            limit(121),
            Ok(2),
            TWO_LINES.as_bytes()
        )
    );
}

/// Whether a file is refused with this error, and nothing is written.
fn is_refused(
    rt: &impl Abort,
    alloc: Global,
    file: &[u8],
    keep: Option<&[usize]>,
    error: Error,
) -> bool {
    gives(rt, alloc, &[file], keep, PLAIN, Err(error), b"")
}

#[test]
fn fields_that_cannot_be_shown_are_refused(rt: HostRuntime) {
    let number = Error::InvalidArgumentError(Reason::KeepNumber);
    let nothing = Error::InvalidArgumentError(Reason::NothingKept);
    let table: [(&[u8], Option<&[usize]>, Error); 7] = [
        (EVENTS, Some(&[4]), number),
        (EVENTS, Some(&[1, 1]), number),
        (EVENTS, Some(&[]), nothing),
        (NO_FIELD, None, Error::NotYetImplemented(Reason::NoField)),
        (MAP, None, Error::NotYetImplemented(Reason::NotCarried)),
        (FLOAT, None, Error::NotYetImplemented(Reason::Float)),
        (BINARY, None, Error::NotYetImplemented(Reason::NoJsonText)),
    ];
    for (file, keep, error) in table {
        assert!(rt; is_refused(&rt, rt.alloc(), file, keep, error), "{error:?}");
    }
}

#[test]
fn fields_beside_those_are_shown(rt: HostRuntime) {
    let alloc = rt.alloc();
    let float = [FLOAT, FLOAT_BLOCK];
    assert!(rt; gives(&rt, alloc, &float, Some(&[1]), PLAIN, Ok(1), b"{\"b\":3}\n"));
    let binary = [BINARY, BINARY_BLOCK];
    assert!(rt;
        gives(
            &rt,
            alloc,
            &binary,
            Some(&[1]),
            PLAIN,
            Ok(1),
            b"{\"b\":3}\n"
        )
    );
}

#[test]
fn a_file_that_is_cut_is_refused(rt: HostRuntime) {
    let alloc = rt.alloc();
    let fault = |reason: Reason| Err(Error::ExternalFormat(reason));
    for k in 0..101usize {
        let reason = if k < 4 { Reason::Magic } else { Reason::Header };
        let file = HEADER.get(..k).unwrap_or(HEADER);
        assert!(rt;
            gives(&rt, alloc, &[file], None, PLAIN, fault(reason), b""),
            "{k}"
        );
    }
    assert!(rt; gives(&rt, alloc, &[HEADER], None, PLAIN, Ok(0), b""));
    for k in 1..20usize {
        let file = [HEADER, BLOCK.get(..k).unwrap_or(BLOCK)];
        let container = fault(Reason::Container);
        assert!(rt;
            gives(&rt, alloc, &file, None, PLAIN, container, b""),
            "{k}"
        );
    }
}

#[test]
fn a_failing_read_ends_it(rt: HostRuntime) {
    let alloc = rt.alloc();
    let fault = Err(Error::ReadFault { line: None });
    for failing_read in 1..123u64 {
        let how = How {
            piece: 1,
            failing_read,
            ..PLAIN
        };
        // The last one is the read that would show the end.
        let held = if failing_read == 122 { TWO_LINES } else { "" };
        let file = [HEADER, BLOCK];
        assert!(rt;
            gives(&rt, alloc, &file, None, how, fault, held.as_bytes()),
            "{failing_read}"
        );
    }
}

#[test]
fn a_failing_write_leaves_a_prefix(rt: HostRuntime) {
    let alloc = rt.alloc();
    for failing_write in 1..18u64 {
        let how = How {
            piece: 1,
            failing_write,
            ..PLAIN
        };
        let before = (failing_write - 1) as usize;
        let held = TWO_LINES.as_bytes().get(..before).unwrap_or(b"");
        let file = [HEADER, BLOCK];
        let fault = Err(Error::WriteFault);
        assert!(rt;
            gives(&rt, alloc, &file, None, how, fault, held),
            "{failing_write}"
        );
    }
}
