//! Avro files into their canonical form.

use crate::canonical_files::{
    ARRAYS, CANONICAL_EVENTS, ENUM, INT_OR_NULL, LONG_NUMBERS, NO_ROWS, NULL_FIRST, NULL_OR_INT,
    NULL_SECOND, SPLIT_ARRAYS, TWO_BLOCKS, WHOLE_ARRAYS,
};
use crate::files::{BLOCK, EVENTS, FLOAT, HEADER, MAP, NO_FIELD};
use arrow_base::{Bytes, Error, Items, MemorySink, MemorySource, Reason, Result};
use avro_canonical::avro_rewrite;
use std::alloc::Global;
use std::process::Abort;

/// By which marker a file is rewritten, under which limit, in pieces of how many bytes at most it is read
/// and written, and which calls fail, counted from 1: none where it is 0.
#[derive(Clone, Copy)]
struct How {
    marker: u8,
    limit: u64,
    piece: usize,
    failing_read: u64,
    failing_write: u64,
}

const PLAIN: How = How {
    marker: 1,
    limit: 1000,
    piece: 60,
    failing_read: 0,
    failing_write: 0,
};

/// The answer, and what the sink then holds.
#[derive(Drop)]
struct Rewritten {
    answer: Result<u64>,
    held: Bytes,
}

fn number(rt: &impl Abort, alloc: Global, number: u64) -> Items<u64> {
    Items::try_from_slice(alloc, &[number]).expect(rt, "memory")
}

/// The pieces of a file, one after another.
fn joined(rt: &impl Abort, alloc: Global, pieces: &[&[u8]]) -> Bytes {
    let mut bytes = Bytes::new(alloc);
    for piece in pieces {
        bytes.push_slice(piece).expect(rt, "memory");
    }
    bytes
}

/// What becomes of a file under the name `t`.
fn rewrite_file(rt: &impl Abort, alloc: Global, pieces: &[&[u8]], how: How) -> Rewritten {
    let failing_read = number(rt, alloc, how.failing_read);
    let failing_write = number(rt, alloc, how.failing_write);
    let piece = how.piece.max(1);
    let mut source = MemorySource::new(joined(rt, alloc, pieces), piece, failing_read);
    let mut sink = MemorySink::with_room(alloc, 1000, piece, failing_write).expect(rt, "memory");
    let marker = [how.marker; 16];
    let answer = avro_rewrite(alloc, &mut source, &mut sink, "t", marker, how.limit);
    let held = Bytes::try_from_slice(alloc, sink.held()).expect(rt, "memory");
    drop((source, sink));
    Rewritten { answer, held }
}

/// Whether the answer is this, and the sink then holds these bytes.
fn gives(
    rt: &impl Abort,
    alloc: Global,
    pieces: &[&[u8]],
    how: How,
    answer: Result<u64>,
    held: &[&[u8]],
) -> bool {
    let rewritten = rewrite_file(rt, alloc, pieces, how);
    let held = joined(rt, alloc, held);
    let gives_so = rewritten.answer == answer && rewritten.held.as_slice() == held.as_slice();
    drop((rewritten, held));
    gives_so
}

/// Whether the file is refused for this reason, with nothing written.
fn is_refused(rt: &impl Abort, alloc: Global, file: &[u8], reason: Reason) -> bool {
    gives(
        rt,
        alloc,
        &[file],
        PLAIN,
        Err(Error::NotYetImplemented(reason)),
        &[],
    )
}

#[test]
fn each_number_becomes_the_shortest(rt: HostRuntime) {
    let alloc = rt.alloc();
    let file = &[HEADER, LONG_NUMBERS];
    assert!(rt; gives(&rt, alloc, file, PLAIN, Ok(2), &[HEADER, BLOCK]));
}

#[test]
fn a_canonical_file_stays(rt: HostRuntime) {
    let alloc = rt.alloc();
    assert!(rt; gives(&rt, alloc, &[HEADER, BLOCK], PLAIN, Ok(2), &[HEADER, BLOCK]));
    assert!(rt; gives(&rt, alloc, &[HEADER], PLAIN, Ok(0), &[HEADER]));
}

#[test]
fn each_array_becomes_one_block(rt: HostRuntime) {
    let alloc = rt.alloc();
    let whole = &[ARRAYS, WHOLE_ARRAYS];
    for block in [SPLIT_ARRAYS, TWO_BLOCKS, WHOLE_ARRAYS] {
        assert!(rt; gives(&rt, alloc, &[ARRAYS, block], PLAIN, Ok(2), whole));
    }
}

#[test]
fn null_comes_first(rt: HostRuntime) {
    let alloc = rt.alloc();
    let first = &[NULL_FIRST, NULL_OR_INT];
    let second = &[NULL_SECOND, INT_OR_NULL];
    assert!(rt; gives(&rt, alloc, second, PLAIN, Ok(2), first));
    assert!(rt; gives(&rt, alloc, first, PLAIN, Ok(2), first));
}

#[test]
fn blocks_of_no_rows_are_left_out_and_others_stay_apart(rt: HostRuntime) {
    let alloc = rt.alloc();
    let file = &[HEADER, NO_ROWS, BLOCK, NO_ROWS, LONG_NUMBERS, NO_ROWS];
    assert!(rt; gives(&rt, alloc, file, PLAIN, Ok(4), &[HEADER, BLOCK, BLOCK]));
}

#[test]
fn name_codec_and_marker_are_replaced(rt: HostRuntime) {
    let alloc = rt.alloc();
    let how = How { marker: 2, ..PLAIN };
    assert!(rt; gives(&rt, alloc, &[EVENTS], how, Ok(3), &[CANONICAL_EVENTS]));
    assert!(rt;
        gives(
            &rt,
            alloc,
            &[CANONICAL_EVENTS],
            how,
            Ok(3),
            &[CANONICAL_EVENTS]
        )
    );
}

#[test]
fn fields_are_refused_before_anything_is_written(rt: HostRuntime) {
    let alloc = rt.alloc();
    assert!(rt; is_refused(&rt, alloc, NO_FIELD, Reason::NoField));
    assert!(rt; is_refused(&rt, alloc, MAP, Reason::NotCarried));
    assert!(rt; is_refused(&rt, alloc, FLOAT, Reason::Float));
    assert!(rt; is_refused(&rt, alloc, ENUM, Reason::NoAvroType));
}

#[test]
fn a_file_that_is_cut_is_refused(rt: HostRuntime) {
    let alloc = rt.alloc();
    let fault = |reason: Reason| Err(Error::ExternalFormat(reason));
    for k in 0..101usize {
        let reason = if k < 4 { Reason::Magic } else { Reason::Header };
        let file = HEADER.get(..k).unwrap_or(HEADER);
        assert!(rt;
            gives(&rt, alloc, &[file], PLAIN, fault(reason), &[]),
            "{k}"
        );
    }
    for k in 1..20usize {
        let file = [HEADER, LONG_NUMBERS, BLOCK.get(..k).unwrap_or(BLOCK)];
        let container = fault(Reason::Container);
        let held = [HEADER, BLOCK];
        assert!(rt; gives(&rt, alloc, &file, PLAIN, container, &held), "{k}");
    }
}

#[test]
fn a_block_whose_bytes_are_no_rows_leaves_the_blocks_before(rt: HostRuntime) {
    let alloc = rt.alloc();
    let marker: &[u8] = &[1; 16];
    let broken: [(&[u8], Reason); 4] = [
        (b"\x02\x04\x02\x04", Reason::BlockBytes),
        (b"\x04\x00", Reason::Rows),
        (b"\x04\x02\x82", Reason::Rows),
        (b"\x04\x04\x82\x00", Reason::BlockBytes),
    ];
    for (block, reason) in broken {
        let file = [HEADER, LONG_NUMBERS, block, marker];
        let fault = Err(Error::ExternalFormat(reason));
        assert!(rt; gives(&rt, alloc, &file, PLAIN, fault, &[HEADER, BLOCK]));
    }
}

#[test]
fn the_header_counts_for_the_limit(rt: HostRuntime) {
    let alloc = rt.alloc();
    // The file has 121 bytes.
    let short = How {
        limit: 120,
        ..PLAIN
    };
    let past = Err(Error::LimitExceeded);
    assert!(rt; gives(&rt, alloc, &[HEADER, BLOCK], short, past, &[HEADER]));
    let enough = How {
        limit: 121,
        ..PLAIN
    };
    assert!(rt;
        gives(
            &rt,
            alloc,
            &[HEADER, BLOCK],
            enough,
            Ok(2),
            &[HEADER, BLOCK]
        )
    );
}

#[test]
fn a_failing_write_leaves_a_prefix(rt: HostRuntime) {
    let alloc = rt.alloc();
    let file = joined(&rt, alloc, &[HEADER, BLOCK]);
    let bytes = How { piece: 1, ..PLAIN };
    assert!(rt;
        gives(
            &rt,
            alloc,
            &[file.as_slice()],
            bytes,
            Ok(2),
            &[file.as_slice()]
        )
    );
    for failing_write in 1..122u64 {
        let how = How {
            piece: 1,
            failing_write,
            ..PLAIN
        };
        let before = (failing_write - 1) as usize;
        let held = file.as_slice().get(..before).unwrap_or(b"");
        let fault = Err(Error::WriteFault);
        assert!(rt;
            gives(&rt, alloc, &[HEADER, LONG_NUMBERS], how, fault, &[held]),
            "{failing_write}"
        );
    }
}

#[test]
fn a_failing_read_leaves_the_blocks_before(rt: HostRuntime) {
    let alloc = rt.alloc();
    for failing_read in 1..123u64 {
        let how = How {
            piece: 1,
            failing_read,
            ..PLAIN
        };
        // The header has 101 bytes, and the last read is the one that would show the end.
        let whole: &[&[u8]] = &[HEADER, BLOCK];
        let pieces = if failing_read <= 101 {
            0
        } else if failing_read <= 121 {
            1
        } else {
            2
        };
        let held = whole.get(..pieces).unwrap_or(whole);
        let fault = Err(Error::ReadFault { line: None });
        assert!(rt;
            gives(&rt, alloc, &[HEADER, BLOCK], how, fault, held),
            "{failing_read}"
        );
    }
}
