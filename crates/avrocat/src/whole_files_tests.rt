//! Whole files, and each way in which one is cut, or a read or a write of one fails.

use crate::tests::{FILE, answer_of, has_ended, is_answer, plain_answer, sink, source};
use arrow_base::{Bytes, Items, MemorySink, MemorySource};
use std::alloc::Global;
use std::process::Abort;

/// Four fields, two blocks, and a codec that is named, as usual producers write it.
const EVENTS: &[u8] =
    b"Obj\x01\x04\x16avro.schema\x96\x04{\"type\":\"record\",\"name\":\"Event\",\"namespace\":\"com.example\",\"fields\":[{\"name\":\"id\",\"type\":\"long\"},{\"name\":\"user\",\"type\":\"string\"},{\"name\":\"tags\",\"type\":{\"type\":\"array\",\"items\":[\"null\",\"string\"]}},{\"name\":\"when\",\"type\":{\"type\":\"long\",\"logicalType\":\"timestamp-millis\"}}]}\x14avro.codec\x08null\x00\x01\x01\x01\x01\x01\x01\x01\x01\x01\x01\x01\x01\x01\x01\x01\x01\x040\x0e\x06ann\x04\x02\x02a\x00\x00\x90\xe2\x86\x82\x99c\x10\x06bob\x00\x00\x01\x01\x01\x01\x01\x01\x01\x01\x01\x01\x01\x01\x01\x01\x01\x01\x02\x14\x12\x04\xc3\xa9\x02\x02\x02x\x00\x01\x01\x01\x01\x01\x01\x01\x01\x01\x01\x01\x01\x01\x01\x01\x01\x01";

/// The canonical form of `EVENTS`, of a record `t` and the same marker.
const CANONICAL_EVENTS: &[u8] =
    b"Obj\x01\x02\x16avro.schema\xda\x03{\"type\":\"record\",\"name\":\"t\",\"fields\":[{\"name\":\"id\",\"type\":\"long\"},{\"name\":\"user\",\"type\":\"string\"},{\"name\":\"tags\",\"type\":{\"type\":\"array\",\"items\":[\"null\",\"string\"]}},{\"name\":\"when\",\"type\":{\"type\":\"long\",\"logicalType\":\"timestamp-millis\"}}]}\x00\x01\x01\x01\x01\x01\x01\x01\x01\x01\x01\x01\x01\x01\x01\x01\x01\x040\x0e\x06ann\x04\x02\x02a\x00\x00\x90\xe2\x86\x82\x99c\x10\x06bob\x00\x00\x01\x01\x01\x01\x01\x01\x01\x01\x01\x01\x01\x01\x01\x01\x01\x01\x02\x14\x12\x04\xc3\xa9\x02\x02\x02x\x00\x01\x01\x01\x01\x01\x01\x01\x01\x01\x01\x01\x01\x01\x01\x01\x01\x01";

const EVENT_LINES: &str =
    "{\"id\":7,\"user\":\"ann\",\"tags\":[\"a\",null],\"when\":\"2024-01-02T03:04:05+00:00\"}\n{\"id\":8,\"user\":\"bob\",\"tags\":[],\"when\":\"1970-01-01T00:00:00+00:00\"}\n{\"id\":9,\"user\":\"é\",\"tags\":[\"x\"],\"when\":\"1969-12-31T23:59:59.999+00:00\"}\n";

/// The lines of the second field alone.
const USERS: &str = "{\"user\":\"ann\"}\n{\"user\":\"bob\"}\n{\"user\":\"é\"}\n";

/// A block of one row that states 2^63 - 1 items and has none of them.
const FALSE_COUNT: &[u8] =
    b"Obj\x01\x02\x16avro.schema\xb6\x01{\"type\":\"record\",\"name\":\"t\",\"fields\":[{\"name\":\"a\",\"type\":{\"type\":\"array\",\"items\":\"long\"}}]}\x00\x01\x01\x01\x01\x01\x01\x01\x01\x01\x01\x01\x01\x01\x01\x01\x01\x02\x14\xfe\xff\xff\xff\xff\xff\xff\xff\xff\x01\x01\x01\x01\x01\x01\x01\x01\x01\x01\x01\x01\x01\x01\x01\x01\x01";

/// One timestamp of nanoseconds by a local clock: 1.
const NANOSECONDS: &[u8] =
    b"Obj\x01\x02\x16avro.schema\xe2\x01{\"type\":\"record\",\"name\":\"t\",\"fields\":[{\"name\":\"a\",\"type\":{\"type\":\"long\",\"logicalType\":\"local-timestamp-nanos\"}}]}\x00\x01\x01\x01\x01\x01\x01\x01\x01\x01\x01\x01\x01\x01\x01\x01\x01\x02\x02\x02\x01\x01\x01\x01\x01\x01\x01\x01\x01\x01\x01\x01\x01\x01\x01\x01";

const LINES: &str = "{\"a\":1}\n{\"a\":-2}\n";

const REWRITE: &str = "rewrite t 01010101010101010101010101010101";

#[test]
fn files_become_lines(rt: HostRuntime) {
    let number = "avrocat: InvalidArgumentError: KeepNumber\n";
    let table: [(&str, &[u8], u8, &str, &str); 6] = [
        ("ndjson", EVENTS, 0, EVENT_LINES, ""),
        ("ndjson 1", EVENTS, 0, USERS, ""),
        ("ndjson 4", EVENTS, 2, "", number),
        ("ndjson 1 1", EVENTS, 2, "", number),
        (
            "ndjson",
            FALSE_COUNT,
            4,
            "",
            "avrocat: ExternalFormat: BlockBytes\n",
        ),
        (
            "ndjson",
            NANOSECONDS,
            0,
            "{\"a\":\"1970-01-01 00:00:00.000000001\"}\n",
            "",
        ),
    ];
    for (line, bytes, status, output, note) in table {
        let answer = plain_answer(&rt, rt.alloc(), line, bytes);
        assert!(rt; is_answer(answer, status, output, note), "{line}");
    }
}

/// A sink with room for `CANONICAL_EVENTS`.
fn roomy_sink(rt: &impl Abort, alloc: Global) -> MemorySink {
    let failing = Items::try_from_slice(alloc, &[]).expect(rt, "memory");
    MemorySink::with_room(alloc, 512, 512, failing).expect(rt, "memory")
}

#[test]
fn a_rewritten_file_loses_namespace_and_codec(rt: HostRuntime) {
    let roomy = roomy_sink(&rt, rt.alloc());
    let answer = answer_of(
        &rt,
        rt.alloc(),
        REWRITE,
        source(&rt, rt.alloc(), EVENTS, 0),
        roomy,
    );
    assert!(rt; has_ended(answer, 0, CANONICAL_EVENTS, ""));
}

/// `FILE` ends with a header of 101 bytes and a block of 20.
#[test]
fn a_cut_file_is_refused(rt: HostRuntime) {
    for kept in 0..121usize {
        let (status, note) = match kept {
            0..4 => (4, "avrocat: ExternalFormat: Magic\n"),
            4..101 => (4, "avrocat: ExternalFormat: Header\n"),
            101 => (0, ""),
            _ => (4, "avrocat: ExternalFormat: Container\n"),
        };
        let answer = plain_answer(&rt, rt.alloc(), "ndjson", &FILE[..kept]);
        assert!(rt; is_answer(answer, status, "", note), "{kept}");
    }
}

#[test]
fn a_cut_block_is_refused(rt: HostRuntime) {
    let block = b"\x00\x02\x02\x04\x02a\x02b\x00";
    let line = "block 2 r={x=int;y=[string]}?";
    for kept in 0..9usize {
        let note = if kept < 2 {
            "avrocat: ExternalFormat: Rows\n"
        } else {
            "avrocat: ExternalFormat: BlockBytes\n"
        };
        let answer = plain_answer(&rt, rt.alloc(), line, &block[..kept]);
        assert!(rt; is_answer(answer, 4, "", note), "{kept}");
    }
}

/// A source that gives these bytes one by one, and whose read of this number fails, none where it is 0.
fn slow_source(rt: &impl Abort, alloc: Global, bytes: &[u8], failing_read: u64) -> MemorySource {
    let bytes = Bytes::try_from_slice(alloc, bytes).expect(rt, "memory");
    let failing = Items::try_from_slice(alloc, &[failing_read]).expect(rt, "memory");
    MemorySource::new(bytes, 1, failing)
}

/// A sink that takes bytes one by one, and whose write of this number fails, none where it is 0.
fn slow_sink(rt: &impl Abort, alloc: Global, failing_write: u64) -> MemorySink {
    let failing = Items::try_from_slice(alloc, &[failing_write]).expect(rt, "memory");
    MemorySink::with_room(alloc, 256, 1, failing).expect(rt, "memory")
}

#[test]
fn bytes_may_come_one_by_one(rt: HostRuntime) {
    for (bytes, lines) in [(FILE, LINES), (EVENTS, EVENT_LINES)] {
        let slow = slow_source(&rt, rt.alloc(), bytes, 0);
        let answer = answer_of(&rt, rt.alloc(), "ndjson", slow, sink(&rt, rt.alloc(), 0));
        assert!(rt; is_answer(answer, 0, lines, ""), "{lines}");
    }
}

#[test]
fn each_read_may_fail(rt: HostRuntime) {
    for failing_read in 1..123u64 {
        // The last one is the read that would show the end.
        let lines = if failing_read == 122 { LINES } else { "" };
        let slow = slow_source(&rt, rt.alloc(), FILE, failing_read);
        let answer = answer_of(&rt, rt.alloc(), "ndjson", slow, sink(&rt, rt.alloc(), 0));
        assert!(rt;
            is_answer(answer, 8, lines, "avrocat: ReadFault\n"),
            "{failing_read}"
        );
    }
}

#[test]
fn each_write_may_fail(rt: HostRuntime) {
    let int = "avro t 10 01010101010101010101010101010101 a=int";
    let table: [(&str, &[u8], &[u8]); 2] = [
        ("ndjson", FILE, LINES.as_bytes()),
        (int, LINES.as_bytes(), FILE),
    ];
    for (line, bytes, output) in table {
        for written in 0..output.len() {
            let failing = slow_sink(&rt, rt.alloc(), written as u64 + 1);
            let answer = answer_of(
                &rt,
                rt.alloc(),
                line,
                source(&rt, rt.alloc(), bytes, 0),
                failing,
            );
            assert!(rt;
                has_ended(answer, 9, &output[..written], "avrocat: WriteFault\n"),
                "{written}"
            );
        }
    }
}

#[test]
fn many_rows_are_made(rt: HostRuntime) {
    let lines =
        "rows 100000\nbytes 1325020\nsum 76095534\nid 4999950000\nuser 74930\ntags 100051\nok 49923\nkept id 4999950000 ok 49923\n";
    let answer = plain_answer(&rt, rt.alloc(), "make 7 100000", b"");
    assert!(rt; is_answer(answer, 0, lines, ""));
}
