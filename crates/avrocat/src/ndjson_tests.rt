//! The command `ndjson` over sources and sinks in memory.

use crate::tests::{FILE, answer_of, is_answer, plain_answer, sink, source};

/// `FILE` with a block of no rows before its own.
const EMPTY_BLOCK: &[u8] =
    b"Obj\x01\x02\x16avro.schema\x82\x01{\"type\":\"record\",\"name\":\"t\",\"fields\":[{\"name\":\"a\",\"type\":\"int\"}]}\x00\x01\x01\x01\x01\x01\x01\x01\x01\x01\x01\x01\x01\x01\x01\x01\x01\x00\x00\x01\x01\x01\x01\x01\x01\x01\x01\x01\x01\x01\x01\x01\x01\x01\x01\x04\x04\x02\x03\x01\x01\x01\x01\x01\x01\x01\x01\x01\x01\x01\x01\x01\x01\x01\x01";

/// `FILE` with another byte at the end of its marker.
const OTHER_MARKER: &[u8] =
    b"Obj\x01\x02\x16avro.schema\x82\x01{\"type\":\"record\",\"name\":\"t\",\"fields\":[{\"name\":\"a\",\"type\":\"int\"}]}\x00\x01\x01\x01\x01\x01\x01\x01\x01\x01\x01\x01\x01\x01\x01\x01\x01\x04\x04\x02\x03\x01\x01\x01\x01\x01\x01\x01\x01\x01\x01\x01\x01\x01\x01\x01\x02";

/// `FILE`, and its block once more with another byte at the end of its marker.
const LATER_MARKER: &[u8] =
    b"Obj\x01\x02\x16avro.schema\x82\x01{\"type\":\"record\",\"name\":\"t\",\"fields\":[{\"name\":\"a\",\"type\":\"int\"}]}\x00\x01\x01\x01\x01\x01\x01\x01\x01\x01\x01\x01\x01\x01\x01\x01\x01\x04\x04\x02\x03\x01\x01\x01\x01\x01\x01\x01\x01\x01\x01\x01\x01\x01\x01\x01\x01\x04\x04\x02\x03\x01\x01\x01\x01\x01\x01\x01\x01\x01\x01\x01\x01\x01\x01\x01\x02";

const LINES: &str = "{\"a\":1}\n{\"a\":-2}\n";

#[test]
fn files_are_shown_or_refused(rt: HostRuntime) {
    let marker = "avrocat: ExternalFormat: Marker\n";
    let number = "avrocat: InvalidArgumentError: KeepNumber\n";
    let table: [(&str, &[u8], u8, &str, &str); 10] = [
        ("ndjson", FILE, 0, LINES, ""),
        ("ndjson 0", FILE, 0, LINES, ""),
        ("ndjson", EMPTY_BLOCK, 0, LINES, ""),
        ("ndjson", OTHER_MARKER, 4, "", marker),
        ("ndjson", LATER_MARKER, 4, LINES, marker),
        ("ndjson", b"", 4, "", "avrocat: ExternalFormat: Magic\n"),
        ("ndjson 1", FILE, 2, "", number),
        ("ndjson 0 0", FILE, 2, "", number),
        ("ndjson -1", FILE, 1, "", "avrocat: usage\n"),
        (
            "ndjson 18446744073709551616",
            FILE,
            1,
            "",
            "avrocat: usage\n",
        ),
    ];
    for (line, bytes, status, output, note) in table {
        let answer = plain_answer(&rt, rt.alloc(), line, bytes);
        assert!(rt; is_answer(answer, status, output, note), "{line}");
    }
}

#[test]
fn a_fault_ends_the_lines(rt: HostRuntime) {
    let unread = source(&rt, rt.alloc(), FILE, 2);
    let answer_unread = answer_of(&rt, rt.alloc(), "ndjson", unread, sink(&rt, rt.alloc(), 0));
    assert!(rt; is_answer(answer_unread, 8, "", "avrocat: ReadFault\n"));
    let file = source(&rt, rt.alloc(), FILE, 0);
    let answer_unwritten = answer_of(&rt, rt.alloc(), "ndjson", file, sink(&rt, rt.alloc(), 1));
    assert!(rt; is_answer(answer_unwritten, 9, "", "avrocat: WriteFault\n"));
}
