//! The command `avro` over sources and sinks in memory.

use crate::tests::{FILE, HEADER, has_ended, plain_answer};

/// The header with a block of a row of the value 15 after it.
const FIFTEEN: &[u8] =
    b"Obj\x01\x02\x16avro.schema\x82\x01{\"type\":\"record\",\"name\":\"t\",\"fields\":[{\"name\":\"a\",\"type\":\"int\"}]}\x00\x01\x01\x01\x01\x01\x01\x01\x01\x01\x01\x01\x01\x01\x01\x01\x01\x02\x02\x1e\x01\x01\x01\x01\x01\x01\x01\x01\x01\x01\x01\x01\x01\x01\x01\x01";

const INT: &str = "avro t 10 01010101010101010101010101010101 a=int";

#[test]
fn lines_become_a_file(rt: HostRuntime) {
    let table: [(&[u8], &[u8]); 3] = [
        (b"{\"a\":1}\n{\"a\":-2}\n", FILE),
        (b"{\"a\":1.5e1}", FIFTEEN),
        (b"\n", HEADER),
    ];
    for (lines, file) in table {
        let answer = plain_answer(&rt, rt.alloc(), INT, lines);
        assert!(rt; has_ended(answer, 0, file, ""));
    }
}

#[test]
fn rows_without_a_file_are_refused(rt: HostRuntime) {
    let table: [(&[u8], u8, &str); 3] = [
        (b"{\"a\":1e400}", 6, "avrocat: Overflow\n"),
        (
            b"{\"b\":1}",
            2,
            "avrocat: InvalidArgumentError: NullUnderRequired\n",
        ),
        (b"3", 4, "avrocat: ExternalFormat: NotAnObject\n"),
    ];
    for (lines, status, note) in table {
        let answer = plain_answer(&rt, rt.alloc(), INT, lines);
        assert!(rt; has_ended(answer, status, HEADER, note), "{note}");
    }
}

#[test]
fn other_fields_and_words_are_refused(rt: HostRuntime) {
    for (line, status, note) in [
        (
            "avro t 10 01010101010101010101010101010101 a=null?",
            3,
            "avrocat: NotYetImplemented: MapOrUnion\n",
        ),
        (
            "avro t 10 01010101010101010101010101010101",
            3,
            "avrocat: NotYetImplemented: NoField\n",
        ),
        (
            "avro t 10 01010101010101010101010101010101 a=int a=long",
            2,
            "avrocat: InvalidArgumentError: DuplicateName\n",
        ),
        (
            "avro t 10 01010101010101010101010101010101 ~a=int",
            1,
            "avrocat: usage\n",
        ),
        (
            "avro t 0 01010101010101010101010101010101 a=int",
            1,
            "avrocat: usage\n",
        ),
        ("avro t 1 01 a=int", 1, "avrocat: usage\n"),
    ] {
        let answer = plain_answer(&rt, rt.alloc(), line, b"{}");
        assert!(rt; has_ended(answer, status, b"", note), "{line}");
    }
}
