//! The command `rewrite` over sources and sinks in memory.

use crate::tests::{FILE, has_ended, is_answer, plain_answer};

/// `FILE` with the first number in two bytes.
const LONGER: &[u8] =
    b"Obj\x01\x02\x16avro.schema\x82\x01{\"type\":\"record\",\"name\":\"t\",\"fields\":[{\"name\":\"a\",\"type\":\"int\"}]}\x00\x01\x01\x01\x01\x01\x01\x01\x01\x01\x01\x01\x01\x01\x01\x01\x01\x04\x06\x82\x00\x03\x01\x01\x01\x01\x01\x01\x01\x01\x01\x01\x01\x01\x01\x01\x01\x01";

/// `FILE` with the sync marker a0 a1 to af.
const OTHER_MARKER: &[u8] =
    b"Obj\x01\x02\x16avro.schema\x82\x01{\"type\":\"record\",\"name\":\"t\",\"fields\":[{\"name\":\"a\",\"type\":\"int\"}]}\x00\xa0\xa1\xa2\xa3\xa4\xa5\xa6\xa7\xa8\xa9\xaa\xab\xac\xad\xae\xaf\x04\x04\x02\x03\xa0\xa1\xa2\xa3\xa4\xa5\xa6\xa7\xa8\xa9\xaa\xab\xac\xad\xae\xaf";

#[test]
fn files_are_rewritten(rt: HostRuntime) {
    let ones = "rewrite t 01010101010101010101010101010101";
    let others = "rewrite t a0a1a2a3a4a5a6A7A8A9AAABACADAEAF";
    for (line, bytes, output) in [
        (ones, FILE, FILE),
        (ones, LONGER, FILE),
        (others, FILE, OTHER_MARKER),
    ] {
        let answer = plain_answer(&rt, rt.alloc(), line, bytes);
        assert!(rt; has_ended(answer, 0, output, ""), "{line}");
    }
}

#[test]
fn other_words_of_rewrite_are_usage(rt: HostRuntime) {
    for line in [
        "rewrite",
        "rewrite t",
        "rewrite t 0101010101010101010101010101010",
        "rewrite t 0101010101010101010101010101010101",
        "rewrite t +1010101010101010101010101010101",
        "rewrite t 0101010101010101010101010101010g",
        "rewrite t= 01010101010101010101010101010101",
        "rewrite t 01010101010101010101010101010101 a",
    ] {
        let answer = plain_answer(&rt, rt.alloc(), line, b"");
        assert!(rt; is_answer(answer, 1, "", "avrocat: usage\n"), "{line}");
    }
}
