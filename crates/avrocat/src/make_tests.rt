//! The command `make` over sinks in memory.

use crate::tests::{answer_of, is_answer, plain_answer, sink, source};

/// The lines of two rows from 1 on: `00 02 08 75 38 33 38 02 04 74 33 00 01` and
/// `02 02 06 75 35 31 04 04 74 30 04 74 39 00 00`.
const TWO: &str = "rows 2\nbytes 28\nsum 1042\nid 1\nuser 2\ntags 3\nok 1\nkept id 1 ok 1\n";

/// The lines of no row.
const NONE: &str = "rows 0\nbytes 0\nsum 0\nid 0\nuser 0\ntags 0\nok 0\nkept id 0 ok 0\n";

#[test]
fn rows_are_made(rt: HostRuntime) {
    for (line, output) in [("make 1 2", TWO), ("make 1 0", NONE)] {
        let answer = plain_answer(&rt, rt.alloc(), line, b"");
        assert!(rt; is_answer(answer, 0, output, ""), "{line}");
    }
}

#[test]
fn a_sink_that_fails_is_the_status_of_make(rt: HostRuntime) {
    let unread = source(&rt, rt.alloc(), b"", 0);
    let answer = answer_of(
        &rt,
        rt.alloc(),
        "make 1 2",
        unread,
        sink(&rt, rt.alloc(), 1),
    );
    assert!(rt; is_answer(answer, 9, "", "avrocat: WriteFault\n"));
}

#[test]
fn other_words_of_make_are_usage(rt: HostRuntime) {
    for line in [
        "make",
        "make 1",
        "make 1 2 3",
        "make 2147483648 1",
        "make 1 1000001",
        "make 01 2",
        "make 1 02",
        "make 00 0",
        "make +1 2",
        "make -1 2",
    ] {
        let answer = plain_answer(&rt, rt.alloc(), line, b"");
        assert!(rt; is_answer(answer, 1, "", "avrocat: usage\n"), "{line}");
    }
}
