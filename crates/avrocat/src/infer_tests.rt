//! The command `infer` over sources and sinks in memory.

use crate::tests::{answer_of, is_answer, plain_answer, sink, source};

#[test]
fn types_of_lines_are_told(rt: HostRuntime) {
    let table: [(&[u8], &str); 3] = [
        (b"1\ntrue\n", "Int64\n"),
        (b"1\ntrue\n2.5", "Utf8\n"),
        (
            b"{\"a\":1,\"b\":null,\"c\":[1,2.5]}",
            "Struct{\"a\":Int64,\"c\":List(Float64)}\n",
        ),
    ];
    for (bytes, output) in table {
        let answer = plain_answer(&rt, rt.alloc(), "infer", bytes);
        assert!(rt; is_answer(answer, 0, output, ""), "{output}");
    }
}

#[test]
fn lines_without_a_type_are_refused(rt: HostRuntime) {
    let none = plain_answer(&rt, rt.alloc(), "infer", b"");
    assert!(rt; is_answer(none, 4, "", "avrocat: ExternalFormat: EmptyInput\n"));
}

#[test]
fn other_words_of_infer_are_usage(rt: HostRuntime) {
    let more = plain_answer(&rt, rt.alloc(), "infer 1", b"1\n");
    assert!(rt; is_answer(more, 1, "", "avrocat: usage\n"));
}

#[test]
fn a_failed_read_is_told_with_its_line(rt: HostRuntime) {
    let unread = source(&rt, rt.alloc(), b"1\n2\n", 1);
    let fault = answer_of(&rt, rt.alloc(), "infer", unread, sink(&rt, rt.alloc(), 0));
    assert!(rt; is_answer(fault, 8, "", "avrocat: ReadFault: line 1\n"));
}
