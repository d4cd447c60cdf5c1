//! The program as a call, over sources and sinks in memory.

use arrow_base::{Bytes, Items, MemorySink, MemorySource, Text};
use avrocat_commands::run;
use std::alloc::Global;
use std::process::Abort;

fn text(rt: &impl Abort, alloc: Global, text: &str) -> Text {
    Text::try_from_str(alloc, text).expect(rt, "memory")
}

fn words(rt: &impl Abort, alloc: Global, line: &str) -> Vec<Text> {
    let mut words = Vec::new(alloc);
    for word in line.split(' ') {
        if !word.is_empty() {
            words.push(text(rt, alloc, word)).expect(rt, "memory");
        }
    }
    words
}

/// The numbers of the calls that fail: this one, or none where it is 0.
fn failing(rt: &impl Abort, alloc: Global, call: u64) -> Items<u64> {
    Items::try_from_slice(alloc, &[call]).expect(rt, "memory")
}

pub(crate) fn source(
    rt: &impl Abort,
    alloc: Global,
    bytes: &[u8],
    failing_read: u64,
) -> MemorySource {
    let bytes = Bytes::try_from_slice(alloc, bytes).expect(rt, "memory");
    MemorySource::new(bytes, 3, failing(rt, alloc, failing_read))
}

pub(crate) fn sink(rt: &impl Abort, alloc: Global, failing_write: u64) -> MemorySink {
    let failing = failing(rt, alloc, failing_write);
    MemorySink::with_room(alloc, 8192, 256, failing).expect(rt, "memory")
}

/// What a command answers.
#[derive(Drop)]
pub(crate) struct Answer {
    status: u8,
    output: MemorySink,
    note: MemorySink,
}

pub(crate) fn answer_of(
    rt: &impl Abort,
    alloc: Global,
    line: &str,
    mut source: MemorySource,
    mut output: MemorySink,
) -> Answer {
    let words = words(rt, alloc, line);
    let mut note = sink(rt, alloc, 0);
    let status = run(alloc, words.as_slice(), &mut source, &mut output, &mut note);
    Answer {
        status,
        output,
        note,
    }
}

pub(crate) fn is_answer(answer: Answer, status: u8, output: &str, note: &str) -> bool {
    has_ended(answer, status, output.as_bytes(), note)
}

/// Whether a command ended with this status, these bytes and this note.
pub(crate) fn has_ended(answer: Answer, status: u8, output: &[u8], note: &str) -> bool {
    answer.status == status
        && answer.output.held() == output
        && answer.note.held() == note.as_bytes()
}

/// The answer of a line on these bytes, where no read and no write fails.
pub(crate) fn plain_answer(rt: &impl Abort, alloc: Global, line: &str, bytes: &[u8]) -> Answer {
    answer_of(
        rt,
        alloc,
        line,
        source(rt, alloc, bytes, 0),
        sink(rt, alloc, 0),
    )
}

/// The header of a file of a record of one int, `a`, with a marker of sixteen bytes 1.
pub(crate) const HEADER: &[u8] =
    b"Obj\x01\x02\x16avro.schema\x82\x01{\"type\":\"record\",\"name\":\"t\",\"fields\":[{\"name\":\"a\",\"type\":\"int\"}]}\x00\x01\x01\x01\x01\x01\x01\x01\x01\x01\x01\x01\x01\x01\x01\x01\x01";

/// The file of this header, with a block of the rows 1 and -2.
pub(crate) const FILE: &[u8] =
    b"Obj\x01\x02\x16avro.schema\x82\x01{\"type\":\"record\",\"name\":\"t\",\"fields\":[{\"name\":\"a\",\"type\":\"int\"}]}\x00\x01\x01\x01\x01\x01\x01\x01\x01\x01\x01\x01\x01\x01\x01\x01\x01\x04\x04\x02\x03\x01\x01\x01\x01\x01\x01\x01\x01\x01\x01\x01\x01\x01\x01\x01\x01";

const TWO_ROWS: &[u8] = b"\x02\x02\x04hi\x03\x00";

#[test]
fn valid_blocks_are_shown(rt: HostRuntime) {
    let table: [(&str, &[u8], &str); 12] = [
        (
            "block 2 a=int b=string?",
            TWO_ROWS,
            "a:[1,-2]\nb:[\"hi\",null]\n",
        ),
        ("block 2 ~a=int b=string?", TWO_ROWS, "b:[\"hi\",null]\n"),
        ("block 0 a=int", b"", "a:[]\n"),
        ("block 1 a=long", b"\x80\x01", "a:[64]\n"),
        ("block 1 a=long", b"\x80\x81\x00", "a:[64]\n"),
        (
            "block 1 a=long",
            b"\xff\xff\xff\xff\xff\xff\xff\xff\xff\x01",
            "a:[-9223372036854775808]\n",
        ),
        (
            "block 1 ~a=int b=int",
            b"\x80\x80\x80\x80\x10\x02",
            "b:[1]\n",
        ),
        ("block 1 ~a=boolean b=int", b"\x02\x02", "b:[1]\n"),
        ("block 1 ~a=string b=int", b"\x02\xff\x02", "b:[1]\n"),
        ("block 2 a=boolean!", b"\x00\x01\x02", "a:[true,null]\n"),
        (
            "block-large 2 a=int b=string?",
            TWO_ROWS,
            "a:[1,-2]\nb:[\"hi\",null]\n",
        ),
        (
            "block-large 1 r={x=[<A,B>];y=bytes?}",
            b"\x04\x02\x00\x00\x02\x02\x7f",
            "r:[{[\"B\",\"A\"],0x7f}]\n",
        ),
    ];
    for (line, bytes, output) in table {
        let answer = plain_answer(&rt, rt.alloc(), line, bytes);
        assert!(rt; is_answer(answer, 0, output, ""), "{line}");
    }
}

#[test]
fn logical_and_binary_values_are_shown(rt: HostRuntime) {
    let table: [(&str, &[u8], &str); 7] = [
        ("block 1 w=timestamp-nanos", b"\x02", "w:[1]\n"),
        (
            "block 1 ~d=decimal(10,2) b=int",
            b"\x22\x00\x00\x00\x00\x00\x00\x00\x00\x00\x00\x00\x00\x00\x00\x00\x00\x00\x02",
            "b:[1]\n",
        ),
        ("block 1 d=decimal(10,2)", b"\x00", "d:[0]\n"),
        (
            "block 1 d=decimal(10,2)",
            b"\x08\x00\x00\x80\x00",
            "d:[32768]\n",
        ),
        (
            "block 1 d=date t=time-micros!",
            b"\x02\x00\x04",
            "d:[1]\nt:[2]\n",
        ),
        (
            "block 1 f=fixed(2) i=duration b=bytes!",
            b"\xab\xcd\x01\x00\x00\x00\x02\x00\x00\x00\xff\xff\xff\xff\x00\x02\x7f",
            "f:[0xabcd]\ni:[{1,2,-1000000}]\nb:[0x7f]\n",
        ),
        ("block 1 d=decimal(4,0,2)", b"\x80\x00", "d:[-32768]\n"),
    ];
    for (line, bytes, output) in table {
        let answer = plain_answer(&rt, rt.alloc(), line, bytes);
        assert!(rt; is_answer(answer, 0, output, ""), "{line}");
    }
}

#[test]
fn nested_values_and_symbols_are_shown(rt: HostRuntime) {
    let table: [(&str, &[u8], &str); 8] = [
        ("block 1 e=<A,B>?", b"\x02\x02", "e:[\"B\"]\n"),
        ("block 1 a=[long]", b"\x04\x02\x04\x00", "a:[[1,2]]\n"),
        ("block 1 a=[long]", b"\x03\x04\x02\x04\x00", "a:[[1,2]]\n"),
        ("block 2 a=[int]", b"\x00\x02\x0a\x00", "a:[[],[5]]\n"),
        (DEEP, b"", "a:[]\n"),
        (
            "block 1 ~a=[long] b=int",
            b"\x03\x04\xff\xff\x00\x02",
            "b:[1]\n",
        ),
        (
            "block 2 r={x=int;y=[string]}?",
            b"\x00\x02\x02\x04\x02a\x02b\x00",
            "r:[null,{1,[\"a\",\"b\"]}]\n",
        ),
        ("block 1 ~a=float b=int", b"\x00\x00\x80\x3f\x02", "b:[1]\n"),
    ];
    for (line, bytes, output) in table {
        let answer = plain_answer(&rt, rt.alloc(), line, bytes);
        assert!(rt; is_answer(answer, 0, output, ""), "{line}");
    }
}

#[test]
fn other_bytes_are_refused(rt: HostRuntime) {
    let table: [(&str, &[u8]); 11] = [
        ("block 1 e=<A,B>?", b"\x02\x04"),
        ("block 2 a=int b=string?", b"\x02\x02\x04hi\x03\x00\x00"),
        ("block 2 a=int b=string?", b"\x02\x02\x04hi\x03"),
        ("block 1 a=int", b"\x80\x80\x80\x80\x10"),
        (
            "block 1 a=long",
            b"\xff\xff\xff\xff\xff\xff\xff\xff\xff\x02",
        ),
        ("block 1 a=boolean", b"\x02"),
        ("block 1 ~a=int? b=int", b"\x04\x02"),
        ("block 1 a=string", b"\x02\xff"),
        ("block 1 a=[long]", b"\x03\x06\x02\x04\x00"),
        (
            "block 1 a=[long]",
            b"\xff\xff\xff\xff\xff\xff\xff\xff\xff\x01",
        ),
        ("block 1 a=[long] b=int", b"\x03\x01\x02"),
    ];
    for (line, bytes) in table {
        let answer = plain_answer(&rt, rt.alloc(), line, bytes);
        let note = "avrocat: ExternalFormat: BlockBytes\n";
        assert!(rt; is_answer(answer, 4, "", note), "{line}");
    }
    let answer = plain_answer(&rt, rt.alloc(), "block 1000000 a=int", b"\x02\x02");
    assert!(rt; is_answer(answer, 4, "", "avrocat: ExternalFormat: Rows\n"));
}

/// Counts and sizes that the bytes do not back. The greatest count is 2^63 - 1.
#[test]
fn false_counts_and_sizes_are_refused(rt: HostRuntime) {
    let table: [(&str, &[u8]); 7] = [
        (
            "block 1 a=[long]",
            b"\xfe\xff\xff\xff\xff\xff\xff\xff\xff\x01",
        ),
        (
            "block 1 ~a=[long] b=int",
            b"\xfe\xff\xff\xff\xff\xff\xff\xff\xff\x01",
        ),
        (
            "block 1 ~a=[long] b=int",
            b"\x03\xfe\xff\xff\xff\xff\xff\xff\xff\xff\x01\x00\x02",
        ),
        (
            "block 1 a=string",
            b"\xfe\xff\xff\xff\xff\xff\xff\xff\xff\x01",
        ),
        ("block 1 ~a=string b=int", b"\x01\x02"),
        (
            "block 1 d=decimal(10,2)",
            b"\x22\x00\x00\x00\x00\x00\x00\x00\x00\x00\x00\x00\x00\x00\x00\x00\x00\x00",
        ),
        (
            "block 1 a=[{x=int}?]",
            b"\xfe\xff\xff\xff\xff\xff\xff\xff\xff\x01\x00",
        ),
    ];
    for (line, bytes) in table {
        let answer = plain_answer(&rt, rt.alloc(), line, bytes);
        let note = "avrocat: ExternalFormat: BlockBytes\n";
        assert!(rt; is_answer(answer, 4, "", note), "{line}");
    }
    let answer = plain_answer(&rt, rt.alloc(), "block 3 ~a=[long] b=int", b"\x03\x01");
    assert!(rt; is_answer(answer, 4, "", "avrocat: ExternalFormat: Rows\n"));
}

#[test]
fn a_skipped_block_of_a_negative_size_is_told(rt: HostRuntime) {
    let table: [(&str, &[u8]); 5] = [
        ("block 1 ~a=[long] b=int", b"\x03\x01\x02"),
        ("block 2 ~a=[long] b=int", b"\x03\x01"),
        ("block 1 ~a=[[long]] b=int", b"\x02\x03\x01"),
        ("block 1 ~a=[[long]] b=int", b"\x04\x00\x03\x01"),
        ("block 1 ~a=[long]? b=int", b"\x02\x03\x01"),
    ];
    for (line, bytes) in table {
        let answer = plain_answer(&rt, rt.alloc(), line, bytes);
        assert!(rt;
            is_answer(answer, 5, "", "avrocat: OutOfSpec: NegativeSize\n"),
            "{line}"
        );
    }
}

/// Types that nest 64 deep, and one deeper.
const DEEP: &str =
    "block 0 a=[[[[[[[[[[[[[[[[[[[[[[[[[[[[[[[[[[[[[[[[[[[[[[[[[[[[[[[[[[[[[[[int]]]]]]]]]]]]]]]]]]]]]]]]]]]]]]]]]]]]]]]]]]]]]]]]]]]]]]]]]]]]]]]";

const TOO_DEEP: &str =
    "block 0 a=[[[[[[[[[[[[[[[[[[[[[[[[[[[[[[[[[[[[[[[[[[[[[[[[[[[[[[[[[[[[[[[[int]]]]]]]]]]]]]]]]]]]]]]]]]]]]]]]]]]]]]]]]]]]]]]]]]]]]]]]]]]]]]]]]";

#[test]
fn types_that_are_not_carried_are_refused(rt: HostRuntime) {
    let table: [(&str, &[u8]); 4] = [
        ("block 1 a=null", b""),
        ("block 0 a={}", b""),
        ("block 1 a=null?", b"\x00"),
        ("block 1 a=int b=null!", b"\x02\x02"),
    ];
    for (line, bytes) in table {
        let answer = plain_answer(&rt, rt.alloc(), line, bytes);
        let note = "avrocat: NotYetImplemented: NotCarried\n";
        assert!(rt; is_answer(answer, 3, "", note), "{line}");
    }
    let answer = plain_answer(&rt, rt.alloc(), "block 0", b"");
    assert!(rt; is_answer(answer, 3, "", "avrocat: NotYetImplemented: NoField\n"));
}

#[test]
fn a_float_that_is_kept_is_refused(rt: HostRuntime) {
    let answer = plain_answer(&rt, rt.alloc(), "block 1 a=float", b"\x00\x00\x80\x3f");
    assert!(rt; is_answer(answer, 3, "", "avrocat: NotYetImplemented: Float\n"));
}

#[test]
fn words_that_are_no_command_are_usage(rt: HostRuntime) {
    for line in [
        "",
        "blok 1",
        "block x a=int",
        "block-larger 1",
        "block 18446744073709551616",
        "block 1 =int",
        "block 1 a=decimal(2,3)",
        "block 1 a=int??",
        "block 1 a=<A,>",
        "block 1 a={x=int;}",
        "block 1 a={;}",
        "block 1 a={x}",
        "block 1 a={x=int",
        TOO_DEEP,
    ] {
        let answer = plain_answer(&rt, rt.alloc(), line, b"\x02");
        assert!(rt; is_answer(answer, 1, "", "avrocat: usage\n"), "{line}");
    }
}

#[test]
fn a_fault_of_source_or_sink_is_the_status(rt: HostRuntime) {
    let line = "block 2 a=int b=string?";
    let unread = source(&rt, rt.alloc(), TWO_ROWS, 2);
    let answer_unread = answer_of(&rt, rt.alloc(), line, unread, sink(&rt, rt.alloc(), 0));
    assert!(rt; is_answer(answer_unread, 8, "", "avrocat: ReadFault\n"));
    let unwritten = sink(&rt, rt.alloc(), 1);
    let rows = source(&rt, rt.alloc(), TWO_ROWS, 0);
    let answer_unwritten = answer_of(&rt, rt.alloc(), line, rows, unwritten);
    assert!(rt; is_answer(answer_unwritten, 9, "", "avrocat: WriteFault\n"));
}
