//! The command `fields` over sources and sinks in memory.

use crate::tests::{HEADER, answer_of, is_answer, plain_answer, sink, source};
use std::alloc::Global;
use std::process::Abort;

/// The header of a file with this schema, and a marker of sixteen bytes 1.
fn header_of(rt: &impl Abort, alloc: Global, schema: &str) -> Vec<u8> {
    assert!(rt; schema.len() < 8192);
    let mut bytes = Vec::new(alloc);
    bytes
        .extend_from_slice(b"Obj\x01\x02\x16avro.schema")
        .expect(rt, "memory");
    bytes
        .push((2 * schema.len() % 128 + 128) as u8)
        .expect(rt, "memory");
    bytes
        .push((2 * schema.len() / 128) as u8)
        .expect(rt, "memory");
    bytes
        .extend_from_slice(schema.as_bytes())
        .expect(rt, "memory");
    bytes.push(0).expect(rt, "memory");
    bytes.extend_from_slice(&[1; 16]).expect(rt, "memory");
    bytes
}

/// Whether these lines are written of a file with this header.
fn has_lines(rt: &impl Abort, alloc: Global, header: &[u8], lines: &str) -> bool {
    is_answer(plain_answer(rt, alloc, "fields", header), 0, lines, "")
}

const EVENT: &str =
    "{\"type\": \"record\", \"name\": \"Event\", \"namespace\": \"com.example\", \"fields\": [{\"type\": \"long\", \"name\": \"id\"}, {\"type\": {\"type\": \"long\", \"logicalType\": \"timestamp-millis\"}, \"name\": \"time\"}, {\"type\": [\"null\", \"string\"], \"name\": \"user\"}, {\"type\": {\"type\": \"enum\", \"name\": \"Kind\", \"namespace\": \"com.example\", \"symbols\": [\"VIEW\", \"BUY\"]}, \"name\": \"kind\"}, {\"type\": {\"type\": \"array\", \"items\": \"string\"}, \"name\": \"tags\"}, {\"type\": [\"null\", {\"type\": \"record\", \"name\": \"Order\", \"namespace\": \"com.example\", \"fields\": [{\"type\": \"boolean\", \"name\": \"paid\"}, {\"type\": {\"type\": \"int\", \"logicalType\": \"date\"}, \"name\": \"day\"}]}], \"name\": \"order\"}], \"doc\": \"What a visitor did.\"}";

const EVENT_LINES: &str =
    "0\t\"id\"\tlong\tndjson\n1\t\"time\"\ttimestamp-millis\tndjson\n2\t\"user\"\tstring?\tndjson\n3\t\"kind\"\t<VIEW,BUY>\tndjson\n4\t\"tags\"\t[string]\tndjson\n5\t\"order\"\t{paid=boolean;day=date}?\tndjson\n";

#[test]
fn fields_of_a_file_are_listed(rt: HostRuntime) {
    let header = header_of(&rt, rt.alloc(), EVENT);
    assert!(rt; has_lines(&rt, rt.alloc(), header.as_slice(), EVENT_LINES));
    assert!(rt; has_lines(&rt, rt.alloc(), HEADER, "0\t\"a\"\tint\tndjson\n"));
}

/// The header of a file of a record with one field of this name and type.
fn of_one_field(rt: &impl Abort, alloc: Global, name: &str, schema: &str) -> Vec<u8> {
    let text = format!(in alloc;
        "{{\"type\":\"record\",\"name\":\"r\",\"fields\":[{{\"name\":{name},\"type\":{schema}}}]}}"
    ).expect(rt, "memory");
    header_of(rt, alloc, text.as_str())
}

#[test]
fn what_words_or_rows_cannot_say_is_told(rt: HostRuntime) {
    for (name, schema, line) in [
        (
            "\"a\"",
            "{\"type\":\"map\",\"values\":\"int\"}",
            "0\t\"a\"\t-\tNotCarried\n",
        ),
        (
            "\"a\"",
            "[\"null\",\"int\",\"string\"]",
            "0\t\"a\"\t-\tNotCarried\n",
        ),
        ("\"a\"", "\"null\"", "0\t\"a\"\tnull\tNotCarried\n"),
        ("\"a\"", "\"double\"", "0\t\"a\"\tdouble\tFloat\n"),
        (
            "\"a\"",
            "{\"type\":\"bytes\",\"logicalType\":\"decimal\",\"precision\":4,\"scale\":2}",
            "0\t\"a\"\tdecimal(4,2)\tNoJsonText\n",
        ),
        (
            "\"a\"",
            "{\"type\":\"int\",\"logicalType\":\"time-millis\"}",
            "0\t\"a\"\ttime-millis\tNoJsonText\n",
        ),
        (
            "\"a\"",
            "{\"type\":\"record\",\"name\":\"s\",\"fields\":[{\"name\":\"b c\",\"type\":\"int\"}]}",
            "0\t\"a\"\t-\tndjson\n",
        ),
        (
            "\"a\\tb\\\"\"",
            "\"int\"",
            "0\t\"a\\tb\\\"\"\tint\tndjson\n",
        ),
    ] {
        let header = of_one_field(&rt, rt.alloc(), name, schema);
        assert!(rt;
            has_lines(&rt, rt.alloc(), header.as_slice(), line),
            "{schema}"
        );
    }
}

#[test]
fn a_record_without_fields_has_no_line(rt: HostRuntime) {
    let text = "{\"type\":\"record\",\"name\":\"r\",\"fields\":[]}";
    let header = header_of(&rt, rt.alloc(), text);
    assert!(rt; has_lines(&rt, rt.alloc(), header.as_slice(), ""));
}

#[test]
fn faults_and_bytes_that_are_no_header_are_refused(rt: HostRuntime) {
    let answer = plain_answer(&rt, rt.alloc(), "fields", b"");
    assert!(rt; is_answer(answer, 4, "", "avrocat: ExternalFormat: Magic\n"));
    let unread = source(&rt, rt.alloc(), HEADER, 2);
    let answer_unread = answer_of(&rt, rt.alloc(), "fields", unread, sink(&rt, rt.alloc(), 0));
    assert!(rt; is_answer(answer_unread, 8, "", "avrocat: ReadFault\n"));
    let file = source(&rt, rt.alloc(), HEADER, 0);
    let answer_unwritten = answer_of(&rt, rt.alloc(), "fields", file, sink(&rt, rt.alloc(), 1));
    assert!(rt; is_answer(answer_unwritten, 9, "", "avrocat: WriteFault\n"));
}
