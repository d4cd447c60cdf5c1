//! The commands `count`, `schema`, `help` and `version` over sources and sinks in memory.

use crate::tests::{FILE, HEADER, answer_of, is_answer, plain_answer, sink, source};
use avrocat_commands::HELP;

/// A file of a map of doubles and a union of three, whose schema has spaces, an alias and a default:
/// a block of two rows, and one of none.
const OTHERS: &[u8] =
    b"Obj\x01\x02\x16avro.schema\xf6\x02{ \"type\": \"record\", \"name\": \"t\", \"aliases\": [\"u\"], \"fields\": [{\"name\": \"m\", \"type\": {\"type\": \"map\", \"values\": \"double\"}}, {\"name\": \"u\", \"type\": [\"int\", \"string\", \"float\"], \"default\": 1}]}\x00\xa0\xa1\xa2\xa3\xa4\xa5\xa6\xa7\xa8\xa9\xaa\xab\xac\xad\xae\xaf\x04\x0c\x00\x00\x02\x00\x00\x02\xa0\xa1\xa2\xa3\xa4\xa5\xa6\xa7\xa8\xa9\xaa\xab\xac\xad\xae\xaf\x00\x00\xa0\xa1\xa2\xa3\xa4\xa5\xa6\xa7\xa8\xa9\xaa\xab\xac\xad\xae\xaf";

/// The same header, and three blocks without bytes that state 2^63 - 1 rows each.
const MANY: &[u8] =
    b"Obj\x01\x02\x16avro.schema\xf6\x02{ \"type\": \"record\", \"name\": \"t\", \"aliases\": [\"u\"], \"fields\": [{\"name\": \"m\", \"type\": {\"type\": \"map\", \"values\": \"double\"}}, {\"name\": \"u\", \"type\": [\"int\", \"string\", \"float\"], \"default\": 1}]}\x00\xa0\xa1\xa2\xa3\xa4\xa5\xa6\xa7\xa8\xa9\xaa\xab\xac\xad\xae\xaf\xfe\xff\xff\xff\xff\xff\xff\xff\xff\x01\x00\xa0\xa1\xa2\xa3\xa4\xa5\xa6\xa7\xa8\xa9\xaa\xab\xac\xad\xae\xaf\xfe\xff\xff\xff\xff\xff\xff\xff\xff\x01\x00\xa0\xa1\xa2\xa3\xa4\xa5\xa6\xa7\xa8\xa9\xaa\xab\xac\xad\xae\xaf\xfe\xff\xff\xff\xff\xff\xff\xff\xff\x01\x00\xa0\xa1\xa2\xa3\xa4\xa5\xa6\xa7\xa8\xa9\xaa\xab\xac\xad\xae\xaf";

/// The schema of both.
const OTHERS_SCHEMA: &str =
    "{\"type\":\"record\",\"name\":\"t\",\"fields\":[{\"name\":\"m\",\"type\":{\"type\":\"map\",\"values\":\"double\"}},{\"name\":\"u\",\"type\":[\"int\",\"string\",\"float\"]}]}\n";

const SCHEMA: &str =
    "{\"type\":\"record\",\"name\":\"t\",\"fields\":[{\"name\":\"a\",\"type\":\"int\"}]}\n";

const NO_BLOCK: &str = "avrocat: ExternalFormat: Container\n";

const NO_HEADER: &str = "avrocat: ExternalFormat: Header\n";

#[test]
fn rows_and_blocks_are_counted(rt: HostRuntime) {
    let table: [(&[u8], &str); 4] = [
        (FILE, "rows 2\nblocks 1\n"),
        (HEADER, "rows 0\nblocks 0\n"),
        (OTHERS, "rows 2\nblocks 2\n"),
        (MANY, "rows 27670116110564327421\nblocks 3\n"),
    ];
    for (bytes, output) in table {
        let answer = plain_answer(&rt, rt.alloc(), "count", bytes);
        assert!(rt; is_answer(answer, 0, output, ""), "{output}");
    }
}

#[test]
fn schemas_are_shown(rt: HostRuntime) {
    let table: [(&[u8], &str); 3] = [
        (FILE, SCHEMA),
        (OTHERS, OTHERS_SCHEMA),
        // What follows the header isn't read.
        (&FILE[..HEADER.len() + 1], SCHEMA),
    ];
    for (bytes, output) in table {
        let answer = plain_answer(&rt, rt.alloc(), "schema", bytes);
        assert!(rt; is_answer(answer, 0, output, ""), "{output}");
    }
}

#[test]
fn files_that_are_cut_off_are_refused(rt: HostRuntime) {
    let cut = &FILE[..FILE.len() - 1];
    let answer_cut = plain_answer(&rt, rt.alloc(), "count", cut);
    assert!(rt; is_answer(answer_cut, 4, "", NO_BLOCK));
    for line in ["count", "schema"] {
        let header = plain_answer(&rt, rt.alloc(), line, &HEADER[..HEADER.len() - 1]);
        assert!(rt; is_answer(header, 4, "", NO_HEADER), "{line}");
        let nothing = plain_answer(&rt, rt.alloc(), line, b"");
        let note = "avrocat: ExternalFormat: Magic\n";
        assert!(rt; is_answer(nothing, 4, "", note), "{line}");
    }
}

#[test]
fn a_fault_ends_the_counts_and_the_schema(rt: HostRuntime) {
    for line in ["count", "schema"] {
        let unread = source(&rt, rt.alloc(), FILE, 2);
        let answer_unread = answer_of(&rt, rt.alloc(), line, unread, sink(&rt, rt.alloc(), 0));
        assert!(rt;
            is_answer(answer_unread, 8, "", "avrocat: ReadFault\n"),
            "{line}"
        );
        let file = source(&rt, rt.alloc(), FILE, 0);
        let answer_unwritten = answer_of(&rt, rt.alloc(), line, file, sink(&rt, rt.alloc(), 1));
        assert!(rt;
            is_answer(answer_unwritten, 9, "", "avrocat: WriteFault\n"),
            "{line}"
        );
    }
}

#[test]
fn a_field_has_a_line(rt: HostRuntime) {
    for bytes in [FILE, HEADER] {
        let answer = plain_answer(&rt, rt.alloc(), "fields", bytes);
        assert!(rt; is_answer(answer, 0, "0\t\"a\"\tint\tndjson\n", ""));
    }
    let answer = plain_answer(&rt, rt.alloc(), "fields", &HEADER[..60]);
    assert!(rt; is_answer(answer, 4, "", "avrocat: ExternalFormat: Header\n"));
}

#[test]
fn the_program_tells_of_itself(rt: HostRuntime) {
    for line in ["version", "--version"] {
        let answer = plain_answer(&rt, rt.alloc(), line, b"");
        assert!(rt; is_answer(answer, 0, "avrocat 0.3.0\n", ""), "{line}");
    }
    assert!(rt; HELP.starts_with("avrocat COMMAND WORD.. < INPUT > OUTPUT\n"));
    for line in ["help", "--help", "-h"] {
        // Nothing is read: the first read would fail.
        let unread = source(&rt, rt.alloc(), FILE, 1);
        let answer = answer_of(&rt, rt.alloc(), line, unread, sink(&rt, rt.alloc(), 0));
        assert!(rt; is_answer(answer, 0, HELP, ""), "{line}");
    }
    for line in ["help", "version"] {
        let unwritten = sink(&rt, rt.alloc(), 1);
        let answer = answer_of(
            &rt,
            rt.alloc(),
            line,
            source(&rt, rt.alloc(), b"", 0),
            unwritten,
        );
        assert!(rt; is_answer(answer, 9, "", "avrocat: WriteFault\n"), "{line}");
    }
}

#[test]
fn words_after_these_commands_are_usage(rt: HostRuntime) {
    for line in [
        "help count",
        "--help -h",
        "-h 1",
        "version 1",
        "--version version",
        "count 0",
        "schema 0",
        "fields 0",
        "Count",
        "-help",
        "-v",
    ] {
        let answer = plain_answer(&rt, rt.alloc(), line, FILE);
        assert!(rt; is_answer(answer, 1, "", "avrocat: usage\n"), "{line}");
    }
}
