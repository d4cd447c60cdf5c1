//! Each error, and where it comes.

use crate::line_sources::{reader, refuses, shows, shows_all, source, texts};
use arrow_base::{Error, Reason};
use ndjson_read::FileReader;

#[test]
fn a_line_that_is_not_utf8_is_refused(rt: HostRuntime) {
    let mut rows = reader(&rt, rt.alloc(), b"1\n\xff\n2\n");
    assert!(rt; shows(&mut rows, "1\n"));
    assert!(rt; refuses(&mut rows, Error::ExternalFormat(Reason::Utf8Line)));
    drop(rows);
}

#[test]
fn a_failed_read_names_its_line(rt: HostRuntime) {
    let alloc = rt.alloc();
    // Three bytes a read, and no further than a line feed: `123`, `4` and a line feed, a line feed,
    // `2` and a line feed, and the end.
    let lines = [1u64, 1, 2, 3, 4];
    for number in 1..6u64 {
        let failing = source(&rt, alloc, b"1234\n\n2\n", &[number]);
        let mut rows = FileReader::new(alloc, failing, texts(&rt, alloc, 3), None, 1000);
        let line = lines.get(number as usize - 1).copied();
        assert!(rt; refuses(&mut rows, Error::ReadFault { line }), "{number}");
        drop(rows);
    }
}

#[test]
fn a_line_that_is_not_utf8_is_refused_in_a_later_batch(rt: HostRuntime) {
    let alloc = rt.alloc();
    let three = source(&rt, alloc, b"1\n2\n3\n\xe2\x82\n", &[]);
    let mut rows = FileReader::new(alloc, three, texts(&rt, alloc, 2), None, 1000);
    assert!(rt; rows.advance() == Ok(()));
    assert!(rt; refuses(&mut rows, Error::ExternalFormat(Reason::Utf8Line)));
    drop(rows);
}

#[test]
fn bytes_within_the_limit_are_read_to_the_end(rt: HostRuntime) {
    let alloc = rt.alloc();
    let two = source(&rt, alloc, b"1\n", &[]);
    let rows = FileReader::new(alloc, two, texts(&rt, alloc, 2), None, 2);
    assert!(rt; shows_all(rows, &["1\n"]));
}

#[test]
fn a_byte_past_the_limit_is_refused(rt: HostRuntime) {
    let alloc = rt.alloc();
    let two = source(&rt, alloc, b"1\n", &[]);
    let mut rows = FileReader::new(alloc, two, texts(&rt, alloc, 2), None, 1);
    assert!(rt; refuses(&mut rows, Error::LimitExceeded));
    drop(rows);
}
