//! Which lines are rows, and which batches they come in.

use crate::line_sources::{reader, shows, shows_all, shows_none, source, texts};
use arrow_base::{MemorySource, Source};
use ndjson_read::FileReader;

#[test]
fn rows_keep_their_line_feeds_and_empty_lines_are_passed_over(rt: HostRuntime) {
    let mut rows = reader(&rt, rt.alloc(), b" \n1\n\n2");
    assert!(rt; rows.get() == None);
    assert!(rt; shows(&mut rows, "1\n"));
    assert!(rt; shows(&mut rows, "2"));
    assert!(rt; shows_none(&mut rows));
    assert!(rt; rows.failed() == None);
    drop(rows);
}

#[test]
fn a_carriage_return_stays_in_its_row(rt: HostRuntime) {
    let rows = reader(&rt, rt.alloc(), b"1\r\n\r\n2\r\n");
    assert!(rt; shows_all(rows, &["1\r\n", "2\r\n"]));
}

// Unicode's `White_Space`: tab to carriage return, space, U+0085, U+00A0, U+1680, U+2000 to U+200A,
// U+2028, U+2029, U+202F, U+205F, U+3000.
#[test]
fn white_space_alone_is_no_row(rt: HostRuntime) {
    let rows = reader(
        &rt,
        rt.alloc(),
        b"\t\x0b\x0c\r \n\xc2\x85\xc2\xa0\n\xe1\x9a\x80\n\xe2\x80\x80\xe2\x80\x8a\n\xe2\x80\xa8\xe2\x80\xa9\n\xe2\x80\xaf\xe2\x81\x9f\xe3\x80\x80\n",
    );
    assert!(rt; shows_all(rows, &[]));
}

#[test]
fn a_byte_order_mark_is_no_white_space(rt: HostRuntime) {
    let mut rows = reader(&rt, rt.alloc(), b"\xef\xbb\xbf\n1");
    assert!(rt; shows(&mut rows, "\u{feff}\n"));
    assert!(rt; shows(&mut rows, "1"));
    drop(rows);
}

#[test]
fn a_batch_is_full_but_the_last(rt: HostRuntime) {
    let alloc = rt.alloc();
    let three = source(&rt, alloc, b"1\n2\n3\n", &[]);
    let mut rows = FileReader::new(alloc, three, texts(&rt, alloc, 2), None, 6);
    assert!(rt; rows.advance() == Ok(()));
    assert!(rt; rows.get().map(|batch| batch.len()) == Some(2));
    assert!(rt; shows(&mut rows, "3\n"));
    assert!(rt; shows_none(&mut rows));
    drop(rows);
}

/// The byte that the source gives next, if there is one.
fn next_byte<S: Source>(source: &mut S) -> Option<u8> {
    let mut byte = [0u8; 1];
    match source.read(&mut byte) {
        Ok(1) => Some(byte[0]),
        _ => None,
    }
}

/// The byte that comes after those that a reader took.
fn byte_after(reader: FileReader<MemorySource>) -> Option<u8> {
    let (mut source, texts) = reader.into_inner();
    drop(texts);
    let byte = next_byte(&mut source);
    drop(source);
    byte
}

#[test]
fn next_shows_a_batch_or_none(rt: HostRuntime) {
    let mut rows = reader(&rt, rt.alloc(), b"1\n");
    let shown = rows.next().ok().flatten();
    assert!(rt; matches!(shown, Some([text]) if text.as_str() == "1\n"));
    assert!(rt; matches!(rows.next(), Ok(None)));
    assert!(rt; rows.lines() == 1);
    drop(rows);
}

#[test]
fn no_byte_is_taken_past_a_batch(rt: HostRuntime) {
    let mut rows = reader(&rt, rt.alloc(), b"1\n2\n");
    assert!(rt; shows(&mut rows, "1\n"));
    assert!(rt; byte_after(rows) == Some(b'2'));
}

#[test]
fn a_batch_of_none_takes_none(rt: HostRuntime) {
    let alloc = rt.alloc();
    let one = source(&rt, alloc, b"1\n", &[1]);
    let rows = FileReader::new(alloc, one, texts(&rt, alloc, 0), None, 0);
    assert!(rt; shows_all(rows, &[]));
}

#[test]
fn a_limit_of_none_takes_none(rt: HostRuntime) {
    let alloc = rt.alloc();
    let one = source(&rt, alloc, b"1\n", &[1]);
    let rows = FileReader::new(alloc, one, texts(&rt, alloc, 1), Some(0), 0);
    assert!(rt; shows_all(rows, &[]));
}

#[test]
fn a_limit_stops_the_rows(rt: HostRuntime) {
    let alloc = rt.alloc();
    let two = source(&rt, alloc, b"1\n2\n", &[]);
    let mut rows = FileReader::new(alloc, two, texts(&rt, alloc, 1), Some(1), 1000);
    assert!(rt; shows(&mut rows, "1\n"));
    assert!(rt; shows_none(&mut rows));
    assert!(rt; byte_after(rows) == Some(b'2'));
}
