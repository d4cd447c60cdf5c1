//! Tests of what no clause of `arrow_base` says.
ghost use Rattle.std.specs.Prelude.{◌≤◌};

use arrow_base::{
    Bytes, Error, Failed, Items, MemorySink, MemorySource, Sink, Source, StdSink, StdSource,
    SteadySource, write_all, write_str,
};
use std::alloc::Global;
use std::io;
use std::io::{BufRead, Read, Write};
use std::process::Abort;

// A device that is out of order: it gives an error to each read, and takes nothing.
#[derive(Drop)]
struct Broken;

impl Read for Broken {
    fn read(&mut self, _buffer: &mut [u8]) -> io::Result<usize> {
        Err(io::Error::from(io::ErrorKind::Other))
    }
}

impl BufRead for Broken {
    fn fill_buf(&mut self) -> io::Result<&[u8]> {
        Err(io::Error::from(io::ErrorKind::Other))
    }

    fn consume(&mut self, _amount: usize) {}
}

impl Write for Broken {
    fn write(&mut self, _bytes: &[u8]) -> io::Result<usize> {
        Ok(0)
    }

    fn flush(&mut self) -> io::Result<()> {
        Ok(())
    }
}

fn bytes(rt: &impl Abort, alloc: Global, bytes: &[u8]) -> Bytes {
    Bytes::try_from_slice(alloc, bytes).expect(rt, "memory")
}

fn sink(rt: &impl Abort, alloc: Global, capacity: usize, piece: usize) -> MemorySink
    requires { 1 ≤ piece }
{
    let none = Items::from_vec(Vec::new(alloc));
    MemorySink::with_room(alloc, capacity, piece, none).expect(rt, "memory")
}

/// Whether the sink holds these bytes.
fn holds(sink: MemorySink, bytes: &[u8]) -> bool {
    let holds_them = sink.held() == bytes;
    drop(sink);
    holds_them
}

/// Whether the string of a text is this, written in pieces of three bytes.
fn is_string(rt: &impl Abort, alloc: Global, text: &str, string: &[u8]) -> bool {
    let mut sink = sink(rt, alloc, 64, 3);
    let is_written = write_str(&mut sink, text).is_ok();
    holds(sink, string) && is_written
}

#[test]
fn strings_are_escaped(rt: HostRuntime) {
    let table: [(&str, &[u8]); 4] = [
        ("", b"\"\""),
        ("a\n\u{1}", b"\x22\x61\x5C\x6E\x5C\x75\x30\x30\x30\x31\x22"),
        (
            "\"\\/\u{8}\t\u{c}\r\u{1f} \u{7f}",
            b"\"\\\"\\\\/\\b\\t\\f\\r\\u001f \x7f\"",
        ),
        ("\u{e9}\n\u{20ac}", b"\"\xc3\xa9\\n\xe2\x82\xac\""),
    ];
    for (text, string) in table {
        assert!(rt; is_string(&rt, rt.alloc(), text, string), "{text}");
    }
}

#[test]
fn strings_are_made_in_a_vector(rt: HostRuntime) {
    let mut string: Vec<u8> = Vec::new(rt.alloc());
    assert!(rt; write_str(&mut string, "a\n\u{1}").is_ok());
    assert!(rt; write_all(&mut string, b",").is_ok());
    let wanted = b"\x22\x61\x5C\x6E\x5C\x75\x30\x30\x30\x31\x22,";
    assert!(rt; string.as_slice() == wanted.as_slice());
}

#[test]
fn a_full_sink_holds_a_prefix(rt: HostRuntime) {
    let mut sink = sink(&rt, rt.alloc(), 4, 4);
    assert!(rt; sink.write(b"abcdef") == Ok(4));
    assert!(rt; sink.write(b"ef") == Err(Failed));
    assert!(rt; sink.faults() == 1);
    assert!(rt; holds(sink, b"abcd"));
}

#[test]
fn a_string_that_does_not_fit_is_cut(rt: HostRuntime) {
    let mut sink = sink(&rt, rt.alloc(), 4, 4);
    assert!(rt; write_str(&mut sink, "a\nb") == Err(Error::WriteFault));
    assert!(rt; holds(sink, b"\"a\\n"));
}

/// Whether the source gives these bytes read by read, into a buffer of eight, and fails where there
/// are none.
fn gives<S: Source>(source: &mut S, reads: &[Option<&[u8]>]) -> bool {
    let mut buffer = [0; 8];
    for wanted in reads {
        let given = match source.read(&mut buffer) {
            Ok(count) => buffer.get(..count),
            Err(Failed) => None,
        };
        if given != *wanted {
            return false;
        }
    }
    true
}

#[test]
fn listed_reads_fail(rt: HostRuntime) {
    let second = Items::try_from_slice(rt.alloc(), &[2]).expect(&rt, "memory");
    let mut source = MemorySource::new(bytes(&rt, rt.alloc(), b"abcde"), 2, second);
    let reads: [Option<&[u8]>; 5] = [Some(b"ab"), None, Some(b"cd"), Some(b"e"), Some(b"")];
    let gives_them = gives(&mut source, &reads);
    drop(source);
    assert!(rt; gives_them);
}

#[test]
fn listed_writes_fail(rt: HostRuntime) {
    let second = Items::try_from_slice(rt.alloc(), &[2]).expect(&rt, "memory");
    let mut sink = MemorySink::with_room(rt.alloc(), 9, 2, second).expect(&rt, "memory");
    assert!(rt; write_all(&mut sink, b"abcd") == Err(Error::WriteFault));
    assert!(rt; write_all(&mut sink, b"cd").is_ok());
    assert!(rt; holds(sink, b"abcd"));
}

#[test]
fn a_steady_source_gives_all(rt: HostRuntime) {
    let mut source = SteadySource::new(bytes(&rt, rt.alloc(), b"abcde"), 4);
    let gives_them = gives(&mut source, &[Some(b"abcd"), Some(b"e"), Some(b"")]);
    drop(source);
    assert!(rt; gives_them);
}

#[test]
fn readers_of_std_are_read(rt: HostRuntime) {
    let mut source = StdSource::new(b"abc".as_slice());
    let mut buffer = [0; 2];
    assert!(rt; source.read(&mut buffer) == Ok(2));
    assert!(rt; buffer == *b"ab");
    assert!(rt; gives(&mut source, &[Some(b"c"), Some(b"")]));
    assert!(rt; gives(&mut StdSource::new(Broken), &[None]));
}

/// Whether the source gives so many bytes through a line feed, where it may give `most`.
fn gives_through<S: Source>(source: &mut S, most: usize, line: &mut Vec<u8>, count: usize) -> bool
    requires { 1 ≤ most }
{
    source.read_through(b'\n', most, line) == Ok(count)
}

#[test]
fn a_source_is_read_through_a_byte(rt: HostRuntime) {
    let mut source = StdSource::new(b"ab\ncd".as_slice());
    let mut line: Vec<u8> = Vec::new(rt.alloc());
    assert!(rt; gives_through(&mut source, 2, &mut line, 2));
    assert!(rt; gives_through(&mut source, 9, &mut line, 1));
    assert!(rt; line.as_slice() == b"ab\n".as_slice());
    assert!(rt; gives_through(&mut source, 9, &mut line, 2));
    assert!(rt; gives_through(&mut source, 9, &mut line, 0));
}

#[test]
fn a_reader_that_fails_is_told(rt: HostRuntime) {
    let mut line: Vec<u8> = Vec::new(rt.alloc());
    let read = StdSource::new(Broken).read_through(b'\n', 9, &mut line);
    assert!(rt; read == Err(Error::ReadFault { line: None }));
}

#[test]
fn writers_of_std_are_written(rt: HostRuntime) {
    let mut written: Vec<u8> = Vec::new(rt.alloc());
    assert!(rt; write_str(&mut StdSink::new(&mut written), "abc").is_ok());
    assert!(rt; written.as_slice() == b"\"abc\"".as_slice());
    assert!(rt; write_str(&mut StdSink::new(Broken), "abc") == Err(Error::WriteFault));
}
