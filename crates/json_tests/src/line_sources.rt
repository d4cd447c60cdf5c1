//! What the tests read: sources of bytes, and texts for rows.

use arrow_base::{Bytes, Error, Items, MemorySource, Result, Source, Text};
use ndjson_read::FileReader;
use std::alloc::Global;
use std::process::Abort;

/// A source of bytes that gives three of them a read at most, whose reads of these numbers fail.
pub fn source(rt: &impl Abort, alloc: Global, bytes: &[u8], failing: &[u64]) -> MemorySource {
    let bytes = Bytes::try_from_slice(alloc, bytes).expect(rt, "memory");
    let failing = Vec::from_slice(alloc, failing).expect(rt, "memory");
    MemorySource::new(bytes, 3, Items::from_vec(failing))
}

/// Empty texts.
pub fn texts(rt: &impl Abort, alloc: Global, count: usize) -> Vec<Text> {
    let mut texts = Vec::new(alloc);
    for _ in 0..count {
        let text = Text::from_string(String::new(alloc));
        texts.push(text).expect(rt, "memory");
    }
    texts
}

/// A reader of these bytes, in batches of one row.
pub fn reader(rt: &impl Abort, alloc: Global, bytes: &[u8]) -> FileReader<MemorySource> {
    let source = source(rt, alloc, bytes, &[]);
    FileReader::new(alloc, source, texts(rt, alloc, 1), None, 1000)
}

/// Whether the next batch is this row alone.
pub fn shows<S: Source>(reader: &mut FileReader<S>, row: &str) -> bool {
    if reader.advance().is_err() {
        return false;
    }
    match reader.get() {
        Some([text]) => text.as_str() == row,
        _ => false,
    }
}

/// Whether there is no further row.
pub fn shows_none<S: Source>(reader: &mut FileReader<S>) -> bool {
    reader.advance() == Ok(()) && reader.get() == None
}

/// Whether the batches are these rows, one in each, and there is no further row.
pub fn shows_all(mut reader: FileReader<MemorySource>, rows: &[&str]) -> bool {
    let mut shows_them = true;
    for row in rows {
        shows_them = shows_them && shows(&mut reader, row);
    }
    let shows_no_more = shows_none(&mut reader);
    drop(reader);
    shows_them && shows_no_more
}

/// Whether the next batch is refused so, and the batches after it are empty.
pub fn refuses<S: Source>(reader: &mut FileReader<S>, error: Error) -> bool {
    let refused: Result<()> = Err(error);
    reader.advance() == refused
        && reader.get() == None
        && reader.failed() == Some(error)
        && shows_none(reader)
}
