//! Types of JSON lines, and how far the source is read for them.
use crate::answers::append_inferred;
use crate::sources::{bytes_of, source_of};
use arrow_base::{MemorySource, Source};
use arrow_core::Result;
use ndjson_read::{infer, infer_iter};
use std::alloc::Global;

/// How many bytes lines may have.
const BYTE_LIMIT: u64 = 1000;

/// Appends the type of lines of which the read of this number fails; none where it is 0.
fn append_read(alloc: Global, out: &mut String, lines: &str, failing: u64) -> Result<()> {
    let mut source = source_of(alloc, lines, failing)?;
    let inferred = infer(alloc, &mut source, None, BYTE_LIMIT);
    drop(source);
    append_inferred(alloc, out, inferred)
}

/// Appends the type of lines.
pub fn append_lines(alloc: Global, out: &mut String, lines: &str) -> Result<()> {
    append_read(alloc, out, lines, 0)
}

/// Appends the type of the lines after a number, where the read of this number fails.
pub fn append_failing(alloc: Global, out: &mut String, text: &str) -> Result<()> {
    let (number, lines) = text.split_once(' ').unwrap_or((text, ""));
    append_read(alloc, out, lines, number.parse().unwrap_or(0))
}

/// Appends the byte that the source gives next, if it gives one.
fn append_next(alloc: Global, out: &mut String, source: &mut MemorySource) -> Result<()> {
    let mut next = [0u8; 1];
    let is_given = source.read(&mut next) == Ok(1);
    let text = if is_given {
        format!(in alloc; ", and then {}", char::from(next[0]))?
    } else {
        String::from_str(alloc, ", and then no byte")?
    };
    out.push_str(text.as_str())?;
    Ok(())
}

/// Appends the type of so many lines under a limit of bytes, two numbers that the text begins with,
/// and the byte that comes next.
pub fn append_first(alloc: Global, out: &mut String, text: &str) -> Result<()> {
    let (rows, text) = text.split_once(' ').unwrap_or((text, ""));
    let (limit, lines) = text.split_once(' ').unwrap_or((text, ""));
    let mut source = source_of(alloc, lines, 0)?;
    let rows = Some(rows.parse().unwrap_or(0));
    let inferred = infer(alloc, &mut source, rows, limit.parse().unwrap_or(0));
    append_inferred(alloc, out, inferred)?;
    append_next(alloc, out, &mut source)
}

/// Appends the type of lines that an iterator gives.
pub fn append_given(alloc: Global, out: &mut String, text: &str) -> Result<()> {
    let bytes = bytes_of(alloc, text)?;
    let lines = str::from_utf8(bytes.as_slice()).unwrap_or("").lines();
    append_inferred(alloc, out, infer_iter(alloc, lines))
}
