//! The answer to a case.
use crate::columns::{append_records, read, read_given, read_rows};
use crate::lines::{append_columns, append_lines, append_structs};
use crate::many::append_many;
use crate::numbers::{append_number, append_odd, append_parts};
use crate::stored::{append_keys, append_stored};
use crate::texts::{append_array, push};
use arrow_core::Result;
use std::alloc::{AllocError, Global};

/// Appends what a command makes of a text under types.
fn append_read(
    alloc: Global,
    out: &mut Vec<u8>,
    command: &str,
    types: &str,
    text: &str,
) -> Result<()> {
    match command {
        "read" => append_array(out, read(alloc, types, text)),
        "stored" => append_stored(alloc, out, read(alloc, types, text)),
        "keys" => append_keys(alloc, out, read(alloc, types, text)),
        "records" => append_records(alloc, out, types, text),
        "rows" => append_array(out, read_rows(alloc, types, text)),
        "given" => append_array(out, read_given(alloc, types, text)),
        "lines" => append_lines(alloc, out, types, text),
        "columns" => append_columns(alloc, out, types, text),
        "structs" => append_structs(alloc, out, types, text),
        _ => push(out, "no command"),
    }
}

/// Appends what a command makes of what stands after it.
fn append_answer(alloc: Global, out: &mut Vec<u8>, command: &str, text: &str) -> Result<()> {
    match command {
        "whole" => append_parts(alloc, out, text),
        "number" => append_number(alloc, out, text),
        "integer" => append_odd(alloc, out, true, text),
        "float" => append_odd(alloc, out, false, text),
        "many" => append_many(alloc, out, text),
        _ => {
            let (types, text) = text.split_once(" of ").unwrap_or((text, ""));
            append_read(alloc, out, command, types, text)
        }
    }
}

/// What is printed for a line.
pub fn printed(alloc: Global, line: &str) -> std::result::Result<String, AllocError> {
    let Some((name, case)) = line.split_once(": ") else {
        return String::from_str(alloc, line);
    };
    if line.starts_with('#') {
        return String::from_str(alloc, line);
    }
    let (command, text) = case.split_once(' ').unwrap_or((case, ""));
    let mut out = Vec::new(alloc);
    match append_answer(alloc, &mut out, command, text) {
        Ok(()) => {
            let answer = str::from_utf8(out.as_slice()).unwrap_or("no text");
            format!(in alloc; "{name}: {answer}")
        }
        Err(error) => format!(in alloc; "{name}: {error}"),
    }
}
