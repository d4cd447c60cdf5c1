//! Columns of lines that are read without a tree.
use crate::stored::values_of;
use crate::texts::{append_arrays, append_slots, push, row_texts};
use crate::types::{fields_of, type_of};
use arrow_array::Array;
use arrow_core::{DataType, Result, Text};
use json_line::{GivenUp, LineBuilders};
use ndjson::LineColumns;
use std::alloc::Global;

fn append_read(out: &mut Vec<u8>, read: std::result::Result<Vec<Array>, GivenUp>) -> Result<()> {
    match read {
        Ok(columns) => {
            let done = append_arrays(out, columns.as_slice());
            drop(columns);
            done
        }
        Err(GivenUp) => push(out, "given up"),
    }
}

fn append_batches(
    alloc: Global,
    out: &mut Vec<u8>,
    builders: &mut LineBuilders,
    batches: &str,
) -> Result<()> {
    let mut is_first = true;
    for batch in batches.split(" / ") {
        push(out, if is_first { "" } else { " / " })?;
        let lines = row_texts(alloc, batch)?;
        append_read(out, builders.read_lines(lines.as_slice()))?;
        is_first = false;
    }
    Ok(())
}

/// Appends the columns of each batch of lines, by the same builders.
pub fn append_lines(alloc: Global, out: &mut Vec<u8>, types: &str, text: &str) -> Result<()> {
    match LineBuilders::new(alloc, fields_of(alloc, types)?) {
        Ok(Some(mut builders)) => {
            let done = append_batches(alloc, out, &mut builders, text);
            drop(builders);
            done
        }
        Ok(None) => push(out, "no builders"),
        Err(error) => Err(error),
    }
}

/// Appends the columns of lines, of which dictionaries are made.
pub fn append_columns(alloc: Global, out: &mut Vec<u8>, types: &str, text: &str) -> Result<()> {
    let lines = row_texts(alloc, text)?;
    match LineColumns::new(alloc, fields_of(alloc, types)?) {
        Ok(Some(mut columns)) => {
            let done = append_read(out, columns.read_lines(lines.as_slice()));
            drop(columns);
            done
        }
        Ok(None) => push(out, "no columns"),
        Err(error) => Err(error),
    }
}

/// The lines as structs of this type; `None` where they are given up.
fn read_structs(alloc: Global, lines: &[Text], row_type: &DataType) -> Result<Option<Array>> {
    let DataType::Struct(fields) = row_type.try_clone(alloc)? else {
        return Ok(None);
    };
    match LineColumns::new(alloc, fields.into_vec()) {
        Ok(Some(mut columns)) => {
            let rows = columns.read_rows(lines, row_type).ok();
            drop(columns);
            Ok(rows)
        }
        Ok(None) => Ok(None),
        Err(error) => Err(error),
    }
}

/// The first column beneath one; itself where it has none.
fn beneath(column: &Array) -> &Array {
    match column {
        Array::List(lists) => lists.values(),
        Array::FixedSizeList(lists) => lists.values(),
        Array::Struct(structs) => structs.values().first().unwrap_or(column),
        _ => column,
    }
}

/// How deep beneath structs a dictionary is looked for.
const DEPTH: usize = 4;

/// Appends structs, and the values of the dictionary that lies beneath their first field.
fn append_with_values(out: &mut Vec<u8>, rows: &Array) -> Result<()> {
    append_slots(out, rows)?;
    let mut column = rows;
    for _ in 0..DEPTH {
        column = beneath(column);
    }
    match values_of(column) {
        Some(values) => {
            push(out, " by ")?;
            append_slots(out, values)
        }
        None => push(out, " by no dictionary"),
    }
}

fn append_rows(alloc: Global, out: &mut Vec<u8>, row_type: &DataType, text: &str) -> Result<()> {
    let lines = row_texts(alloc, text)?;
    match read_structs(alloc, lines.as_slice(), row_type) {
        Ok(Some(rows)) => {
            let done = append_with_values(out, &rows);
            drop(rows);
            done
        }
        Ok(None) => push(out, "given up"),
        Err(error) => Err(error),
    }
}

/// Appends the structs of lines, and the values of the dictionary beneath.
pub fn append_structs(alloc: Global, out: &mut Vec<u8>, types: &str, text: &str) -> Result<()> {
    match type_of(alloc, types) {
        Ok(row_type) => {
            let done = append_rows(alloc, out, &row_type, text);
            drop(row_type);
            done
        }
        Err(error) => Err(error),
    }
}
