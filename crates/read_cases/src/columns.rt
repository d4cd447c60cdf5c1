//! Columns of JSON values and of rows.
use crate::texts::{append_arrays, row_texts, rows_of};
use crate::types::{schema_of, type_of};
use arrow_array::{Array, Chunk};
use arrow_core::Result;
use json_columns::{deserialize, deserialize_records};
use json_tree::{Value, parse};
use std::alloc::Global;

/// The column of a value.
fn read_value(alloc: Global, types: &str, value: &Value) -> Result<Array> {
    match type_of(alloc, types) {
        Ok(data_type) => deserialize(alloc, value, data_type),
        Err(error) => Err(error),
    }
}

/// The column of a JSON text.
pub fn read(alloc: Global, types: &str, text: &str) -> Result<Array> {
    let value = parse(alloc, text.as_bytes())?;
    let array = read_value(alloc, types, &value);
    drop(value);
    array
}

fn read_value_records(alloc: Global, types: &str, value: &Value) -> Result<Chunk> {
    match schema_of(alloc, types) {
        Ok(schema) => {
            let chunk = deserialize_records(alloc, value, &schema);
            drop(schema);
            chunk
        }
        Err(error) => Err(error),
    }
}

fn read_records(alloc: Global, types: &str, text: &str) -> Result<Chunk> {
    let value = parse(alloc, text.as_bytes())?;
    let chunk = read_value_records(alloc, types, &value);
    drop(value);
    chunk
}

/// Appends the columns of records.
pub fn append_records(alloc: Global, out: &mut Vec<u8>, types: &str, text: &str) -> Result<()> {
    match read_records(alloc, types, text) {
        Ok(chunk) => {
            let done = append_arrays(out, chunk.arrays());
            drop(chunk);
            done
        }
        Err(error) => Err(error),
    }
}

/// The column of rows.
pub fn read_rows(alloc: Global, types: &str, text: &str) -> Result<Array> {
    let rows = row_texts(alloc, text)?;
    match type_of(alloc, types) {
        Ok(data_type) => ndjson::deserialize(alloc, rows.as_slice(), data_type),
        Err(error) => Err(error),
    }
}

/// The column of rows that an iterator gives.
pub fn read_given(alloc: Global, types: &str, text: &str) -> Result<Array> {
    let rows = rows_of(alloc, text)?;
    match type_of(alloc, types) {
        Ok(data_type) => ndjson::deserialize_iter(alloc, rows.as_str().lines(), data_type),
        Err(error) => Err(error),
    }
}
