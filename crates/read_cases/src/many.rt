//! Rows and types that are too long for a line.
use crate::columns::read;
use crate::numbers::{HIGH, LOW, append_whole};
use crate::texts::{append_array, push};
use crate::types::numbered;
use arrow_array::{Array, Chunk};
use arrow_core::{DataType, Field, Items, Metadata, Result, Schema, Text};
use json_columns::{deserialize_records, read_values};
use json_flat::read_whole_text;
use json_tree::{Value, parse};
use std::alloc::Global;

/// How many keys there are. To compare each with each would take a run longer, which none measures.
const KEYS: usize = 20_000;

/// An object of the members `"k0":0` and so on, the last one first.
fn backwards(alloc: Global) -> Result<String> {
    let mut text = String::from_str(alloc, "{")?;
    for i in 0..KEYS {
        let number = KEYS - 1 - i;
        let comma = if i == 0 { "" } else { "," };
        text.push_str(format!(in alloc; "{comma}\"k{number}\":{number}")?.as_str())?;
    }
    text.push_str("}")?;
    Ok(text)
}

/// Whether the array has one slot, this integer.
fn is_integer(array: &Array, wanted: i64) -> bool {
    match array {
        Array::Int64(array) => array.len() == 1 && array.is_valid(0) && array.value(0) == wanted,
        _ => false,
    }
}

/// Whether there is an array for each key, of one slot, the array's own index.
fn are_indices(arrays: &[Array]) -> bool {
    let mut index: i64 = 0;
    for array in arrays {
        if !is_integer(array, index) {
            return false;
        }
        index = index.wrapping_add(1);
    }
    arrays.len() == KEYS
}

fn append_order(out: &mut Vec<u8>, arrays: &[Array]) -> Result<()> {
    push(
        out,
        if are_indices(arrays) {
            "in order"
        } else {
            "out of order"
        },
    )
}

fn append_structs(out: &mut Vec<u8>, rows: &Array) -> Result<()> {
    match rows {
        Array::Struct(structs) => append_order(out, structs.values()),
        _ => push(out, "no structs"),
    }
}

/// The one line under its fields, read by a tree.
fn read_line(alloc: Global) -> Result<Array> {
    let line = Text::from_string(backwards(alloc)?);
    match numbered(alloc, KEYS) {
        Ok(row_type) => ndjson::deserialize(alloc, &[line], row_type),
        Err(error) => Err(error),
    }
}

fn append_line(alloc: Global, out: &mut Vec<u8>) -> Result<()> {
    match read_line(alloc) {
        Ok(rows) => {
            let done = append_structs(out, &rows);
            drop(rows);
            done
        }
        Err(error) => Err(error),
    }
}

fn numbered_fields(alloc: Global) -> Result<Items<Field>> {
    match numbered(alloc, KEYS) {
        Ok(DataType::Struct(fields)) => Ok(fields),
        Ok(other) => {
            drop(other);
            Ok(Items::from_vec(Vec::new(alloc)))
        }
        Err(error) => Err(error),
    }
}

fn read_record(alloc: Global, value: &Value) -> Result<Chunk> {
    match numbered_fields(alloc) {
        Ok(fields) => {
            let metadata = Metadata::new(alloc);
            let schema = Schema { fields, metadata };
            let chunk = deserialize_records(alloc, value, &schema);
            drop(schema);
            chunk
        }
        Err(error) => Err(error),
    }
}

fn append_record_of(alloc: Global, out: &mut Vec<u8>, value: &Value) -> Result<()> {
    match read_record(alloc, value) {
        Ok(chunk) => {
            let done = append_order(out, chunk.arrays());
            drop(chunk);
            done
        }
        Err(error) => Err(error),
    }
}

fn append_record(alloc: Global, out: &mut Vec<u8>) -> Result<()> {
    let row = backwards(alloc)?;
    let rows = format!(in alloc; "[{row}]")?;
    let value = parse(alloc, rows.as_str().as_bytes())?;
    let done = append_record_of(alloc, out, &value);
    drop(value);
    done
}

fn push_again(alloc: Global, fields: &mut Vec<Field>, again: &str) -> Result<()> {
    let name = Text::try_from_str(alloc, again)?;
    fields.push(Field::new(alloc, name, DataType::Int64, true))?;
    Ok(())
}

/// The fields, and one of them again.
fn twice(alloc: Global, again: &str) -> Result<DataType> {
    match numbered_fields(alloc) {
        Ok(fields) => {
            let mut fields = fields.into_vec();
            let done = push_again(alloc, &mut fields, again);
            let data_type = DataType::Struct(Items::from_vec(fields));
            match done {
                Ok(()) => Ok(data_type),
                Err(error) => {
                    drop(data_type);
                    Err(error)
                }
            }
        }
        Err(error) => Err(error),
    }
}

fn read_none(alloc: Global, again: &str) -> Result<Array> {
    match twice(alloc, again) {
        Ok(row_type) => {
            let array = read_values(alloc, &[], &row_type);
            drop(row_type);
            array
        }
        Err(error) => Err(error),
    }
}

/// A million digits, each 1.
fn million_ones(alloc: Global) -> Result<String> {
    let mut digits = String::new(alloc);
    for _ in 0..100_000 {
        digits.push_str("1111111111")?;
    }
    Ok(digits)
}

/// Appends the whole number of the digits, that before as many digits but one after a point, and
/// the column of the first.
fn append_digits(alloc: Global, out: &mut Vec<u8>) -> Result<()> {
    let digits = million_ones(alloc)?;
    append_whole(alloc, out, read_whole_text(digits.as_str(), "", LOW, HIGH))?;
    push(out, ", ")?;
    append_whole(
        alloc,
        out,
        read_whole_text(digits.as_str(), "-999999", LOW, HIGH),
    )?;
    push(out, ", ")?;
    let text = format!(in alloc; "[{digits}]")?;
    match append_array(out, read(alloc, "list Int64", text.as_str())) {
        Ok(()) => Ok(()),
        Err(error) => push(out, error.name()),
    }
}

/// Appends what becomes of a line or a record of many keys, of many fields of which one stands
/// twice, or of many digits.
pub fn append_many(alloc: Global, out: &mut Vec<u8>, what: &str) -> Result<()> {
    match what {
        "keys in a line" => append_line(alloc, out),
        "keys in a record" => append_record(alloc, out),
        "digits" => append_digits(alloc, out),
        again => append_array(out, read_none(alloc, again)),
    }
}
