//! How columns lie in memory.
use crate::texts::{append_slots, push};
use arrow_array::{Array, BinaryArray, Keys, PrimitiveArray};
use arrow_base::write_str;
use arrow_core::{NativeType, Offset, Result};
use std::alloc::Global;
use std::fmt::Display;

fn append_integers<T: NativeType + Display>(
    alloc: Global,
    out: &mut Vec<u8>,
    array: &PrimitiveArray<T>,
) -> Result<()> {
    for i in 0..array.len() {
        push(out, if i == 0 { "" } else { "," })?;
        if array.is_valid(i) {
            push(out, format!(in alloc; "{}", array.value(i))?.as_str())?;
        } else {
            push(out, "null")?;
        }
    }
    Ok(())
}

/// Appends the bytes of each slot, which are UTF-8.
fn append_bytes<O: Offset>(out: &mut Vec<u8>, array: &BinaryArray<O>) -> Result<()> {
    for i in 0..array.len() {
        push(out, if i == 0 { "" } else { "," })?;
        if array.is_valid(i) {
            write_str(out, str::from_utf8(array.value(i)).unwrap_or("other bytes"))?;
        } else {
            push(out, "null")?;
        }
    }
    Ok(())
}

fn append_stored_slots(alloc: Global, out: &mut Vec<u8>, array: &Array) -> Result<()> {
    match array {
        Array::UInt8(array) => append_integers(alloc, out, array),
        Array::UInt16(array) => append_integers(alloc, out, array),
        Array::UInt32(array) => append_integers(alloc, out, array),
        Array::UInt64(array) => append_integers(alloc, out, array),
        Array::Int8(array) => append_integers(alloc, out, array),
        Array::Int16(array) => append_integers(alloc, out, array),
        Array::Int32(array) => append_integers(alloc, out, array),
        Array::Int64(array) => append_integers(alloc, out, array),
        Array::Binary(array) => append_bytes(out, array),
        Array::LargeBinary(array) => append_bytes(out, array),
        _ => push(out, "no integers or bytes"),
    }
}

/// Appends the integers or the bytes of a column, if there is one.
pub fn append_stored(alloc: Global, out: &mut Vec<u8>, read: Result<Array>) -> Result<()> {
    match read {
        Ok(array) => {
            let done = append_stored_slots(alloc, out, &array);
            drop(array);
            done
        }
        Err(error) => Err(error),
    }
}

fn append_key(alloc: Global, out: &mut Vec<u8>, key: Option<usize>) -> Result<()> {
    match key {
        Some(key) => push(out, format!(in alloc; "{key}")?.as_str()),
        None => push(out, "null"),
    }
}

fn append_each_key(alloc: Global, out: &mut Vec<u8>, keys: &Keys) -> Result<()> {
    for i in 0..keys.len() {
        push(out, if i == 0 { "" } else { "," })?;
        append_key(alloc, out, keys.index(i))?;
    }
    Ok(())
}

/// The values of a column of a dictionary.
pub fn values_of(column: &Array) -> Option<&Array> {
    match column {
        Array::Dictionary(array) => Some(array.values()),
        _ => None,
    }
}

fn append_dictionary(alloc: Global, out: &mut Vec<u8>, array: &Array) -> Result<()> {
    match array {
        Array::Dictionary(array) => {
            append_each_key(alloc, out, array.keys())?;
            push(out, " of ")?;
            append_slots(out, array.values())
        }
        _ => push(out, "no dictionary"),
    }
}

/// Appends the keys and the values of a column of a dictionary, if there is one.
pub fn append_keys(alloc: Global, out: &mut Vec<u8>, read: Result<Array>) -> Result<()> {
    match read {
        Ok(array) => {
            let done = append_dictionary(alloc, out, &array);
            drop(array);
            done
        }
        Err(error) => Err(error),
    }
}
