//! Texts that are too long for a line.
use crate::answers::append_of_text;
use arrow_core::{DataType, Error, Field, Result};
use json_infer::infer;
use json_tree::{Number, Object, Value, parse};
use std::alloc::Global;

/// So many that to compare each with all before it would take minutes.
const ROWS: u32 = 100_000;

/// An array of rows, each of which has one of 40 members, of 40 others, and of 63 others. No two
/// have the same three.
fn rows(alloc: Global) -> Result<String> {
    let mut text = String::from_str(alloc, "[{}")?;
    for i in 0..ROWS {
        let row = format!(in alloc;
            ",{{\"a{}\":1,\"b{}\":1,\"c{}\":1}}",
            i % 40,
            i / 40 % 40,
            i / 1600
        )?;
        text.push_str(row.as_str())?;
    }
    text.push_str("]")?;
    Ok(text)
}

/// How many names there are of members that come one in a row.
const NAMES: u32 = 3000;

/// An array of rows of one member each. Each name comes twice, first in the order of the multiples
/// of 7, each cut at `NAMES`.
fn named_rows(alloc: Global) -> Result<String> {
    let mut text = String::from_str(alloc, "[{}")?;
    for i in 0..2 * NAMES {
        let row = format!(in alloc; ",{{\"n{}\":1}}", i * 7 % NAMES)?;
        text.push_str(row.as_str())?;
    }
    text.push_str("]")?;
    Ok(text)
}

fn is_integer(field: &Field) -> bool {
    matches!(field.data_type, DataType::Int64)
}

/// Whether these are all the names in that order.
fn are_in_order(alloc: Global, fields: &[Field]) -> Result<bool> {
    let mut number: u32 = 0;
    for field in fields {
        let name = format!(in alloc; "n{number}")?;
        if field.name.as_str() != name.as_str() || !is_integer(field) {
            return Ok(false);
        }
        number = number.wrapping_add(7) % NAMES;
    }
    Ok(fields.len() == NAMES as usize)
}

/// Whether lists of structs have all the names in that order.
fn is_in_order(alloc: Global, data_type: &DataType) -> Result<bool> {
    match data_type {
        DataType::List(item) => match &item.get().data_type {
            DataType::Struct(fields) => are_in_order(alloc, fields.as_slice()),
            _ => Ok(false),
        },
        _ => Ok(false),
    }
}

/// Whether the type of a value has all the names in that order.
fn is_inferred_in_order(alloc: Global, value: &Value) -> Result<bool> {
    match infer(alloc, value) {
        Ok(data_type) => {
            let is_in_order = is_in_order(alloc, &data_type);
            drop(data_type);
            is_in_order
        }
        Err(error) => Err(error),
    }
}

/// How many keys there are: many more than are compared one after another.
const KEYS: usize = 20_000;

/// An object that names each key twice, first in the order of the multiples of 7 modulo `KEYS`. The
/// value of member i is i.
fn keys_twice(alloc: Global) -> Result<String> {
    let mut text = String::from_str(alloc, "{\"k0\":0")?;
    for i in 1..2 * KEYS {
        let member = format!(in alloc; ",\"k{}\":{i}", i * 7 % KEYS)?;
        text.push_str(member.as_str())?;
    }
    text.push_str("}")?;
    Ok(text)
}

/// Whether there is a value, and it is this number.
fn is_number(value: Option<&Value>, number: &str) -> bool {
    match value {
        Some(Value::Number(Number::Integer(mantissa, _))) => mantissa.as_str() == number,
        _ => false,
    }
}

/// Whether each key stands where it was named first, and is found there and from there, with the
/// value that came last.
fn are_found(alloc: Global, object: &Object) -> Result<bool> {
    if object.members().len() != KEYS {
        return Ok(false);
    }
    for i in 0..KEYS {
        let key = format!(in alloc; "k{}", i * 7 % KEYS)?;
        let last = format!(in alloc; "{}", i + KEYS)?;
        let key = key.as_str();
        let last = last.as_str();
        let is_first = object.members()[i].0.as_str() == key;
        if !is_first
            || !is_number(object.get(key), last)
            || !is_number(object.get_near(i, key), last)
        {
            return Ok(false);
        }
    }
    Ok(true)
}

fn are_all_found(alloc: Global, value: &Value) -> Result<bool> {
    match value {
        Value::Object(object) => are_found(alloc, object),
        _ => Ok(false),
    }
}

/// Whether what a text of many names or keys says is kept in order.
fn is_kept(alloc: Global, what: &str, value: &Value) -> Result<bool> {
    match what {
        "names" => is_inferred_in_order(alloc, value),
        _ => are_all_found(alloc, value),
    }
}

fn append_whether_kept(alloc: Global, out: &mut String, what: &str, text: &str) -> Result<()> {
    match parse(alloc, text.as_bytes()) {
        Ok(value) => {
            let is_kept = is_kept(alloc, what, &value);
            drop(value);
            out.push_str(if is_kept? { "in order" } else { "out of order" })?;
            Ok(())
        }
        Err(fault) => Err(Error::from(fault)),
    }
}

/// Appends the type of many rows, or whether many names or keys are kept in order.
pub fn append_many(alloc: Global, out: &mut String, what: &str) -> Result<()> {
    match what {
        "rows" => append_of_text(alloc, out, "infer", rows(alloc)?.as_str()),
        "names" => append_whether_kept(alloc, out, what, named_rows(alloc)?.as_str()),
        _ => append_whether_kept(alloc, out, what, keys_twice(alloc)?.as_str()),
    }
}
