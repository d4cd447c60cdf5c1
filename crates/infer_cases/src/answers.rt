//! The answer to a case.
use crate::lines::{append_failing, append_first, append_given, append_lines};
use crate::many::append_many;
use crate::types::{append_fields, append_type};
use arrow_core::{DataType, Error, Result};
use json_infer::{RowTypes, coerce_data_type, infer, infer_records_schema};
use json_tree::{Value, parse};
use std::alloc::{AllocError, Global};

/// Appends the type, if there is one.
pub fn append_inferred(alloc: Global, out: &mut String, inferred: Result<DataType>) -> Result<()> {
    match inferred {
        Ok(data_type) => {
            let done = append_type(alloc, out, &data_type);
            drop(data_type);
            done
        }
        Err(error) => Err(error),
    }
}

fn push_types(alloc: Global, types: &mut Vec<DataType>, items: &[Value]) -> Result<()> {
    for item in items {
        let data_type = infer(alloc, item)?;
        types.push(data_type)?;
    }
    Ok(())
}

/// What the types of the items are coerced to.
fn coerced(alloc: Global, items: &[Value]) -> Result<DataType> {
    let mut types = Vec::new(alloc);
    let coerced = match push_types(alloc, &mut types, items) {
        Ok(()) => coerce_data_type(alloc, types.as_slice()),
        Err(error) => Err(error),
    };
    drop(types);
    coerced
}

fn add_rows(types: &mut RowTypes, rows: &[Value]) -> Result<()> {
    for row in rows {
        types.add(row)?;
    }
    Ok(())
}

/// The type of the rows, added one at a time.
fn type_of_rows(alloc: Global, rows: &[Value]) -> Result<DataType> {
    let mut types = RowTypes::new(alloc);
    let data_type = match add_rows(&mut types, rows) {
        Ok(()) => types.result(),
        Err(error) => Err(error),
    };
    drop(types);
    data_type
}

fn append_records(alloc: Global, out: &mut String, value: &Value) -> Result<()> {
    match infer_records_schema(alloc, value) {
        Ok(schema) => {
            let done = append_fields(alloc, out, schema.fields.as_slice());
            drop(schema);
            done
        }
        Err(error) => Err(error),
    }
}

fn items_of(value: &Value) -> &[Value] {
    match value {
        Value::Array(items) => items.as_slice(),
        _ => &[],
    }
}

fn append_of(alloc: Global, out: &mut String, command: &str, value: &Value) -> Result<()> {
    match command {
        "infer" => append_inferred(alloc, out, infer(alloc, value)),
        "coerce" => append_inferred(alloc, out, coerced(alloc, items_of(value))),
        "rows" => append_inferred(alloc, out, type_of_rows(alloc, items_of(value))),
        "records" => append_records(alloc, out, value),
        _ => Ok(out.push_str("no command")?),
    }
}

/// Appends what the command makes of a JSON text.
pub fn append_of_text(alloc: Global, out: &mut String, command: &str, text: &str) -> Result<()> {
    match parse(alloc, text.as_bytes()) {
        Ok(value) => {
            let done = append_of(alloc, out, command, &value);
            drop(value);
            done
        }
        Err(fault) => Err(Error::from(fault)),
    }
}

/// Appends what a command makes of what stands after it.
fn append_answer(alloc: Global, out: &mut String, command: &str, text: &str) -> Result<()> {
    match command {
        "lines" => append_lines(alloc, out, text),
        "given" => append_given(alloc, out, text),
        "first" => append_first(alloc, out, text),
        "failing" => append_failing(alloc, out, text),
        "many" => append_many(alloc, out, text),
        _ => append_of_text(alloc, out, command, text),
    }
}

/// What is printed for a line.
pub fn printed(alloc: Global, line: &str) -> std::result::Result<String, AllocError> {
    let Some((name, case)) = line.split_once(": ") else {
        return String::from_str(alloc, line);
    };
    if line.starts_with('#') {
        return String::from_str(alloc, line);
    }
    let (command, text) = case.split_once(' ').unwrap_or((case, ""));
    let mut out = String::new(alloc);
    match append_answer(alloc, &mut out, command, text) {
        Ok(()) => format!(in alloc; "{name}: {out}"),
        Err(error) => format!(in alloc; "{name}: {error}"),
    }
}
