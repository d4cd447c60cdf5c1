//! The texts of types, with the names and the nullability of their fields.
use arrow_core::{DataType, Field, Metadata, Result};
use std::alloc::Global;

fn push(out: &mut String, text: &str) -> Result<()> {
    out.push_str(text)?;
    Ok(())
}

/// Appends a type that is inferred from JSON.
#[cycle(types)]
pub fn append_type(alloc: Global, out: &mut String, data_type: &DataType) -> Result<()> {
    match data_type {
        DataType::Null => push(out, "Null"),
        DataType::Boolean => push(out, "Boolean"),
        DataType::Int64 => push(out, "Int64"),
        DataType::Float64 => push(out, "Float64"),
        DataType::Utf8 => push(out, "Utf8"),
        DataType::List(item) => append_list(alloc, out, item.get()),
        DataType::Struct(fields) => append_struct(alloc, out, fields.as_slice()),
        _ => push(out, "another type"),
    }
}

#[cycle(types)]
fn append_list(alloc: Global, out: &mut String, item: &Field) -> Result<()> {
    push(out, "List(")?;
    append_field(alloc, out, item)?;
    push(out, ")")
}

#[cycle(types)]
fn append_struct(alloc: Global, out: &mut String, fields: &[Field]) -> Result<()> {
    push(out, "Struct(")?;
    append_fields(alloc, out, fields)?;
    push(out, ")")
}

/// Appends the fields, with a comma between each two.
#[cycle(types)]
pub fn append_fields(alloc: Global, out: &mut String, fields: &[Field]) -> Result<()> {
    let mut is_first = true;
    for field in fields {
        push(out, if is_first { "" } else { ", " })?;
        append_field(alloc, out, field)?;
        is_first = false;
    }
    Ok(())
}

/// Appends a field: its name, its type, a question mark where it may hold nulls, and whether it has
/// metadata.
#[cycle(types)]
fn append_field(alloc: Global, out: &mut String, field: &Field) -> Result<()> {
    push(out, field.name.as_str())?;
    push(out, ": ")?;
    append_type(alloc, out, &field.data_type)?;
    push(out, if field.is_nullable { "?" } else { "" })?;
    let is_plain = field.metadata == Metadata::new(alloc);
    push(out, if is_plain { "" } else { " with metadata" })
}
