//! The columns beneath rows, prepared once for all rows.
ghost use Rattle.std.specs.Prelude.{◌≡◌, ◌++◌, [], ◌∷◌, ◌==◌, codes, length, map, IfOk, OnOk, if◌then◌else◌};
ghost use Rattle.std.specs.Io.{StartsWith};
ghost use Rattle.arrow_base.specs.WrittenString.{json_string};
ghost use Rattle.arrow_core.specs.declared.types.Field.{Field as TheField};
ghost use Rattle.json_text.specs.Columns.{AddsColumn, AreWithin, AreFields, key_bytes, key_of};

use crate::bytes::{Appended, push, push_prefix, push_string};
use crate::integers::{IntegerForm, integer_form};
use arrow_core::{DataType, Field};
use std::alloc::{AllocError, Global};

/// What stands before the value of a member. A short key is copied in one step of constant length.
#[derive(Drop)]
pub enum Key {
    /// The first of these bytes, as many as said.
    Short([u8; 16], u8),
    /// More than 16 bytes.
    Long(Vec<u8>),
}

/// A column beneath rows: what stands before each of its values, and how its integers are written.
/// The columns of a row stand in a list, each followed by those within it.
#[derive(Drop)]
pub struct Column {
    /// What stands before each value.
    pub key: Key,
    /// How integers are written.
    pub form: IntegerForm,
    /// How many columns, next in the list, are within it.
    pub within: usize,
}

/// The key of these bytes.
fn shorten(key: Vec<u8>) -> std::result::Result<Key, AllocError>
    ensures { IfOk result (λ short. key_bytes short ≡ key.items) }
{
    let len = key.len();
    if len > 16 {
        return Ok(Key::Long(key));
    }
    let mut bytes = key;
    bytes.resize(16, 0)?;
    match bytes.as_slice().first_chunk::<16>() {
        Some(head) => Ok(Key::Short(*head, len as u8)),
        None => unreachable!(),
    }
}

/// What stands before the value of a member: a bracket or a comma, the name's JSON string, and a
/// colon.
fn make_key(alloc: Global, is_first: bool, name: &str) -> std::result::Result<Key, AllocError>
    ensures { IfOk result (λ key. key_bytes key ≡ key_of is_first name.now) }
{
    let mut key = Vec::new(alloc);
    push(&mut key, if is_first { b"{" } else { b"," })?;
    push_string(&mut key, name)?;
    push(&mut key, b":")?;
    shorten(key)
}

/// Appends a key.
///
/// `AllocError` where there is no memory. What stood in `out` stays: on `Ok` the text follows it, on
/// an error a part of the text.
#[inline]
pub fn push_key(out: &mut Vec<u8>, key: &Key) -> Appended
    ensures ok { OnOk result (out.new.items ≡ out.old.items ++ key_bytes key.now) }
    ensures kept { StartsWith out.new.items out.old.items }
{
    match key {
        Key::Short(bytes, len) => push_prefix(out, bytes, *len),
        Key::Long(bytes) => push(out, bytes.as_slice()),
    }
}

/// Adds the column of a member of this name and type, and after it the columns within it.
fn add_column(
    alloc: Global,
    columns: &mut Vec<Column>,
    name: &str,
    data_type: &DataType,
    mut within: Vec<Column>,
) -> Appended
    requires { AreWithin data_type.now within.items }
    ensures ok { OnOk result
        (AddsColumn name.now data_type.now columns.old.items columns.new.items) }
{
    let key = make_key(alloc, columns.as_slice().is_empty(), name)?;
    let column = Column {
        key,
        form: integer_form(data_type),
        within: within.as_slice().len(),
    };
    columns.push(column)?;
    columns.append(&mut within)
}

/// Adds the column of a member of this name and type, and after it the columns within it.
///
/// `AllocError` where there is no memory.
pub fn push_column(
    alloc: Global,
    columns: &mut Vec<Column>,
    name: &str,
    data_type: &DataType,
) -> Appended
    ensures ok { OnOk result
        (AddsColumn name.now data_type.now columns.old.items columns.new.items) }
{
    let within = columns_within(alloc, data_type)?;
    add_column(alloc, columns, name, data_type, within)
}

/// The columns within slots of the type: the members of its structs, at any depth of lists.
///
/// `AllocError` where there is no memory.
#[cycle(columns)]
pub fn columns_within(
    alloc: Global,
    data_type: &DataType,
) -> std::result::Result<Vec<Column>, AllocError>
    ensures { IfOk result (λ columns. AreWithin data_type.now columns.items) }
{
    match data_type {
        DataType::List(field) => columns_within(alloc, &field.get().data_type),
        DataType::LargeList(field) => columns_within(alloc, &field.get().data_type),
        DataType::FixedSizeList(field, _) => columns_within(alloc, &field.get().data_type),
        DataType::Dictionary(_, values, _) => columns_within(alloc, values.get()),
        DataType::Struct(fields) => columns_of(alloc, fields.as_slice()),
        _ => Ok(Vec::new(alloc)),
    }
}

/// The columns of the fields.
#[cycle(columns)]
fn columns_of(alloc: Global, fields: &[Field]) -> std::result::Result<Vec<Column>, AllocError>
    ensures { IfOk result (λ columns. AreFields fields.now columns.items) }
{
    let mut columns = Vec::new(alloc);
    for field in fields {
        let within = columns_within(alloc, &field.data_type)?;
        add_column(
            alloc,
            &mut columns,
            field.name.as_str(),
            &field.data_type,
            within,
        )?;
    }
    Ok(columns)
}
