//! Strings under timestamps, which are looked for once a column was refused.
ghost use Rattle.std.specs.Prelude.{◌≡◌, MatchBool};
ghost use Rattle.json_flat.specs.Columns.{Has, means};
ghost use Rattle.json_flat.specs.Meaning.{moment_in, text_timestamp};
ghost use Rattle.json_columns.specs.Gathered.{HasNoFields, field_meanings};
ghost use Rattle.json_flat.specs.Reading.{list_in, reading, sized_list_in, struct_in};
ghost use Rattle.json_columns.specs.Texts.{IsNoTimestamp, is_text, item_is_text, member_is_text};
ghost use Rattle.json_tree.specs.Keys.{value_of};
ghost use Rattle.json_tree.specs.Tree.{or_null};

use arrow_core::{DataType, Field};
use json_tree::{Object, Value};

fn is_string(value: &Value) -> bool
    ensures { result ≡ is_text (means moment_in value.now) }
{
    matches!(value, Value::String(_))
}

/// No string stands under a timestamp where there is no timestamp.
fn has_no_text(_data_type: &DataType, _value: &Value) -> bool
    requires flat { HasNoFields _data_type.now }
    requires other { IsNoTimestamp _data_type.now }
    ensures { result ≡ is_text (means (reading _data_type.now) _value.now) }
{
    false
}

/// Whether a string stands under a timestamp in the value: the value itself, or anything beneath it.
#[cycle(texts)]
pub(crate) fn has_text(data_type: &DataType, value: &Value) -> bool
    ensures { result ≡ is_text (means (reading data_type.now) value.now) }
{
    match data_type {
        DataType::Timestamp(_, _) => is_string(value),
        DataType::List(item) => list_has_text(item.get(), value),
        DataType::LargeList(item) => list_has_text(item.get(), value),
        DataType::FixedSizeList(item, size) => sized_list_has_text(item.get(), *size, value),
        DataType::Struct(fields) => struct_has_text(fields.as_slice(), value),
        DataType::Dictionary(_, inner, _) => has_text(inner.get(), value),
        _ => has_no_text(data_type, value),
    }
}

/// Whether a list of this field does.
#[cycle(texts)]
fn list_has_text(item: &Field, value: &Value) -> bool
    ensures { result ≡ is_text (means (list_in (means (reading item.now.data_type))) value.now) }
{
    match value {
        Value::Array(items) => items_have_text(item, items.as_slice()),
        _ => false,
    }
}

/// Whether a list of so many items of this field does.
#[cycle(texts)]
fn sized_list_has_text(item: &Field, size: usize, value: &Value) -> bool
    ensures { result
        ≡ is_text (means (sized_list_in size (means (reading item.now.data_type))) value.now) }
{
    match value {
        Value::Array(array) => {
            let items = array.as_slice();
            items.len() == size && items_have_text(item, items)
        }
        _ => false,
    }
}

/// Whether one of the items does.
#[cycle(texts)]
fn items_have_text(item: &Field, items: &[Value]) -> bool
    ensures { result ≡ item_is_text (reading item.now.data_type) items.now }
{
    for value in items {
        if has_text(&item.data_type, value) {
            return true;
        }
    }
    false
}

/// Whether a struct of these fields does.
#[cycle(texts)]
fn struct_has_text(fields: &[Field], value: &Value) -> bool
    ensures { result ≡ is_text (means (struct_in (field_meanings fields.now)) value.now) }
{
    match value {
        Value::Object(object) => members_have_text(fields, object),
        _ => false,
    }
}

/// Whether one of the members does.
#[cycle(texts)]
fn members_have_text(fields: &[Field], object: &Object) -> bool
    ensures { result ≡ member_is_text fields.now object.now.members }
{
    for field in fields {
        if member_has_text(field, object) {
            return true;
        }
    }
    false
}

/// Whether the member of this field does.
#[cycle(texts)]
fn member_has_text(field: &Field, object: &Object) -> bool
    ensures { result ≡ is_text (means (reading field.now.data_type)
        (or_null (value_of field.now.name object.now.members))) }
{
    match object.get(field.name.as_str()) {
        Some(member) => has_text(&field.data_type, member),
        None => false,
    }
}

/// Whether one of the values means a string under a timestamp.
pub(crate) fn any_has_text(data_type: &DataType, values: &[Value]) -> bool
    ensures { MatchBool result (Has text_timestamp (reading data_type.now) values.now)
        (Has text_timestamp (reading data_type.now) values.now → ⊥) }
{
    for value in values {
        if has_text(data_type, value) {
            return true;
        }
    }
    false
}

/// Whether one of the rows, read as a struct of these fields, means a string under a timestamp.
pub(crate) fn any_row_has_text(fields: &[Field], rows: &[Value]) -> bool
    ensures { MatchBool result
        (Has text_timestamp (struct_in (field_meanings fields.now)) rows.now)
        (Has text_timestamp (struct_in (field_meanings fields.now)) rows.now → ⊥) }
{
    for row in rows {
        if struct_has_text(fields, row) {
            return true;
        }
    }
    false
}
