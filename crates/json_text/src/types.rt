//! Which types have a JSON text, and which of them hold dates.
ghost use Rattle.std.specs.Prelude.{◌≡◌, List, true};
ghost use Rattle.std.specs.Bool.{OnFalse};
ghost use Rattle.std.specs.List.{list_all};
ghost use Rattle.arrow_core.specs.declared.slot.Slot.{Slot};
ghost use Rattle.arrow_core.specs.declared.types.Field.{Field as TheField};
ghost use Rattle.json_text.specs.Refusals.{all_in_range, has_text, has_offsets, in_range, is_offset, is_string_type};

use arrow_core::{DataType, Field, Text};
use json_dates::parse_offset;

fn is_string_type(data_type: &DataType) -> bool
    ensures { result ≡ is_string_type data_type.now }
{
    matches!(data_type, DataType::Utf8 | DataType::LargeUtf8)
}

/// Whether the slots of the type have a JSON text: Null, Boolean, integers of 8 to 64 bits, dates,
/// timestamps, strings, dictionaries of strings, and lists and structs of all these.
#[cycle(texts)]
pub fn has_text(data_type: &DataType) -> bool
    ensures { result ≡ has_text data_type.now }
{
    match data_type {
        DataType::Null
        | DataType::Boolean
        | DataType::Int8
        | DataType::Int16
        | DataType::Int32
        | DataType::Int64
        | DataType::UInt8
        | DataType::UInt16
        | DataType::UInt32
        | DataType::UInt64
        | DataType::Timestamp(_, _)
        | DataType::Date32
        | DataType::Date64
        | DataType::Utf8
        | DataType::LargeUtf8 => true,
        DataType::List(field) => has_text(&field.get().data_type),
        DataType::LargeList(field) => has_text(&field.get().data_type),
        DataType::FixedSizeList(field, _) => has_text(&field.get().data_type),
        DataType::Struct(fields) => have_texts(fields.as_slice()),
        DataType::Dictionary(_, values, _) => is_string_type(values.get()),
        DataType::Float16
        | DataType::Float32
        | DataType::Float64
        | DataType::Time32(_)
        | DataType::Time64(_)
        | DataType::Duration(_)
        | DataType::Interval(_)
        | DataType::Binary
        | DataType::FixedSizeBinary(_)
        | DataType::LargeBinary
        | DataType::Map(_, _)
        | DataType::Union(_, _, _)
        | DataType::Decimal(_, _)
        | DataType::Decimal256(_, _)
        | DataType::Extension(_, _, _) => false,
    }
}

#[cycle(texts)]
fn have_texts(fields: &[Field]) -> bool
    ensures { result ≡ list_all (λ (f : TheField). has_text f.data_type) fields.now }
{
    for field in fields {
        if !has_text(&field.data_type) {
            return false;
        }
    }
    true
}

/// Whether a zone, if there is one, is an offset.
fn is_offset(zone: &Option<Text>) -> bool
    ensures { result ≡ is_offset zone.now }
{
    match zone {
        Some(zone) => parse_offset(zone.as_str()).is_some(),
        None => true,
    }
}

/// Whether the zone of each timestamp in the type is an offset.
#[cycle(offsets)]
pub(crate) fn has_offsets(data_type: &DataType) -> bool
    ensures { result ≡ has_offsets data_type.now }
{
    match data_type {
        DataType::Timestamp(_, zone) => is_offset(zone),
        DataType::List(field) => has_offsets(&field.get().data_type),
        DataType::LargeList(field) => has_offsets(&field.get().data_type),
        DataType::FixedSizeList(field, _) => has_offsets(&field.get().data_type),
        DataType::Struct(fields) => have_offsets(fields.as_slice()),
        _ => true,
    }
}

#[cycle(offsets)]
fn have_offsets(fields: &[Field]) -> bool
    ensures { result ≡ list_all (λ (f : TheField). has_offsets f.data_type) fields.now }
{
    for field in fields {
        if !has_offsets(&field.data_type) {
            return false;
        }
    }
    true
}

/// Whether a date or a timestamp stands in the type. Where none does, each slot is in range.
#[cycle(dates)]
pub(crate) fn holds_dates(data_type: &DataType) -> bool
    ensures { OnFalse result ((slot : Slot) → in_range data_type.now slot ≡ true) }
{
    match data_type {
        DataType::Date32 | DataType::Date64 | DataType::Timestamp(_, _) => true,
        DataType::List(field) => holds_dates(&field.get().data_type),
        DataType::LargeList(field) => holds_dates(&field.get().data_type),
        DataType::FixedSizeList(field, _) => holds_dates(&field.get().data_type),
        DataType::Struct(fields) => hold_dates(fields.as_slice()),
        DataType::Dictionary(_, values, _) => holds_dates(values.get()),
        _ => false,
    }
}

#[cycle(dates)]
fn hold_dates(fields: &[Field]) -> bool
    ensures { OnFalse result
        ((slots : List Slot) → all_in_range fields.now slots ≡ true) }
{
    for field in fields {
        if holds_dates(&field.data_type) {
            return true;
        }
    }
    false
}
