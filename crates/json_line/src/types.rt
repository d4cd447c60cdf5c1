//! Types that lines are read into.
ghost use Rattle.std.specs.Prelude.{◌≡◌, IfOk};
ghost use Rattle.arrow_core.specs.Errors.{OnlyOutOfMemory};
ghost use Rattle.json_line.specs.Builders.{is_timestamp as is_timestamp_of};
ghost use Rattle.json_line.specs.Lines.{are_line_fields as are_line_fields_of, are_sized_items as are_sized_items_of, are_struct_fields as are_struct_fields_of, have_line_readings as have_line_readings_of};
ghost use Rattle.json_line.specs.Types.{has_line_reading as has_line_reading_of};

use arrow_core::{DataType, Field, IntervalUnit, Result};
use json_flat::have_distinct_names;
use std::alloc::Global;

/// Whether lines are read into columns of this type: Null, Boolean, integers of 8 to 64 bits, dates,
/// times, timestamps, durations, intervals of months, Utf8, Binary and their large forms, List and
/// LargeList of these, FixedSizeList of at least one item of these, and Struct of at least one field,
/// each of these, with no name twice. `OutOfMemory` alone.
#[cycle(readable)]
fn has_line_reading(alloc: Global, data_type: &DataType) -> Result<bool>
    ensures ok { IfOk result (λ b. b ≡ has_line_reading_of data_type.now) }
    ensures memory { OnlyOutOfMemory result }
{
    match data_type {
        DataType::Null
        | DataType::Boolean
        | DataType::Int8
        | DataType::Int16
        | DataType::Int32
        | DataType::Int64
        | DataType::UInt8
        | DataType::UInt16
        | DataType::UInt32
        | DataType::UInt64
        | DataType::Date32
        | DataType::Date64
        | DataType::Time32(_)
        | DataType::Time64(_)
        | DataType::Duration(_)
        | DataType::Timestamp(_, _)
        | DataType::Interval(IntervalUnit::YearMonth)
        | DataType::Utf8
        | DataType::LargeUtf8
        | DataType::Binary
        | DataType::LargeBinary => Ok(true),
        DataType::List(item) => has_line_reading(alloc, &item.get().data_type),
        DataType::LargeList(item) => has_line_reading(alloc, &item.get().data_type),
        DataType::FixedSizeList(item, size) => are_sized_items(alloc, item.get(), *size),
        DataType::Struct(fields) => are_struct_fields(alloc, fields.as_slice()),
        _ => Ok(false),
    }
}

/// Whether lists have items, and lines are read into columns of their type.
#[cycle(readable)]
fn are_sized_items(alloc: Global, item: &Field, size: usize) -> Result<bool>
    ensures ok { IfOk result (λ b. b ≡ are_sized_items_of size item.now) }
    ensures memory { OnlyOutOfMemory result }
{
    if size == 0 {
        return Ok(false);
    }
    has_line_reading(alloc, &item.data_type)
}

/// Whether there are fields, no two of them have the same name, and lines are read into columns of
/// each type.
#[cycle(readable)]
fn are_struct_fields(alloc: Global, fields: &[Field]) -> Result<bool>
    ensures ok { IfOk result (λ b. b ≡ are_struct_fields_of fields.now) }
    ensures memory { OnlyOutOfMemory result }
{
    if fields.is_empty() {
        return Ok(false);
    }
    are_line_fields(alloc, fields)
}

/// Whether no two fields have the same name, and lines are read into columns of each type.
#[cycle(readable)]
pub(crate) fn are_line_fields(alloc: Global, fields: &[Field]) -> Result<bool>
    ensures ok { IfOk result (λ b. b ≡ are_line_fields_of fields.now) }
    ensures memory { OnlyOutOfMemory result }
{
    if !have_distinct_names(alloc, fields)? {
        return Ok(false);
    }
    have_line_readings(alloc, fields)
}

/// Whether lines are read into columns of each field's type.
#[cycle(readable)]
fn have_line_readings(alloc: Global, fields: &[Field]) -> Result<bool>
    ensures ok { IfOk result (λ b. b ≡ have_line_readings_of fields.now) }
    ensures memory { OnlyOutOfMemory result }
{
    for field in fields {
        if !has_line_reading(alloc, &field.data_type)? {
            return Ok(false);
        }
    }
    Ok(true)
}

/// Whether it is the type of timestamps.
#[inline(always)]
pub(crate) fn is_timestamp(data_type: &DataType) -> bool
    ensures { result ≡ is_timestamp_of data_type.now }
{
    matches!(data_type, DataType::Timestamp(_, _))
}
