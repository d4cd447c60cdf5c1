//! Which types JSON values are read under.
ghost use Rattle.std.specs.Prelude.{◌≡◌};
ghost use Rattle.json_columns.specs.Gathered.{all_have_reading as all_have_reading_of, sized_list_has_reading as sized_list_has_reading_of, struct_has_reading as struct_has_reading_of};
ghost use Rattle.json_flat.specs.Reading.{has_reading, is_value_type as is_value_type_of};

use arrow_core::{DataType, Field, IntervalUnit};

/// Whether values are read under a dictionary over this type.
fn is_value_type(data_type: &DataType) -> bool
    ensures { result ≡ is_value_type_of data_type.now }
{
    matches!(
        data_type,
        DataType::Utf8
            | DataType::LargeUtf8
            | DataType::Int8
            | DataType::Int16
            | DataType::Int32
            | DataType::Int64
    )
}

/// Whether JSON values are read under this type: Null, Boolean, integers of 8 to 64 bits, dates,
/// times, timestamps, durations, intervals of months, Utf8, Binary and their large forms, and
/// Dictionary over Utf8, LargeUtf8 or signed integers of 8 to 64 bits; besides, List and LargeList
/// of any type under which values are read, FixedSizeList of at least one item of such a type, and
/// Struct of at least one field, each of such a type. It takes no memory.
#[cycle(readable)]
pub fn has_json_reading(data_type: &DataType) -> bool
    ensures { result ≡ has_reading data_type.now }
{
    match data_type {
        DataType::Null
        | DataType::Boolean
        | DataType::Int8
        | DataType::Int16
        | DataType::Int32
        | DataType::Int64
        | DataType::UInt8
        | DataType::UInt16
        | DataType::UInt32
        | DataType::UInt64
        | DataType::Date32
        | DataType::Date64
        | DataType::Time32(_)
        | DataType::Time64(_)
        | DataType::Duration(_)
        | DataType::Timestamp(_, _)
        | DataType::Interval(IntervalUnit::YearMonth)
        | DataType::Utf8
        | DataType::LargeUtf8
        | DataType::Binary
        | DataType::LargeBinary => true,
        DataType::List(item) => has_json_reading(&item.get().data_type),
        DataType::LargeList(item) => has_json_reading(&item.get().data_type),
        DataType::FixedSizeList(item, size) => sized_list_has_reading(item.get(), *size),
        DataType::Struct(fields) => struct_has_reading(fields.as_slice()),
        DataType::Dictionary(_, value, _) => is_value_type(value.get()),
        _ => false,
    }
}

/// Whether lists have items, and values are read under their type.
#[cycle(readable)]
fn sized_list_has_reading(item: &Field, size: usize) -> bool
    ensures { result ≡ sized_list_has_reading_of size item.now }
{
    size != 0 && has_json_reading(&item.data_type)
}

/// Whether there are fields, and values are read under the type of each.
#[cycle(readable)]
fn struct_has_reading(fields: &[Field]) -> bool
    ensures { result ≡ struct_has_reading_of fields.now }
{
    !fields.is_empty() && all_have_reading(fields)
}

/// Whether values are read under the type of each field.
#[cycle(readable)]
fn all_have_reading(fields: &[Field]) -> bool
    ensures { result ≡ all_have_reading_of fields.now }
{
    for field in fields {
        if !has_json_reading(&field.data_type) {
            return false;
        }
    }
    true
}
