//! Which types can be serialized.
ghost use Rattle.std.specs.Prelude.{◌≡◌};
ghost use Rattle.avro_types.specs.Schemas.{can_serialize as can_serialize_of};
ghost use Rattle.avro_types.specs.Listed.{can_serialize_all as can_serialize_all_of, can_serialize_struct as can_serialize_struct_of};

use crate::flat::timestamp;
use arrow_core::{DataType, Field, IntervalUnit, TimeUnit};

/// Whether columns of this type can be serialized to Avro under the schema that `to_record` gives
/// them: Boolean, Int32, Int64, Date32, Time32 in milliseconds, Time64 in microseconds, Timestamp in
/// milliseconds, microseconds or nanoseconds without a zone or in the zone `00:00`, Utf8, Binary and
/// their large forms, Decimal, FixedSizeBinary of at least a byte, Interval of months, days and
/// nanoseconds, List and LargeList of these, and Struct of at least one field, each of these.
/// Nullability plays no part. It takes no memory.
#[cycle(serializable)]
pub fn can_serialize(data_type: &DataType) -> bool
    ensures { result ≡ can_serialize_of data_type.now }
{
    match data_type {
        DataType::Boolean
        | DataType::Int32
        | DataType::Date32
        | DataType::Time32(TimeUnit::Millisecond)
        | DataType::Int64
        | DataType::Time64(TimeUnit::Microsecond)
        | DataType::Binary
        | DataType::LargeBinary
        | DataType::Decimal(_, _)
        | DataType::Utf8
        | DataType::LargeUtf8
        | DataType::Interval(IntervalUnit::MonthDayNano) => true,
        DataType::Timestamp(unit, zone) => timestamp(*unit, zone).is_some(),
        DataType::FixedSizeBinary(size) => *size > 0,
        DataType::List(item) => can_serialize(&item.get().data_type),
        DataType::LargeList(item) => can_serialize(&item.get().data_type),
        DataType::Struct(fields) => can_serialize_struct(fields.as_slice()),
        _ => false,
    }
}

/// Whether there are fields, and the type of each can be serialized.
#[cycle(serializable)]
fn can_serialize_struct(fields: &[Field]) -> bool
    ensures { result ≡ can_serialize_struct_of fields.now }
{
    !fields.is_empty() && can_serialize_all(fields)
}

/// Whether the type of each field can be serialized.
#[cycle(serializable)]
fn can_serialize_all(fields: &[Field]) -> bool
    ensures { result ≡ can_serialize_all_of fields.now }
{
    for field in fields {
        if !can_serialize(&field.data_type) {
            return false;
        }
    }
    true
}
