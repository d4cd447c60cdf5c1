//! Whether a column has the type of a schema without others in it (Avro 1.11, "Primitive Types" and
//! "Logical Types"; Arrow columnar format, "Logical types").

ghost use Rattle.std.specs.Prelude.{◌≡◌, ◌↔◌, true, IsTrue};
ghost use Rattle.avro_schema.specs.Types.{int_type, long_type, utc, fixed_type, symbol_type, IsString, IsBinary, HasBytesType, HasType};
ghost use Rattle.avro_types.specs.Inference.{HasNoParts};
ghost use Rattle.avro_types.specs.Columns.{zone_of};

use crate::schema::UTC;
use arrow_core::{DataType, IntegerType, IntervalUnit, TimeUnit};
use avro_schema::{AvroSchema, BytesLogical, Fixed, FixedLogical, IntLogical, LongLogical};

/// Whether a column has the type of a schema without others in it, in its small or large form.
pub fn has_flat_type(schema: &AvroSchema, data_type: &DataType) -> bool
    requires flat { HasNoParts schema.now }
    ensures { IsTrue result ↔ HasType true schema.now data_type.now }
{
    match schema {
        AvroSchema::Null => matches!(data_type, DataType::Null),
        AvroSchema::Boolean => matches!(data_type, DataType::Boolean),
        AvroSchema::Int(logical) => has_int_type(data_type, *logical),
        AvroSchema::Long(logical) => has_long_type(data_type, *logical),
        AvroSchema::Float => matches!(data_type, DataType::Float32),
        AvroSchema::Double => matches!(data_type, DataType::Float64),
        AvroSchema::Bytes(logical) => has_bytes_type(data_type, *logical),
        AvroSchema::String(_) => has_string_type(data_type),
        AvroSchema::Enum(_) => has_symbol_type(data_type),
        AvroSchema::Fixed(fixed) => has_fixed_type(data_type, fixed),
        _ => unreachable!(),
    }
}

fn has_int_type(data_type: &DataType, logical: Option<IntLogical>) -> bool
    ensures { IsTrue result ↔ (data_type.now ≡ int_type logical) }
{
    match logical {
        None => matches!(data_type, DataType::Int32),
        Some(IntLogical::Date) => matches!(data_type, DataType::Date32),
        Some(IntLogical::Time) => matches!(data_type, DataType::Time32(TimeUnit::Millisecond)),
    }
}

fn has_long_type(data_type: &DataType, logical: Option<LongLogical>) -> bool
    ensures { IsTrue result ↔ (data_type.now ≡ long_type logical) }
{
    match logical {
        None => matches!(data_type, DataType::Int64),
        Some(LongLogical::Time) => matches!(data_type, DataType::Time64(TimeUnit::Microsecond)),
        Some(LongLogical::TimestampMillis) => is_timestamp(data_type, TimeUnit::Millisecond, true),
        Some(LongLogical::TimestampMicros) => is_timestamp(data_type, TimeUnit::Microsecond, true),
        Some(LongLogical::TimestampNanos) => is_timestamp(data_type, TimeUnit::Nanosecond, true),
        Some(LongLogical::LocalTimestampMillis) => {
            is_timestamp(data_type, TimeUnit::Millisecond, false)
        }
        Some(LongLogical::LocalTimestampMicros) => {
            is_timestamp(data_type, TimeUnit::Microsecond, false)
        }
        Some(LongLogical::LocalTimestampNanos) => {
            is_timestamp(data_type, TimeUnit::Nanosecond, false)
        }
    }
}

/// Whether a type is of timestamps of this unit, in UTC or in no zone.
fn is_timestamp(data_type: &DataType, unit: TimeUnit, in_utc: bool) -> bool
    ensures { IsTrue result ↔ (data_type.now ≡ DataType.Timestamp unit (zone_of in_utc)) }
{
    match data_type {
        DataType::Timestamp(its_unit, None) => !in_utc && *its_unit == unit,
        DataType::Timestamp(its_unit, Some(zone)) => {
            in_utc && *its_unit == unit && zone.as_str() == UTC
        }
        _ => false,
    }
}

fn has_bytes_type(data_type: &DataType, logical: Option<BytesLogical>) -> bool
    ensures { IsTrue result ↔ HasBytesType true logical data_type.now }
{
    match logical {
        None => matches!(data_type, DataType::Binary | DataType::LargeBinary),
        Some(BytesLogical::Decimal(precision, scale)) => is_decimal(data_type, precision, scale),
    }
}

fn has_string_type(data_type: &DataType) -> bool
    ensures { IsTrue result ↔ IsString true data_type.now }
{
    matches!(data_type, DataType::Utf8 | DataType::LargeUtf8)
}

/// Whether a type is of an enum's symbols: a dictionary of strings with keys of 32 bits.
fn has_symbol_type(data_type: &DataType) -> bool
    ensures { IsTrue result ↔ (data_type.now ≡ symbol_type) }
{
    match data_type {
        DataType::Dictionary(IntegerType::Int32, values, false) => {
            matches!(values.get(), DataType::Utf8)
        }
        _ => false,
    }
}

fn has_fixed_type(data_type: &DataType, fixed: &Fixed) -> bool
    ensures { IsTrue result ↔ (data_type.now ≡ fixed_type fixed.now.size fixed.now.logical) }
{
    match fixed.logical {
        None => matches!(data_type, DataType::FixedSizeBinary(size) if *size == fixed.size),
        Some(FixedLogical::Decimal(precision, scale)) => is_decimal(data_type, precision, scale),
        Some(FixedLogical::Duration) => {
            matches!(data_type, DataType::Interval(IntervalUnit::MonthDayNano))
        }
    }
}

fn is_decimal(data_type: &DataType, precision: usize, scale: usize) -> bool
    ensures { IsTrue result ↔ (data_type.now ≡ DataType.Decimal precision scale) }
{
    match data_type {
        DataType::Decimal(its_precision, its_scale) => {
            *its_precision == precision && *its_scale == scale
        }
        _ => false,
    }
}
