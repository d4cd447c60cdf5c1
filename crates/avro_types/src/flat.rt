//! The schemas of types that have no types in them.
ghost use Rattle.std.specs.Prelude.{◌≡◌, [], Some, None, IfOk, IfErr};
ghost use Rattle.arrow_core.specs.Errors.{OnlyOutOfMemory};
ghost use Rattle.avro_types.specs.Listed.{HasNoFields};
ghost use Rattle.avro_types.specs.Schemas.{NoAvroTypeWhere, flat_schema as flat_schema_of, instants as instants_of, nameless_fixed as nameless_fixed_of, readings as readings_of, timestamp as timestamp_of};

use arrow_core::{DataType, Error, IntervalUnit, Reason, Result, Text, TimeUnit};
use avro_schema::{AvroSchema, BytesLogical, Fixed, FixedLogical, IntLogical, LongLogical};
use std::alloc::Global;

fn instants(unit: TimeUnit) -> Option<LongLogical>
    ensures { result ≡ instants_of unit }
{
    match unit {
        TimeUnit::Second => None,
        TimeUnit::Millisecond => Some(LongLogical::TimestampMillis),
        TimeUnit::Microsecond => Some(LongLogical::TimestampMicros),
        TimeUnit::Nanosecond => Some(LongLogical::TimestampNanos),
    }
}

fn readings(unit: TimeUnit) -> Option<LongLogical>
    ensures { result ≡ readings_of unit }
{
    match unit {
        TimeUnit::Second => None,
        TimeUnit::Millisecond => Some(LongLogical::LocalTimestampMillis),
        TimeUnit::Microsecond => Some(LongLogical::LocalTimestampMicros),
        TimeUnit::Nanosecond => Some(LongLogical::LocalTimestampNanos),
    }
}

/// The logical type of timestamps: of instants, where the zone is that of UTC, or of a local
/// clock's readings, where there is none.
pub(crate) fn timestamp(unit: TimeUnit, zone: &Option<Text>) -> Option<LongLogical>
    ensures { result ≡ timestamp_of unit zone.now }
{
    match zone {
        None => readings(unit),
        Some(zone) if zone.as_str() == "00:00" => instants(unit),
        Some(_) => None,
    }
}

/// A fixed type without a name.
fn nameless_fixed(alloc: Global, size: usize, logical: Option<FixedLogical>) -> Result<AvroSchema>
    ensures schema { IfOk result (λ s. s ≡ nameless_fixed_of size logical) }
    ensures memory { OnlyOutOfMemory result }
{
    Ok(AvroSchema::Fixed(Fixed {
        name: Text::try_from_str(alloc, "")?,
        namespace: None,
        doc: None,
        size,
        logical,
    }))
}

/// The schema of a type without types in it.
pub(crate) fn flat_schema(alloc: Global, data_type: &DataType) -> Result<AvroSchema>
    requires flat { HasNoFields data_type.now }
    ensures schema { IfOk result (λ s. flat_schema_of data_type.now ≡ Some s) }
    ensures err { IfErr result (NoAvroTypeWhere (flat_schema_of data_type.now ≡ None)) }
{
    match data_type {
        DataType::Null => Ok(AvroSchema::Null),
        DataType::Boolean => Ok(AvroSchema::Boolean),
        DataType::Int32 => Ok(AvroSchema::Int(None)),
        DataType::Date32 => Ok(AvroSchema::Int(Some(IntLogical::Date))),
        DataType::Time32(TimeUnit::Millisecond) => Ok(AvroSchema::Int(Some(IntLogical::Time))),
        DataType::Int64 => Ok(AvroSchema::Long(None)),
        DataType::Time64(TimeUnit::Microsecond) => Ok(AvroSchema::Long(Some(LongLogical::Time))),
        DataType::Timestamp(unit, zone) => match timestamp(*unit, zone) {
            Some(logical) => Ok(AvroSchema::Long(Some(logical))),
            None => Err(Error::NotYetImplemented(Reason::NoAvroType)),
        },
        DataType::Float32 => Ok(AvroSchema::Float),
        DataType::Float64 => Ok(AvroSchema::Double),
        DataType::Binary => Ok(AvroSchema::Bytes(None)),
        DataType::LargeBinary => Ok(AvroSchema::Bytes(None)),
        DataType::Decimal(precision, scale) => {
            let decimal = BytesLogical::Decimal(*precision, *scale);
            Ok(AvroSchema::Bytes(Some(decimal)))
        }
        DataType::Utf8 => Ok(AvroSchema::String(None)),
        DataType::LargeUtf8 => Ok(AvroSchema::String(None)),
        DataType::FixedSizeBinary(size) => nameless_fixed(alloc, *size, None),
        DataType::Interval(IntervalUnit::MonthDayNano) => {
            nameless_fixed(alloc, 12, Some(FixedLogical::Duration))
        }
        _ => Err(Error::NotYetImplemented(Reason::NoAvroType)),
    }
}
