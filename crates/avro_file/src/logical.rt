//! Logical types. One that doesn't belong to its type, or lacks what it needs, is ignored.
ghost use Rattle.std.specs.Prelude.{◌≡◌, codes};
ghost use Rattle.avro_file.specs.Attributes.{attribute};
ghost use Rattle.avro_file.specs.Types as spec;

use crate::attributes::{count_at, count_of, string_at};
use avro_schema::{BytesLogical, FixedLogical, IntLogical, LongLogical, StringLogical};
use json_tree::Object;

/// How many bytes a duration has.
const DURATION_SIZE: usize = 12;

fn logical_name<'a>(object: &'a Object) -> &'a str
    ensures { result.now ≡ spec.logical_name object.now }
{
    match string_at(object, "logicalType") {
        Some(name) => name,
        None => "",
    }
}

/// What an `int` stands for.
pub(crate) fn int_logical(object: &Object) -> Option<IntLogical>
    ensures { result ≡ spec.int_logical object.now }
{
    match logical_name(object) {
        "date" => Some(IntLogical::Date),
        "time-millis" => Some(IntLogical::Time),
        _ => None,
    }
}

/// What a `long` stands for.
pub(crate) fn long_logical(object: &Object) -> Option<LongLogical>
    ensures { result ≡ spec.long_logical object.now }
{
    match logical_name(object) {
        "time-micros" => Some(LongLogical::Time),
        "timestamp-millis" => Some(LongLogical::TimestampMillis),
        "timestamp-micros" => Some(LongLogical::TimestampMicros),
        "timestamp-nanos" => Some(LongLogical::TimestampNanos),
        "local-timestamp-millis" => Some(LongLogical::LocalTimestampMillis),
        "local-timestamp-micros" => Some(LongLogical::LocalTimestampMicros),
        "local-timestamp-nanos" => Some(LongLogical::LocalTimestampNanos),
        _ => None,
    }
}

/// What a `string` stands for.
pub(crate) fn string_logical(object: &Object) -> Option<StringLogical>
    ensures { result ≡ spec.string_logical object.now }
{
    match logical_name(object) {
        "uuid" => Some(StringLogical::Uuid),
        _ => None,
    }
}

/// What a `bytes` stands for.
pub(crate) fn bytes_logical(object: &Object) -> Option<BytesLogical>
    ensures { result ≡ spec.bytes_logical object.now }
{
    match logical_name(object) {
        "decimal" => match decimal_of(object) {
            Some((precision, scale)) => Some(BytesLogical::Decimal(precision, scale)),
            None => None,
        },
        _ => None,
    }
}

/// What a `fixed` of so many bytes stands for.
pub(crate) fn fixed_logical(size: usize, object: &Object) -> Option<FixedLogical>
    ensures { result ≡ spec.fixed_logical size object.now }
{
    match logical_name(object) {
        "decimal" => match decimal_of(object) {
            Some((precision, scale)) => Some(FixedLogical::Decimal(precision, scale)),
            None => None,
        },
        "duration" => duration_of(size),
        _ => None,
    }
}

/// A duration, where the size is its own.
fn duration_of(size: usize) -> Option<FixedLogical>
    ensures { result ≡ spec.duration_of size }
{
    if size == DURATION_SIZE {
        Some(FixedLogical::Duration)
    } else {
        None
    }
}

/// The precision and the scale, where they are those of a decimal.
fn decimal_of(object: &Object) -> Option<(usize, usize)>
    ensures { result ≡ spec.decimal_of object.now }
{
    let precision = count_at(object, "precision")?;
    let scale = scale_at(object)?;
    if precision == 0 || scale > precision {
        return None;
    }
    Some((precision, scale))
}

/// The scale, which is 0 where it isn't given.
fn scale_at(object: &Object) -> Option<usize>
    ensures { result ≡ spec.scale_of (attribute (codes "scale") object.now) }
{
    match object.get("scale") {
        Some(value) => count_of(value),
        None => Some(0),
    }
}
