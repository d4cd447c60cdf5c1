//! Types of one word.

ghost use Rattle.std.specs.Prelude.{◌≡◌, Err, IfOk};
ghost use Rattle.avro_schema.specs.declared.schema.Schema.{Schema};
ghost use Rattle.cli_words.specs.declared.fault.WordsFault.TheVariants.{Usage};
ghost use Rattle.cli_words.specs.Types.{IsPlain};

use crate::fault::WordsFault;
use crate::sized::new_fixed;
use avro_schema::{AvroSchema, FixedLogical, IntLogical, LongLogical, StringLogical};
use std::alloc::Global;

/// How many bytes a duration has (Avro 1.11, "Duration").
pub(crate) const DURATION_SIZE: usize = 12;

/// The type that a primitive type's name or a logical type's names, such as `int` or
/// `timestamp-micros`. `Usage` for any other word; `Memory` of `duration` alone.
pub fn read_plain(alloc: Global, word: &str) -> Result<AvroSchema, WordsFault>
    ensures schema { IfOk result (IsPlain word.now) }
    ensures usage { result ≡ Err Usage → (schema : Schema) → IsPlain word.now schema → ⊥ }
{
    match word {
        "null" => Ok(AvroSchema::Null),
        "boolean" => Ok(AvroSchema::Boolean),
        "int" => Ok(AvroSchema::Int(None)),
        "date" => Ok(AvroSchema::Int(Some(IntLogical::Date))),
        "time-millis" => Ok(AvroSchema::Int(Some(IntLogical::Time))),
        "long" => Ok(AvroSchema::Long(None)),
        "time-micros" => Ok(AvroSchema::Long(Some(LongLogical::Time))),
        "timestamp-millis" => Ok(AvroSchema::Long(Some(LongLogical::TimestampMillis))),
        "timestamp-micros" => Ok(AvroSchema::Long(Some(LongLogical::TimestampMicros))),
        "timestamp-nanos" => Ok(AvroSchema::Long(Some(LongLogical::TimestampNanos))),
        "local-timestamp-millis" => Ok(AvroSchema::Long(Some(LongLogical::LocalTimestampMillis))),
        "local-timestamp-micros" => Ok(AvroSchema::Long(Some(LongLogical::LocalTimestampMicros))),
        "local-timestamp-nanos" => Ok(AvroSchema::Long(Some(LongLogical::LocalTimestampNanos))),
        "float" => Ok(AvroSchema::Float),
        "double" => Ok(AvroSchema::Double),
        "bytes" => Ok(AvroSchema::Bytes(None)),
        "string" => Ok(AvroSchema::String(None)),
        "uuid" => Ok(AvroSchema::String(Some(StringLogical::Uuid))),
        "duration" => new_fixed(alloc, DURATION_SIZE, Some(FixedLogical::Duration)),
        _ => Err(WordsFault::Usage),
    }
}
