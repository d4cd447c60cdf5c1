//! Durations (Avro 1.11, "Duration").
ghost use Rattle.std.specs.Prelude.{◌≡◌, ◌++◌, OnOk};
ghost use Rattle.avro_encode.specs.Plain.{four_bytes, milliseconds as milliseconds_of};
ghost use Rattle.avro_schema.specs.Encodes.{IsInt};

use crate::numbers::append_bytes;
use std::alloc::AllocError;

/// The milliseconds of an interval that has whole ones.
fn milliseconds(nanoseconds: i64) -> i32
    requires { IsInt (milliseconds_of nanoseconds) }
    ensures { result ≡ milliseconds_of nanoseconds }
{
    (nanoseconds / 1_000_000) as i32
}

/// Appends a number of 32 bits, the low byte first. `AllocError` alone.
fn append_four(value: i32, out: &mut Vec<u8>) -> Result<(), AllocError>
    ensures ok { OnOk result (out.new.items ≡ out.old.items ++ four_bytes value) }
{
    append_bytes(&value.to_le_bytes(), out)
}

/// Appends an interval as months, days and milliseconds. `AllocError` alone.
pub(crate) fn append_duration(
    months: i32,
    days: i32,
    nanoseconds: i64,
    out: &mut Vec<u8>,
) -> Result<(), AllocError>
    requires { IsInt (milliseconds_of nanoseconds) }
    ensures ok { OnOk result (out.new.items
        ≡ out.old.items ++ (four_bytes months
        ++ (four_bytes days ++ four_bytes (milliseconds_of nanoseconds)))) }
{
    append_four(months, out)?;
    append_four(days, out)?;
    append_four(milliseconds(nanoseconds), out)
}
