//! Durations (Avro 1.11, "Duration").

ghost use Rattle.std.specs.Prelude.{◌≡◌, ◌+◌, ◌≤◌, pos, ◌*ℤ◌, Some, length, take, drop, OnOk};
ghost use Rattle.avro_schema.specs.declared.schema.FixedLogical.TheVariants.{Duration as DurationLogical};
ghost use Rattle.avro_schema.specs.Encodes.{signed_32};
ghost use Rattle.avro_reference.specs.Read.{push_one, fixed_at, items};
ghost use Rattle.arrow_flat.specs.Builders.{plain_node};
ghost use Rattle.arrow_flat.specs.Nodes.{HasSpare};
ghost use Rattle.avro_reference.specs.Costs.{passed, Moves, CostsKept};
ghost use Rattle.avro_flat.specs.Decoding.{Gives, HasMemory};
ghost use Rattle.avro_flat.specs.Growing.{Fills};

use crate::fault::{DecodeFault, pushed};
use arrow_core::MonthsDaysNs;
use arrow_flat::MutablePrimitiveArray;
use avro_reference::ByteReader;
use std::convert::AsSlice;

/// The bytes of a duration: three numbers of four bytes.
const LEN: usize = 12;

/// The nanoseconds of a millisecond.
const NANOS: i64 = 1_000_000;

/// Reads a duration: months, days and milliseconds, which become nanoseconds (Avro 1.11,
/// "Duration"). Each is read with a sign, as the slots have one. `Bytes` where fewer than 12 bytes
/// are ahead; `Memory`.
#[inline(never)]
#[tactic(auto, using(crate::proofs::Sets::durations))]
pub fn decode_duration<C: ByteReader>(
    cursor: &mut C,
    values: &mut MutablePrimitiveArray<MonthsDaysNs>,
) -> Result<(), DecodeFault>
    ensures data_type { values.new.data_type ≡ values.old.data_type }
    ensures grows { Fills (passed (C.rest cursor.old) (C.rest cursor.new)) (plain_node values.old)
        (plain_node values.new) }
    ensures has_capacity { HasSpare (length (C.rest cursor.old)) (plain_node values.old)
        → HasMemory result }
    ensures same { C.identity cursor.new ≡ C.identity cursor.old }
    ensures moves { Moves C.rest C.calls cursor.old cursor.new }
    ensures costs { OnOk result (CostsKept C.rest C.shown C.calls cursor.old cursor.new) }
    ensures reads { Gives (λ _. (values.new.slots, C.rest cursor.new)) result
        (push_one values.old.slots (fixed_at 12 (Some DurationLogical) (C.rest cursor.old))) }
{
    let Some(bytes) = cursor.take(LEN) else {
        return Err(DecodeFault::Bytes);
    };
    pushed(values.push(Some(interval_of(bytes.as_slice()))))
}

/// Reads `count` durations, each into one more slot. `Bytes` where fewer bytes are ahead than so
/// many durations have; `Memory`. After an error the durations before it may have their slots.
pub fn decode_durations<C: ByteReader>(
    cursor: &mut C,
    count: u64,
    values: &mut MutablePrimitiveArray<MonthsDaysNs>,
) -> Result<(), DecodeFault>
    ensures data_type { values.new.data_type ≡ values.old.data_type }
    ensures grows { Fills (passed (C.rest cursor.old) (C.rest cursor.new)) (plain_node values.old)
        (plain_node values.new) }
    ensures has_capacity { HasSpare (length (C.rest cursor.old)) (plain_node values.old)
        → HasMemory result }
    ensures same { C.identity cursor.new ≡ C.identity cursor.old }
    ensures moves { Moves C.rest C.calls cursor.old cursor.new }
    ensures costs { OnOk result (CostsKept C.rest C.shown C.calls cursor.old cursor.new) }
    ensures reads { Gives (λ _. (values.new.slots, C.rest cursor.new)) result
        (items (fixed_at 12 (Some DurationLogical)) count values.old.slots (C.rest cursor.old)) }
{
    for _ in 0..count {
        decode_duration(cursor, values)?;
    }
    Ok(())
}

/// The interval that 12 bytes stand for: months, days and milliseconds (Avro 1.11, "Duration").
fn interval_of(bytes: &[u8]) -> MonthsDaysNs
    requires len { length bytes.now ≡ 12 }
    ensures months { result.months ≡ signed_32 (take 4 bytes.now) }
    ensures days { result.days ≡ signed_32 (take 4 (drop 4 bytes.now)) }
    ensures ns { result.ns ≡ signed_32 (take 4 (drop 8 bytes.now)) *ℤ pos 1000000 }
{
    MonthsDaysNs {
        months: int_at(bytes, 0),
        days: int_at(bytes, 4),
        ns: i64::from(int_at(bytes, 8)) * NANOS,
    }
}

/// The number in the four bytes from this index on, the low byte first and in two's complement.
#[inline(always)]
fn int_at(bytes: &[u8], start: usize) -> i32
    requires within { start + 4 ≤ length bytes.now }
    ensures { result ≡ signed_32 (take 4 (drop start bytes.now)) }
{
    i32::from_le_bytes([
        bytes[start],
        bytes[start + 1],
        bytes[start + 2],
        bytes[start + 3],
    ])
}
