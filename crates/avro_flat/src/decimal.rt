//! Decimals (Avro 1.11, "Decimal").

ghost use Rattle.std.specs.Prelude.{◌≡◌, ◌≤◌, Some, None, length, drop, MatchOption, OnOk, OnSome};
ghost use Rattle.arrow_core.specs.declared.slot.Slot.TheVariants.{Integer as IntegerSlot};
ghost use Rattle.avro_schema.specs.Counts.{risen};
ghost use Rattle.avro_schema.specs.Encodes.{twos_complement};
ghost use Rattle.avro_reference.specs.Prefix.{bytes_at, sized_at};
ghost use Rattle.avro_reference.specs.Read.{push_one, decimal_at, items};
ghost use Rattle.arrow_flat.specs.Builders.{plain_node};
ghost use Rattle.arrow_flat.specs.Nodes.{HasSpare};
ghost use Rattle.avro_reference.specs.Costs.{passed, Moves, CostsKept};
ghost use Rattle.avro_flat.specs.Decoding.{Gives, HasMemory};
ghost use Rattle.avro_flat.specs.Growing.{Fills};

use crate::fault::{DecodeFault, pushed};
use arrow_flat::MutablePrimitiveArray;
use avro_reference::{ByteReader, read_length};
use std::convert::AsSlice;

/// The most bytes of a decimal, which are those of an `i128`.
const MAX_LEN: usize = 16;

/// Reads a decimal over bytes: a length from 0 to 16, and as many bytes, which are the digits
/// without their point (Avro 1.11, "Decimal"). `Bytes` where the length is another, or fewer bytes
/// follow; `Memory`.
#[inline(never)]
#[tactic(auto, using(crate::proofs::Sets::decimals))]
pub fn decode_decimal<C: ByteReader>(
    cursor: &mut C,
    values: &mut MutablePrimitiveArray<i128>,
) -> Result<(), DecodeFault>
    ensures data_type { values.new.data_type ≡ values.old.data_type }
    ensures grows { Fills (passed (C.rest cursor.old) (C.rest cursor.new)) (plain_node values.old)
        (plain_node values.new) }
    ensures has_capacity { HasSpare (length (C.rest cursor.old)) (plain_node values.old)
        → HasMemory result }
    ensures same { C.identity cursor.new ≡ C.identity cursor.old }
    ensures moves { Moves C.rest C.calls cursor.old cursor.new }
    ensures costs { OnOk result (CostsKept C.rest C.shown C.calls cursor.old cursor.new) }
    ensures reads { Gives (λ _. (values.new.slots, C.rest cursor.new)) result
        (push_one values.old.slots (decimal_at sized_at (C.rest cursor.old))) }
{
    let Some(length) = read_length(cursor) else {
        return Err(DecodeFault::Bytes);
    };
    let Some(value) = take_decimal(cursor, length) else {
        return Err(DecodeFault::Bytes);
    };
    pushed(values.push(Some(value)))
}

/// Reads `count` decimals over bytes, each into one more slot. `Bytes` where the bytes ahead don't
/// begin with so many of them, each of at most 16 bytes; `Memory`. After an error the decimals
/// before it may have their slots.
pub fn decode_decimals<C: ByteReader>(
    cursor: &mut C,
    count: u64,
    values: &mut MutablePrimitiveArray<i128>,
) -> Result<(), DecodeFault>
    ensures data_type { values.new.data_type ≡ values.old.data_type }
    ensures grows { Fills (passed (C.rest cursor.old) (C.rest cursor.new)) (plain_node values.old)
        (plain_node values.new) }
    ensures has_capacity { HasSpare (length (C.rest cursor.old)) (plain_node values.old)
        → HasMemory result }
    ensures same { C.identity cursor.new ≡ C.identity cursor.old }
    ensures moves { Moves C.rest C.calls cursor.old cursor.new }
    ensures costs { OnOk result (CostsKept C.rest C.shown C.calls cursor.old cursor.new) }
    ensures reads { Gives (λ _. (values.new.slots, C.rest cursor.new)) result
        (items (decimal_at sized_at) count values.old.slots (C.rest cursor.old)) }
{
    for _ in 0..count {
        decode_decimal(cursor, values)?;
    }
    Ok(())
}

/// Reads a decimal over a fixed type: as many bytes as the type has, which are the digits without
/// their point (Avro 1.11, "Decimal"). `Bytes` where the type has more than 16, or fewer bytes are
/// ahead; `Memory`. The type has a byte at least.
#[inline(never)]
#[tactic(auto, using(crate::proofs::Sets::decimals))]
pub fn decode_fixed_decimal<C: ByteReader>(
    cursor: &mut C,
    size: usize,
    values: &mut MutablePrimitiveArray<i128>,
) -> Result<(), DecodeFault>
    requires some { 1 ≤ size }
    ensures data_type { values.new.data_type ≡ values.old.data_type }
    ensures grows { Fills (passed (C.rest cursor.old) (C.rest cursor.new)) (plain_node values.old)
        (plain_node values.new) }
    ensures has_capacity { HasSpare (length (C.rest cursor.old)) (plain_node values.old)
        → HasMemory result }
    ensures same { C.identity cursor.new ≡ C.identity cursor.old }
    ensures moves { Moves C.rest C.calls cursor.old cursor.new }
    ensures costs { OnOk result (CostsKept C.rest C.shown C.calls cursor.old cursor.new) }
    ensures reads { Gives (λ _. (values.new.slots, C.rest cursor.new)) result
        (push_one values.old.slots (decimal_at (bytes_at size) (C.rest cursor.old))) }
{
    let Some(value) = take_decimal(cursor, size) else {
        return Err(DecodeFault::Bytes);
    };
    pushed(values.push(Some(value)))
}

/// Reads `count` decimals over a fixed type of `size` bytes, each into one more slot. `Bytes` where
/// fewer bytes are ahead than so many decimals have, or where there is one and the type has more
/// than 16; `Memory`. After an error the decimals before it may have their slots. The type has a
/// byte at least.
pub fn decode_fixed_decimals<C: ByteReader>(
    cursor: &mut C,
    size: usize,
    count: u64,
    values: &mut MutablePrimitiveArray<i128>,
) -> Result<(), DecodeFault>
    requires some { 1 ≤ size }
    ensures data_type { values.new.data_type ≡ values.old.data_type }
    ensures grows { Fills (passed (C.rest cursor.old) (C.rest cursor.new)) (plain_node values.old)
        (plain_node values.new) }
    ensures has_capacity { HasSpare (length (C.rest cursor.old)) (plain_node values.old)
        → HasMemory result }
    ensures same { C.identity cursor.new ≡ C.identity cursor.old }
    ensures moves { Moves C.rest C.calls cursor.old cursor.new }
    ensures costs { OnOk result (CostsKept C.rest C.shown C.calls cursor.old cursor.new) }
    ensures reads { Gives (λ _. (values.new.slots, C.rest cursor.new)) result
        (items (decimal_at (bytes_at size)) count values.old.slots (C.rest cursor.old)) }
{
    for _ in 0..count {
        decode_fixed_decimal(cursor, size, values)?;
    }
    Ok(())
}

/// Takes so many bytes for a decimal. None where fewer are ahead, or where more than 16 are asked
/// for.
#[tactic(auto, using(crate::proofs::Sets::decimal_bytes))]
fn take_decimal<C: ByteReader>(cursor: &mut C, size: usize) -> Option<i128>
    ensures same { C.identity cursor.new ≡ C.identity cursor.old }
    ensures moves { Moves C.rest C.calls cursor.old cursor.new }
    ensures taken { OnSome result ((size ≤ length (C.rest cursor.old))
        × (C.rest cursor.new ≡ drop size (C.rest cursor.old))) }
    ensures shown { OnSome result (C.shown cursor.new ≡ risen (C.shown cursor.old) size) }
    ensures calls { OnSome result (C.calls cursor.new ≡ risen (C.calls cursor.old) 1) }
    ensures reads { MatchOption result (decimal_at (bytes_at size) (C.rest cursor.old) ≡ None)
        (λ v. decimal_at (bytes_at size) (C.rest cursor.old)
        ≡ Some (IntegerSlot v, C.rest cursor.new)) }
{
    if size > MAX_LEN {
        return None;
    }
    let Some(bytes) = cursor.take(size) else {
        return None;
    };
    Some(decimal_of(bytes.as_slice()))
}

/// The integer that at most 16 bytes stand for, the high byte first and in two's complement; 0 for
/// no bytes (Avro 1.11, "Decimal").
pub fn decimal_of(bytes: &[u8]) -> i128
    requires short { length bytes.now ≤ 16 }
    ensures { result ≡ twos_complement bytes.now }
{
    let Some((first, rest)) = bytes.split_first() else {
        return 0;
    };
    let mut value = i128::from(first.cast_signed());
    for i in 0..rest.len() {
        value = 256 * value + i128::from(rest[i]);
    }
    value
}
