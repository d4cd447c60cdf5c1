//! Booleans and numbers (Avro 1.11, "Primitive Types": boolean, int and long).

ghost use Rattle.std.specs.Prelude.{◌≡◌, ◌<◌, ◌≤◌, length, Some, None, MatchOption, OnSome, IfOk, IfErr, OnOk};
ghost use Rattle.arrow_core.specs.declared.slot.Slot.TheVariants.{Boolean as BooleanSlot, Integer as IntegerSlot};
ghost use Rattle.avro_reference.specs.Read.{push_one, boolean_at, int_at, long_at, items};
ghost use Rattle.arrow_flat.specs.Builders.{plain_node};
ghost use Rattle.arrow_flat.specs.Nodes.{HasSpare};
ghost use Rattle.avro_reference.specs.Costs.{passed, Moves, CostsKept, CostsNumber};
ghost use Rattle.avro_flat.specs.Decoding.{Gives, HasMemory};
ghost use Rattle.avro_flat.specs.Growing.{Fills};

use crate::fault::{DecodeFault, pushed};
use arrow_flat::{MutableBooleanArray, MutablePrimitiveArray};
use avro_reference::ByteReader;

/// `count` as a number of slots. Each value has a byte or more, so it is `Bytes` where fewer bytes
/// are ahead: no capacity is made for a count that the bytes don't back.
#[inline(always)]
fn slots_for<C: ByteReader>(cursor: &C, count: u64) -> Result<usize, DecodeFault>
    ensures ok { IfOk result (λ n. (n ≡ count) × (n ≤ length (C.rest cursor.now))) }
    ensures err { IfErr result (λ e. (e ≡ DecodeFault.Bytes)
        × (length (C.rest cursor.now) < count)) }
{
    if count > cursor.left() as u64 {
        return Err(DecodeFault::Bytes);
    }
    Ok(count as usize)
}

/// The boolean at the start of the bytes ahead, a byte 0 or 1, which is passed. None for any other
/// byte, or for none; how far the cursor moved is then not told.
#[inline(always)]
#[tactic(auto, using(crate::proofs::Sets::next_values))]
fn next_boolean<C: ByteReader>(cursor: &mut C) -> Option<bool>
    ensures same { C.identity cursor.new ≡ C.identity cursor.old }
    ensures moves { Moves C.rest C.calls cursor.old cursor.new }
    ensures shorter { OnSome result (length (C.rest cursor.new) < length (C.rest cursor.old)) }
    ensures costs { OnSome result (CostsKept C.rest C.shown C.calls cursor.old cursor.new) }
    ensures reads { MatchOption result (boolean_at (C.rest cursor.old) ≡ None)
        (λ b. boolean_at (C.rest cursor.old) ≡ Some (BooleanSlot b, C.rest cursor.new)) }
{
    let byte = cursor.byte()?;
    if byte > 1 {
        return None;
    }
    Some(byte == 1)
}

/// The number of 32 bits at the start of the bytes ahead, which is passed. None where no prefix of
/// them is a number, or where the number has more bits; how far the cursor moved is then not told.
#[inline(always)]
#[tactic(auto, using(crate::proofs::Sets::next_values))]
fn next_int<C: ByteReader>(cursor: &mut C) -> Option<i32>
    ensures same { C.identity cursor.new ≡ C.identity cursor.old }
    ensures moves { Moves C.rest C.calls cursor.old cursor.new }
    ensures costs { OnSome result (CostsNumber C.rest C.shown C.calls cursor.old cursor.new) }
    ensures reads { MatchOption result (int_at (C.rest cursor.old) ≡ None)
        (λ v. int_at (C.rest cursor.old) ≡ Some (IntegerSlot v, C.rest cursor.new)) }
{
    let number = cursor.number()?;
    i32::try_from(number).ok()
}

/// Reads a boolean, a byte 0 or 1, into one more slot. `Bytes` for any other byte, or for none;
/// `Memory`.
#[inline(always)]
#[tactic(auto, using(crate::proofs::Sets::flats))]
pub fn decode_boolean<C: ByteReader>(
    cursor: &mut C,
    values: &mut MutableBooleanArray,
) -> Result<(), DecodeFault>
    ensures data_type { values.new.data_type ≡ values.old.data_type }
    ensures grows { Fills (passed (C.rest cursor.old) (C.rest cursor.new)) (plain_node values.old)
        (plain_node values.new) }
    ensures has_capacity { HasSpare (length (C.rest cursor.old)) (plain_node values.old)
        → HasMemory result }
    ensures same { C.identity cursor.new ≡ C.identity cursor.old }
    ensures moves { Moves C.rest C.calls cursor.old cursor.new }
    ensures costs { OnOk result (CostsKept C.rest C.shown C.calls cursor.old cursor.new) }
    ensures reads { Gives (λ _. (values.new.slots, C.rest cursor.new)) result
        (push_one values.old.slots (boolean_at (C.rest cursor.old))) }
{
    match next_boolean(cursor) {
        Some(boolean) => pushed(values.push(Some(boolean))),
        None => Err(DecodeFault::Bytes),
    }
}

/// Reads `count` booleans, each into one more slot. `Bytes` where the bytes ahead don't begin with
/// so many booleans; `Memory`. After `Bytes` the booleans before the fault may have their slots.
pub fn decode_booleans<C: ByteReader>(
    cursor: &mut C,
    count: u64,
    values: &mut MutableBooleanArray,
) -> Result<(), DecodeFault>
    ensures data_type { values.new.data_type ≡ values.old.data_type }
    ensures grows { Fills (passed (C.rest cursor.old) (C.rest cursor.new)) (plain_node values.old)
        (plain_node values.new) }
    ensures has_capacity { HasSpare (length (C.rest cursor.old)) (plain_node values.old)
        → HasMemory result }
    ensures same { C.identity cursor.new ≡ C.identity cursor.old }
    ensures moves { Moves C.rest C.calls cursor.old cursor.new }
    ensures costs { OnOk result (CostsKept C.rest C.shown C.calls cursor.old cursor.new) }
    ensures reads { Gives (λ _. (values.new.slots, C.rest cursor.new)) result
        (items boolean_at count values.old.slots (C.rest cursor.old)) }
{
    let slots = slots_for(cursor, count)?;
    pushed(values.reserve_for(slots))?;
    for _ in 0..slots {
        let Some(boolean) = next_boolean(cursor) else {
            return Err(DecodeFault::Bytes);
        };
        values.push_reserved(boolean);
    }
    Ok(())
}

/// Reads a number of 32 bits into one more slot. `Bytes` where no prefix of the bytes is a number,
/// or it has more bits; `Memory`.
#[inline(always)]
#[tactic(auto, using(crate::proofs::Sets::flats))]
pub fn decode_int<C: ByteReader>(
    cursor: &mut C,
    values: &mut MutablePrimitiveArray<i32>,
) -> Result<(), DecodeFault>
    ensures data_type { values.new.data_type ≡ values.old.data_type }
    ensures grows { Fills (passed (C.rest cursor.old) (C.rest cursor.new)) (plain_node values.old)
        (plain_node values.new) }
    ensures has_capacity { HasSpare (length (C.rest cursor.old)) (plain_node values.old)
        → HasMemory result }
    ensures same { C.identity cursor.new ≡ C.identity cursor.old }
    ensures moves { Moves C.rest C.calls cursor.old cursor.new }
    ensures costs { OnOk result (CostsKept C.rest C.shown C.calls cursor.old cursor.new) }
    ensures reads { Gives (λ _. (values.new.slots, C.rest cursor.new)) result
        (push_one values.old.slots (int_at (C.rest cursor.old))) }
{
    match next_int(cursor) {
        Some(number) => pushed(values.push(Some(number))),
        None => Err(DecodeFault::Bytes),
    }
}

/// Reads `count` numbers of 32 bits, each into one more slot. `Bytes` where the bytes ahead don't
/// begin with so many of them; `Memory`. After `Bytes` the numbers before the fault may have their
/// slots.
pub fn decode_ints<C: ByteReader>(
    cursor: &mut C,
    count: u64,
    values: &mut MutablePrimitiveArray<i32>,
) -> Result<(), DecodeFault>
    ensures data_type { values.new.data_type ≡ values.old.data_type }
    ensures grows { Fills (passed (C.rest cursor.old) (C.rest cursor.new)) (plain_node values.old)
        (plain_node values.new) }
    ensures has_capacity { HasSpare (length (C.rest cursor.old)) (plain_node values.old)
        → HasMemory result }
    ensures same { C.identity cursor.new ≡ C.identity cursor.old }
    ensures moves { Moves C.rest C.calls cursor.old cursor.new }
    ensures costs { OnOk result (CostsKept C.rest C.shown C.calls cursor.old cursor.new) }
    ensures reads { Gives (λ _. (values.new.slots, C.rest cursor.new)) result
        (items int_at count values.old.slots (C.rest cursor.old)) }
{
    let slots = slots_for(cursor, count)?;
    pushed(values.reserve_for(slots))?;
    for _ in 0..slots {
        let Some(number) = next_int(cursor) else {
            return Err(DecodeFault::Bytes);
        };
        values.push_reserved(number);
    }
    Ok(())
}

/// Reads a number of 64 bits into one more slot. `Bytes` where no prefix of the bytes is a number;
/// `Memory`.
#[inline(always)]
#[tactic(auto, using(crate::proofs::Sets::flats))]
pub fn decode_long<C: ByteReader>(
    cursor: &mut C,
    values: &mut MutablePrimitiveArray<i64>,
) -> Result<(), DecodeFault>
    ensures data_type { values.new.data_type ≡ values.old.data_type }
    ensures grows { Fills (passed (C.rest cursor.old) (C.rest cursor.new)) (plain_node values.old)
        (plain_node values.new) }
    ensures has_capacity { HasSpare (length (C.rest cursor.old)) (plain_node values.old)
        → HasMemory result }
    ensures same { C.identity cursor.new ≡ C.identity cursor.old }
    ensures moves { Moves C.rest C.calls cursor.old cursor.new }
    ensures costs { OnOk result (CostsKept C.rest C.shown C.calls cursor.old cursor.new) }
    ensures reads { Gives (λ _. (values.new.slots, C.rest cursor.new)) result
        (push_one values.old.slots (long_at (C.rest cursor.old))) }
{
    match cursor.number() {
        Some(number) => pushed(values.push(Some(number))),
        None => Err(DecodeFault::Bytes),
    }
}

/// Reads `count` numbers of 64 bits, each into one more slot. `Bytes` where the bytes ahead don't
/// begin with so many of them; `Memory`. After `Bytes` the numbers before the fault may have their
/// slots.
pub fn decode_longs<C: ByteReader>(
    cursor: &mut C,
    count: u64,
    values: &mut MutablePrimitiveArray<i64>,
) -> Result<(), DecodeFault>
    ensures data_type { values.new.data_type ≡ values.old.data_type }
    ensures grows { Fills (passed (C.rest cursor.old) (C.rest cursor.new)) (plain_node values.old)
        (plain_node values.new) }
    ensures has_capacity { HasSpare (length (C.rest cursor.old)) (plain_node values.old)
        → HasMemory result }
    ensures same { C.identity cursor.new ≡ C.identity cursor.old }
    ensures moves { Moves C.rest C.calls cursor.old cursor.new }
    ensures costs { OnOk result (CostsKept C.rest C.shown C.calls cursor.old cursor.new) }
    ensures reads { Gives (λ _. (values.new.slots, C.rest cursor.new)) result
        (items long_at count values.old.slots (C.rest cursor.old)) }
{
    let slots = slots_for(cursor, count)?;
    pushed(values.reserve_for(slots))?;
    for _ in 0..slots {
        let Some(number) = cursor.number() else {
            return Err(DecodeFault::Bytes);
        };
        values.push_reserved(number);
    }
    Ok(())
}
