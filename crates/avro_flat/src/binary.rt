//! Binary values.

ghost use Rattle.std.specs.Prelude.{◌≡◌, ◌≤◌, ◌++◌, ◌∷◌, [], length, IfErr, OnOk};
ghost use Rattle.arrow_core.specs.declared.slot.Slot.TheVariants.{Binary as BinarySlot};
ghost use Rattle.avro_reference.specs.Read.{push_one, binary_at, items};
ghost use Rattle.arrow_flat.specs.Builders.{content_node};
ghost use Rattle.arrow_flat.specs.Nodes.{Takes, HasSpare};
ghost use Rattle.avro_reference.specs.Costs.{passed, Moves, CostsKept};
ghost use Rattle.avro_flat.specs.Decoding.{Gives, HasMemory};
ghost use Rattle.avro_flat.specs.Growing.{OffsetsReach, Fills};

use crate::fault::{DecodeFault, pushed};
use arrow_core::Offset;
use arrow_flat::MutableBinaryArray;
use avro_reference::{ByteReader, read_length};
use std::convert::AsSlice;

/// Reads a binary value: a length of 0 or more, and as many bytes (Avro 1.11, "Primitive Types").
/// `Bytes` where the length is below 0, or fewer bytes follow; `Memory`. The builder's offsets can
/// count what it holds and all bytes ahead.
#[inline(never)]
#[tactic(auto, using(crate::proofs::Sets::binaries))]
pub fn decode_binary<C: ByteReader, O: Offset>(
    cursor: &mut C,
    values: &mut MutableBinaryArray<O>,
) -> Result<(), DecodeFault>
    requires offsets { OffsetsReach O.IS_LARGE (length (C.rest cursor.old))
        (content_node values.old) }
    ensures data_type { values.new.data_type ≡ values.old.data_type }
    ensures grows { Fills (passed (C.rest cursor.old) (C.rest cursor.new)) (content_node values.old)
        (content_node values.new) }
    ensures has_capacity { HasSpare (length (C.rest cursor.old)) (content_node values.old)
        → HasMemory result }
    ensures same { C.identity cursor.new ≡ C.identity cursor.old }
    ensures moves { Moves C.rest C.calls cursor.old cursor.new }
    ensures costs { OnOk result (CostsKept C.rest C.shown C.calls cursor.old cursor.new) }
    ensures reads { Gives (λ _. (values.new.slots, C.rest cursor.new)) result
        (push_one values.old.slots (binary_at (C.rest cursor.old))) }
{
    let Some(length) = read_length(cursor) else {
        return Err(DecodeFault::Bytes);
    };
    let Some(bytes) = cursor.take(length) else {
        return Err(DecodeFault::Bytes);
    };
    push_binary(values, bytes.as_slice())
}

/// Reads `count` binary values, each into one more slot. `Bytes` where the bytes ahead don't begin
/// with so many of them; `Memory`. After an error the values before it may have their slots. The
/// builder's offsets can count what it holds and all bytes ahead.
pub fn decode_binaries<C: ByteReader, O: Offset>(
    cursor: &mut C,
    count: u64,
    values: &mut MutableBinaryArray<O>,
) -> Result<(), DecodeFault>
    requires offsets { OffsetsReach O.IS_LARGE (length (C.rest cursor.old))
        (content_node values.old) }
    ensures data_type { values.new.data_type ≡ values.old.data_type }
    ensures grows { Fills (passed (C.rest cursor.old) (C.rest cursor.new)) (content_node values.old)
        (content_node values.new) }
    ensures has_capacity { HasSpare (length (C.rest cursor.old)) (content_node values.old)
        → HasMemory result }
    ensures same { C.identity cursor.new ≡ C.identity cursor.old }
    ensures moves { Moves C.rest C.calls cursor.old cursor.new }
    ensures costs { OnOk result (CostsKept C.rest C.shown C.calls cursor.old cursor.new) }
    ensures reads { Gives (λ _. (values.new.slots, C.rest cursor.new)) result
        (items binary_at count values.old.slots (C.rest cursor.old)) }
{
    for _ in 0..count {
        decode_binary(cursor, values)?;
    }
    Ok(())
}

#[inline(always)]
#[tactic(auto, using(crate::proofs::Sets::fixed_pushes))]
fn push_binary<O: Offset>(
    values: &mut MutableBinaryArray<O>,
    bytes: &[u8],
) -> Result<(), DecodeFault>
    requires offsets { OffsetsReach O.IS_LARGE (length bytes.now) (content_node values.old) }
    ensures data_type { values.new.data_type ≡ values.old.data_type }
    ensures grows { Takes 1 (length bytes.now) (content_node values.old) (content_node values.new) }
    ensures has_capacity { 1 ≤ values.old.spare → length bytes.now ≤ values.old.byte_spare
        → HasMemory result }
    ensures ok { OnOk result (values.new.slots ≡ values.old.slots ++ BinarySlot bytes.now ∷ []) }
    ensures err { IfErr result (λ e. e ≡ DecodeFault.Memory) }
{
    pushed(values.push(Some(bytes)))
}
