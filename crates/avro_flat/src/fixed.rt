//! Fixed types without a logical type.

ghost use Rattle.std.specs.Prelude.{◌≡◌, ◌≤◌, ◌++◌, ◌∷◌, [], None, length, IfErr, OnOk};
ghost use Rattle.arrow_core.specs.declared.slot.Slot.TheVariants.{Binary as BinarySlot};
ghost use Rattle.arrow_array.specs.Parts.{byte_width};
ghost use Rattle.avro_reference.specs.Read.{push_one, fixed_at, items};
ghost use Rattle.arrow_flat.specs.Builders.{content_node};
ghost use Rattle.arrow_flat.specs.Nodes.{Takes, HasSpare};
ghost use Rattle.avro_reference.specs.Costs.{passed, Moves, CostsKept};
ghost use Rattle.avro_flat.specs.Decoding.{Gives, HasMemory};
ghost use Rattle.avro_flat.specs.Growing.{Fills};

use crate::fault::{DecodeFault, pushed};
use arrow_flat::MutableFixedSizeBinaryArray;
use avro_reference::ByteReader;
use std::convert::AsSlice;

/// Reads as many bytes as the type has into one more slot (Avro 1.11, "Fixed"). `Bytes` where fewer
/// are ahead; `Memory`. The type has a byte at least, and the builder is of its width.
#[inline(never)]
#[tactic(auto, using(crate::proofs::Sets::fixed_values))]
pub fn decode_fixed<C: ByteReader>(
    cursor: &mut C,
    size: usize,
    values: &mut MutableFixedSizeBinaryArray,
) -> Result<(), DecodeFault>
    requires some { 1 ≤ size }
    requires width { byte_width values.old.data_type ≡ size }
    ensures data_type { values.new.data_type ≡ values.old.data_type }
    ensures grows { Fills (passed (C.rest cursor.old) (C.rest cursor.new)) (content_node values.old)
        (content_node values.new) }
    ensures has_capacity { HasSpare (length (C.rest cursor.old)) (content_node values.old)
        → HasMemory result }
    ensures same { C.identity cursor.new ≡ C.identity cursor.old }
    ensures moves { Moves C.rest C.calls cursor.old cursor.new }
    ensures costs { OnOk result (CostsKept C.rest C.shown C.calls cursor.old cursor.new) }
    ensures reads { Gives (λ _. (values.new.slots, C.rest cursor.new)) result
        (push_one values.old.slots (fixed_at size None (C.rest cursor.old))) }
{
    let Some(bytes) = cursor.take(size) else {
        return Err(DecodeFault::Bytes);
    };
    push_fixed(values, bytes.as_slice())
}

/// Reads `count` values of a fixed type of `size` bytes, each into one more slot. `Bytes` where
/// fewer bytes are ahead than so many values have; `Memory`. After an error the values before it
/// may have their slots. The type has a byte at least, and the builder is of its width.
pub fn decode_fixed_values<C: ByteReader>(
    cursor: &mut C,
    size: usize,
    count: u64,
    values: &mut MutableFixedSizeBinaryArray,
) -> Result<(), DecodeFault>
    requires some { 1 ≤ size }
    requires width { byte_width values.old.data_type ≡ size }
    ensures data_type { values.new.data_type ≡ values.old.data_type }
    ensures grows { Fills (passed (C.rest cursor.old) (C.rest cursor.new)) (content_node values.old)
        (content_node values.new) }
    ensures has_capacity { HasSpare (length (C.rest cursor.old)) (content_node values.old)
        → HasMemory result }
    ensures same { C.identity cursor.new ≡ C.identity cursor.old }
    ensures moves { Moves C.rest C.calls cursor.old cursor.new }
    ensures costs { OnOk result (CostsKept C.rest C.shown C.calls cursor.old cursor.new) }
    ensures reads { Gives (λ _. (values.new.slots, C.rest cursor.new)) result
        (items (fixed_at size None) count values.old.slots (C.rest cursor.old)) }
{
    for _ in 0..count {
        decode_fixed(cursor, size, values)?;
    }
    Ok(())
}

#[tactic(auto, using(crate::proofs::Sets::fixed_pushes))]
fn push_fixed(values: &mut MutableFixedSizeBinaryArray, bytes: &[u8]) -> Result<(), DecodeFault>
    requires width { length bytes.now ≡ byte_width values.old.data_type }
    ensures data_type { values.new.data_type ≡ values.old.data_type }
    ensures grows { Takes 1 (length bytes.now) (content_node values.old) (content_node values.new) }
    ensures has_capacity { 1 ≤ values.old.spare → length bytes.now ≤ values.old.byte_spare
        → HasMemory result }
    ensures ok { OnOk result (values.new.slots ≡ values.old.slots ++ BinarySlot bytes.now ∷ []) }
    ensures err { IfErr result (λ e. e ≡ DecodeFault.Memory) }
{
    pushed(values.push(Some(bytes)))
}
