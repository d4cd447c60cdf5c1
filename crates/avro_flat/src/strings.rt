//! Strings.

ghost use Rattle.std.specs.Prelude.{◌≡◌, ◌≤◌, ◌++◌, ◌∷◌, [], length, MatchResult, OnOk};
ghost use Rattle.std.specs.Str.{IsUtf8};
ghost use Rattle.arrow_core.specs.declared.slot.Slot.TheVariants.{String as StringSlot};
ghost use Rattle.avro_reference.specs.Read.{push_one, string_at, items};
ghost use Rattle.arrow_flat.specs.Builders.{content_node};
ghost use Rattle.arrow_flat.specs.Nodes.{Takes, HasSpare};
ghost use Rattle.avro_reference.specs.Costs.{passed, Moves, CostsKept};
ghost use Rattle.avro_flat.specs.Decoding.{Gives, IsStringFault, HasMemory};
ghost use Rattle.avro_flat.specs.Growing.{OffsetsReach, Fills};

use crate::fault::{DecodeFault, pushed};
use arrow_core::{Offset, is_utf8};
use arrow_flat::MutableUtf8Array;
use avro_reference::{ByteReader, read_length};
use std::convert::AsSlice;

/// Reads a string: a length of 0 or more, and as many bytes, which have to be UTF-8 (Avro 1.11,
/// "Primitive Types"). `Bytes` where the length is below 0, fewer bytes follow, or they aren't
/// UTF-8; `Memory`. The builder's offsets can count what it holds and all bytes ahead.
// Inlined into the loop over rows it would make the other fields slower.
#[inline(never)]
#[tactic(auto, using(crate::proofs::Sets::strings))]
pub fn decode_string<C: ByteReader, O: Offset>(
    cursor: &mut C,
    values: &mut MutableUtf8Array<O>,
) -> Result<(), DecodeFault>
    requires offsets { OffsetsReach O.IS_LARGE (length (C.rest cursor.old))
        (content_node values.old) }
    ensures data_type { values.new.data_type ≡ values.old.data_type }
    ensures grows { Fills (passed (C.rest cursor.old) (C.rest cursor.new)) (content_node values.old)
        (content_node values.new) }
    ensures has_capacity { HasSpare (length (C.rest cursor.old)) (content_node values.old)
        → HasMemory result }
    ensures same { C.identity cursor.new ≡ C.identity cursor.old }
    ensures moves { Moves C.rest C.calls cursor.old cursor.new }
    ensures costs { OnOk result (CostsKept C.rest C.shown C.calls cursor.old cursor.new) }
    ensures reads { Gives (λ _. (values.new.slots, C.rest cursor.new)) result
        (push_one values.old.slots (string_at (C.rest cursor.old))) }
{
    let Some(length) = read_length(cursor) else {
        return Err(DecodeFault::Bytes);
    };
    let Some(bytes) = cursor.take(length) else {
        return Err(DecodeFault::Bytes);
    };
    push_string(values, bytes.as_slice())
}

/// Reads `count` strings, each into one more slot. `Bytes` where the bytes ahead don't begin with
/// so many strings; `Memory`. After an error the strings before it may have their slots. The
/// builder's offsets can count what it holds and all bytes ahead.
pub fn decode_strings<C: ByteReader, O: Offset>(
    cursor: &mut C,
    count: u64,
    values: &mut MutableUtf8Array<O>,
) -> Result<(), DecodeFault>
    requires offsets { OffsetsReach O.IS_LARGE (length (C.rest cursor.old))
        (content_node values.old) }
    ensures data_type { values.new.data_type ≡ values.old.data_type }
    ensures grows { Fills (passed (C.rest cursor.old) (C.rest cursor.new)) (content_node values.old)
        (content_node values.new) }
    ensures has_capacity { HasSpare (length (C.rest cursor.old)) (content_node values.old)
        → HasMemory result }
    ensures same { C.identity cursor.new ≡ C.identity cursor.old }
    ensures moves { Moves C.rest C.calls cursor.old cursor.new }
    ensures costs { OnOk result (CostsKept C.rest C.shown C.calls cursor.old cursor.new) }
    ensures reads { Gives (λ _. (values.new.slots, C.rest cursor.new)) result
        (items string_at count values.old.slots (C.rest cursor.old)) }
{
    for _ in 0..count {
        decode_string(cursor, values)?;
    }
    Ok(())
}

/// Pushes a string, which has to be UTF-8.
#[inline(always)]
#[tactic(auto, using(crate::proofs::Pushes::takes_none))]
fn push_string<O: Offset>(values: &mut MutableUtf8Array<O>, bytes: &[u8]) -> Result<(), DecodeFault>
    requires offsets { OffsetsReach O.IS_LARGE (length bytes.now) (content_node values.old) }
    ensures data_type { values.new.data_type ≡ values.old.data_type }
    ensures grows { Takes 1 (length bytes.now) (content_node values.old) (content_node values.new) }
    ensures has_capacity { 1 ≤ values.old.spare → length bytes.now ≤ values.old.byte_spare
        → HasMemory result }
    ensures string { MatchResult result
        (λ _. IsUtf8 bytes.now × (values.new.slots ≡ values.old.slots ++ StringSlot bytes.now ∷ []))
        (λ e. IsStringFault e bytes.now) }
{
    if !is_utf8(bytes) {
        return Err(DecodeFault::Bytes);
    }
    let string = unsafe { std::str::from_utf8_unchecked(bytes) };
    pushed(values.push(Some(string)))
}
