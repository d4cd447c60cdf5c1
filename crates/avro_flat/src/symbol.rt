//! Symbols (Avro 1.11, "Enums").

ghost use Rattle.std.specs.Prelude.{◌≡◌, ◌≤◌, ℕ, pos, false, true, length, map, MatchOption, OnOk};
ghost use Rattle.arrow_core.specs.declared.slot.Slot.TheVariants.{String as StringSlot};
ghost use Rattle.avro_reference.specs.Prefix.{is_index};
ghost use Rattle.avro_reference.specs.Read.{push_one, symbol_of, items};
ghost use Rattle.arrow_flat.specs.Dictionaries.{dictionary_node};
ghost use Rattle.arrow_flat.specs.Nodes.{HasSpare};
ghost use Rattle.avro_reference.specs.Costs.{passed, Moves, CostsKept};
ghost use Rattle.avro_flat.specs.Decoding.{Gives, HasMemory};
ghost use Rattle.avro_flat.specs.Growing.{Fills};

use crate::fault::{DecodeFault, pushed};
use arrow_core::Text;
use arrow_flat::FixedItemsUtf8Dictionary;
use avro_reference::ByteReader;

/// Reads a symbol of an enum, which is encoded as its index among the symbols, from 0 (Avro 1.11,
/// "Enums"). The builder's values are these symbols in order, 2147483647 at most. `Bytes` where the
/// number is no such index; `Memory`.
#[inline(never)]
#[tactic(auto, using(crate::proofs::Sets::symbols))]
pub fn decode_symbol<C: ByteReader>(
    cursor: &mut C,
    symbols: &[Text],
    values: &mut FixedItemsUtf8Dictionary,
) -> Result<(), DecodeFault>
    requires few { length symbols.now ≤ 2147483647 }
    requires items { values.old.items ≡ map StringSlot symbols.now }
    ensures data_type { values.new.data_type ≡ values.old.data_type }
    ensures items { values.new.items ≡ values.old.items }
    ensures grows { Fills (passed (C.rest cursor.old) (C.rest cursor.new))
        (dictionary_node values.old) (dictionary_node values.new) }
    ensures has_capacity { HasSpare (length (C.rest cursor.old)) (dictionary_node values.old)
        → HasMemory result }
    ensures same { C.identity cursor.new ≡ C.identity cursor.old }
    ensures moves { Moves C.rest C.calls cursor.old cursor.new }
    ensures costs { OnOk result (CostsKept C.rest C.shown C.calls cursor.old cursor.new) }
    ensures reads { Gives (λ _. (values.new.slots, C.rest cursor.new)) result
        (push_one values.old.slots (symbol_of symbols.now (C.rest cursor.old))) }
{
    let Some(number) = cursor.number() else {
        return Err(DecodeFault::Bytes);
    };
    let Some(key) = key_among(number, symbols.len()) else {
        return Err(DecodeFault::Bytes);
    };
    pushed(values.push_valid(key))
}

/// Reads `count` symbols of an enum, each into one more slot. The builder's values are these
/// symbols in order, 2147483647 at most. `Bytes` where the bytes ahead don't begin with so many
/// numbers, each an index among the symbols; `Memory`. After an error the symbols before it may
/// have their slots.
pub fn decode_symbols<C: ByteReader>(
    cursor: &mut C,
    symbols: &[Text],
    count: u64,
    values: &mut FixedItemsUtf8Dictionary,
) -> Result<(), DecodeFault>
    requires few { length symbols.now ≤ 2147483647 }
    requires items { values.old.items ≡ map StringSlot symbols.now }
    ensures data_type { values.new.data_type ≡ values.old.data_type }
    ensures items { values.new.items ≡ values.old.items }
    ensures grows { Fills (passed (C.rest cursor.old) (C.rest cursor.new))
        (dictionary_node values.old) (dictionary_node values.new) }
    ensures has_capacity { HasSpare (length (C.rest cursor.old)) (dictionary_node values.old)
        → HasMemory result }
    ensures same { C.identity cursor.new ≡ C.identity cursor.old }
    ensures moves { Moves C.rest C.calls cursor.old cursor.new }
    ensures costs { OnOk result (CostsKept C.rest C.shown C.calls cursor.old cursor.new) }
    ensures reads { Gives (λ _. (values.new.slots, C.rest cursor.new)) result
        (items (symbol_of symbols.now) count values.old.slots (C.rest cursor.old)) }
{
    for _ in 0..count {
        decode_symbol(cursor, symbols, values)?;
    }
    Ok(())
}

/// The key for this number, if it is an index below `len`.
#[inline(always)]
fn key_among(number: i64, len: usize) -> Option<i32>
    requires few { len ≤ 2147483647 }
    ensures index { MatchOption result (is_index number len ≡ false)
        (λ key. (key ≡ number) × (is_index number len ≡ true)) }
{
    if number < 0 || number >= len as i64 {
        return None;
    }
    Some(number as i32)
}
