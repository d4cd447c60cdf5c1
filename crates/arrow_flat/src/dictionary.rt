//! A builder of strings by their keys among given ones.

ghost use Rattle.std.specs.Prelude.{◌≡◌, ◌≤◌, ◌++◌, ◌∷◌, [], length, IsOk, IfOk, OnOk, OnErr};
ghost use Rattle.arrow_core.specs.Errors.{OnlyOutOfMemory};
ghost use Rattle.arrow_core.specs.declared.error.Error.TheVariants.{OutOfMemory};
ghost use Rattle.arrow_core.specs.declared.slot.Slot.TheVariants.{Null as NullSlot, Integer as IntegerSlot};
ghost use Rattle.arrow_array.specs.Dictionaries.{IsKeyInto, looked_up};
ghost use Rattle.arrow_flat.specs.Dictionaries.{IsNewDictionary, dictionary_node, utf8_dictionary_type};
ghost use Rattle.arrow_flat.specs.Nodes.{KeepsCapacity, NoLessSpare, Emptied, HasSpare};

use crate::container::Container;
use crate::lengths::NodeLengths;
use crate::primitive::MutablePrimitiveArray;
use arrow_array::{Array, DictionaryArray, Keys, Utf8Array};
use arrow_core::{Box, DataType, IntegerType, Result};
use std::alloc::Global;
use std::marker::Model;

/// A builder of strings, each kept as its index among strings that are given once
/// (Arrow columnar format, "Dictionary-encoded Layout").
#[derive(Drop)]
pub struct FixedItemsUtf8Dictionary {
    alloc: Global,
    data_type: DataType,
    keys: MutablePrimitiveArray<i32>,
    values: Utf8Array<i32>,
}

impl Model for FixedItemsUtf8Dictionary {
    ghost use Rattle.std.specs.Prelude.{◌≡◌, ◌<◌, ℕ, length, map};
    ghost use Rattle.arrow_core.specs.declared.types.DataType.TheVariants.{Int32 as Int32Type};
    ghost use Rattle.arrow_array.specs.Dictionaries.{IsKeyInto, looked_up};
    ghost use Rattle.arrow_array.specs.Slots.{slot_at};
    ghost use Rattle.arrow_flat.specs.Dictionaries.{DictionaryBuilder, dictionary_builder_code, utf8_dictionary_type};

    ghost Value = { DictionaryBuilder };

    ghost coded = { dictionary_builder_code };

    ghost view = { λ b. record {
      data_type = b.data_type;
      slots = map (looked_up b.values.slots) b.keys.slots;
      spare = b.keys.spare;
      items = b.values.slots;
    } };

    ghost invariant = { λ b. (b.data_type ≡ utf8_dictionary_type)
        × (b.keys.data_type ≡ Int32Type)
        × ((i : ℕ) → i < length b.keys.slots
        → IsKeyInto (length b.values.slots) (slot_at b.keys.slots i)) };
}

// The type of dictionaries with keys of 32 bits over Utf8.
fn utf8_dictionary_type(alloc: Global) -> Result<DataType>
    ensures ok { IfOk result (λ t. t ≡ utf8_dictionary_type) }
    ensures memory { OnlyOutOfMemory result }
{
    let values = Box::new(alloc, DataType::Utf8)?;
    Ok(DataType::Dictionary(IntegerType::Int32, values, false))
}

impl FixedItemsUtf8Dictionary {
    /// An empty builder over these strings. Of the capacity nothing is promised.
    pub fn with_capacity(
        alloc: Global,
        values: Utf8Array<i32>,
        capacity: usize,
    ) -> Result<FixedItemsUtf8Dictionary>
        ensures ok { IfOk result (IsNewDictionary values.slots) }
        ensures err { OnlyOutOfMemory result }
    {
        let data_type = utf8_dictionary_type(alloc)?;
        let keys = MutablePrimitiveArray::with_capacity(alloc, capacity)?;
        Ok(FixedItemsUtf8Dictionary {
            alloc,
            data_type,
            keys,
            values,
        })
    }

    /// How many slots there are, nulls among them.
    pub fn len(&self) -> usize
        ensures { result ≡ length self.now.slots }
    {
        self.keys.len()
    }

    /// The data type: a dictionary of keys of 32 bits over Utf8.
    pub fn data_type(&self) -> &DataType
        ensures same { result.now ≡ self.now.data_type }
        ensures kind { self.now.data_type ≡ utf8_dictionary_type }
    {
        &self.data_type
    }

    /// How many strings there are to choose from: a key is an index among them.
    pub fn values_len(&self) -> usize
        ensures { result ≡ length self.now.items }
    {
        self.values.len()
    }

    /// How many slots the builder holds, as its one node; content bytes it holds none.
    pub fn lengths(&self) -> NodeLengths
        ensures slots { result.slots ≡ length self.now.slots }
        ensures bytes { result.bytes ≡ 0 }
    {
        self.keys.lengths()
    }

    /// Appends the string at this index among the values. `OutOfMemory` changes nothing.
    #[inline]
    pub fn push_valid(&mut self, key: i32) -> Result<()>
        requires { IsKeyInto (length self.old.items) (IntegerSlot key) }
        ensures data_type { self.new.data_type ≡ self.old.data_type }
        ensures items { self.new.items ≡ self.old.items }
        ensures ok { OnOk result (self.new.slots
            ≡ self.old.slots ++ looked_up self.old.items (IntegerSlot key) ∷ []) }
        ensures err { OnErr result (self.new ≡ self.old) }
        ensures memory { OnlyOutOfMemory result }
        ensures capacity { KeepsCapacity (dictionary_node self.old) (dictionary_node self.new) }
        ensures has_capacity { 1 ≤ self.old.spare → IsOk result }
    {
        self.keys.push(Some(key))
    }

    /// Appends a null. `OutOfMemory` changes nothing.
    pub fn push_null(&mut self) -> Result<()>
        ensures data_type { self.new.data_type ≡ self.old.data_type }
        ensures items { self.new.items ≡ self.old.items }
        ensures ok { OnOk result (self.new.slots ≡ self.old.slots ++ NullSlot ∷ []) }
        ensures err { OnErr result (self.new ≡ self.old) }
        ensures memory { OnlyOutOfMemory result }
        ensures capacity { KeepsCapacity (dictionary_node self.old) (dictionary_node self.new) }
        ensures has_capacity { 1 ≤ self.old.spare → IsOk result }
    {
        self.keys.push_null()
    }

    /// Makes spare capacity for so many more slots. `OutOfMemory` leaves the slots as they are.
    pub fn reserve_for(&mut self, additional: usize) -> Result<()>
        ensures data_type { self.new.data_type ≡ self.old.data_type }
        ensures items { self.new.items ≡ self.old.items }
        ensures slots { self.new.slots ≡ self.old.slots }
        ensures memory { OnlyOutOfMemory result }
        ensures capacity { NoLessSpare (dictionary_node self.old) (dictionary_node self.new) }
        ensures ok { OnOk result (HasSpare additional (dictionary_node self.new)) }
    {
        self.keys.reserve_for(additional)
    }

    /// Drops every slot and keeps the capacity and the values.
    pub fn clear(&mut self)
        ensures data_type { self.new.data_type ≡ self.old.data_type }
        ensures items { self.new.items ≡ self.old.items }
        ensures slots { self.new.slots ≡ [] }
        ensures capacity { Emptied (dictionary_node self.old) (dictionary_node self.new) }
    {
        self.keys.clear();
    }

    /// The array of the slots, over the builder's keys and values. The builder is then empty, and
    /// keeps the values, which the array shares.
    ///
    /// After `OutOfMemory` the builder may have lost its slots.
    pub fn as_box(&mut self) -> Result<DictionaryArray>
        ensures data_type { self.new.data_type ≡ self.old.data_type }
        ensures items { self.new.items ≡ self.old.items }
        ensures array_type { IfOk result (λ a. a.data_type ≡ self.old.data_type) }
        ensures array_slots { IfOk result (λ a. a.slots ≡ self.old.slots) }
        ensures array_items { IfOk result (λ a. a.items ≡ self.old.items) }
        ensures emptied { OnOk result (self.new.slots ≡ []) }
        ensures memory { OnlyOutOfMemory result }
    {
        let data_type = self.data_type.try_clone(self.alloc)?;
        let values = self.values.slice(self.alloc, 0, self.values.len())?;
        let keys = self.keys.as_box()?;
        DictionaryArray::from_parts(
            self.alloc,
            data_type,
            Keys::Int32(keys),
            Array::Utf8(values),
        )
    }
}
