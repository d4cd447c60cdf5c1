//! A builder of nulls.

ghost use Rattle.std.specs.Prelude.{◌≡◌, ◌≤◌, ◌++◌, ◌∷◌, [], length, IsOk, IfOk, OnOk, OnErr};
ghost use Rattle.arrow_core.specs.Errors.{OnlyOutOfMemory};
ghost use Rattle.arrow_core.specs.declared.error.Error.TheVariants.{OutOfMemory};
ghost use Rattle.arrow_core.specs.declared.slot.Slot.TheVariants.{Null as NullSlot};
ghost use Rattle.arrow_core.specs.declared.types.DataType.TheVariants.{Null};
ghost use Rattle.arrow_flat.specs.Builders.{IsNewPlain, plain_node};
ghost use Rattle.arrow_flat.specs.Nodes.{KeepsCapacity, NoLessSpare, Emptied, HasSpare};

use crate::lengths::NodeLengths;
use arrow_array::NullArray;
use arrow_core::{DataType, Error, Result};
use std::alloc::Global;
use std::marker::Model;

/// A builder of nulls, which need no buffer (Arrow columnar format, "Null Layout").
///
/// It has spare capacity for as many slots as can be counted.
#[derive(Drop)]
pub struct MutableNullArray {
    alloc: Global,
    data_type: DataType,
    count: usize,
}

impl Model for MutableNullArray {
    ghost use Rattle.std.specs.Prelude.{◌≡◌, ◌-◌, None};
    ghost use Rattle.arrow_core.specs.declared.types.DataType.TheVariants.{Null};
    ghost use Rattle.arrow_array.specs.Slots.{slots_of, null_at};
    ghost use Rattle.arrow_flat.specs.Builders.{PlainBuilder, plain_builder_code};

    ghost Value = { PlainBuilder };

    ghost coded = { plain_builder_code };

    ghost view = { λ b. record {
      data_type = b.data_type;
      slots = slots_of null_at None 0 b.count;
      spare = 18446744073709551615 - b.count;
    } };

    ghost invariant = { λ b. b.data_type ≡ Null };
}

#[tactic(auto, using(crate::proofs::Slots::counts))]
impl MutableNullArray {
    /// An empty builder. It takes no memory.
    pub fn new(alloc: Global) -> MutableNullArray
        ensures { IsNewPlain Null result }
    {
        MutableNullArray {
            alloc,
            data_type: DataType::Null,
            count: 0,
        }
    }

    /// How many slots there are. Each is null.
    pub fn len(&self) -> usize
        ensures { result ≡ length self.now.slots }
    {
        self.count
    }

    /// The data type, Null.
    pub fn data_type(&self) -> &DataType
        ensures same { result.now ≡ self.now.data_type }
        ensures kind { self.now.data_type ≡ Null }
    {
        &self.data_type
    }

    /// How many slots the builder holds, as its one node; content bytes it holds none.
    pub fn lengths(&self) -> NodeLengths
        ensures slots { result.slots ≡ length self.now.slots }
        ensures bytes { result.bytes ≡ 0 }
    {
        NodeLengths {
            slots: self.count,
            bytes: 0,
        }
    }

    /// Appends a null. `OutOfMemory` changes nothing; it comes only where the slots can't be
    /// counted.
    pub fn push_null(&mut self) -> Result<()>
        ensures data_type { self.new.data_type ≡ self.old.data_type }
        ensures ok { OnOk result (self.new.slots ≡ self.old.slots ++ NullSlot ∷ []) }
        ensures err { OnErr result (self.new ≡ self.old) }
        ensures memory { OnlyOutOfMemory result }
        ensures capacity { KeepsCapacity (plain_node self.old) (plain_node self.new) }
        ensures has_capacity { 1 ≤ self.old.spare → IsOk result }
    {
        let Some(count) = self.count.checked_add(1) else {
            return Err(Error::OutOfMemory);
        };
        self.count = count;
        Ok(())
    }

    /// Whether there is spare capacity for so many more slots; `OutOfMemory` where there isn't.
    pub fn reserve_for(&mut self, additional: usize) -> Result<()>
        ensures data_type { self.new.data_type ≡ self.old.data_type }
        ensures slots { self.new.slots ≡ self.old.slots }
        ensures memory { OnlyOutOfMemory result }
        ensures capacity { NoLessSpare (plain_node self.old) (plain_node self.new) }
        ensures ok { OnOk result (HasSpare additional (plain_node self.new)) }
    {
        if additional > usize::MAX - self.count {
            return Err(Error::OutOfMemory);
        }
        Ok(())
    }

    /// Drops every slot.
    pub fn clear(&mut self)
        ensures data_type { self.new.data_type ≡ self.old.data_type }
        ensures slots { self.new.slots ≡ [] }
        ensures capacity { Emptied (plain_node self.old) (plain_node self.new) }
    {
        self.count = 0;
    }

    /// The array of the slots. The builder is then empty.
    pub fn as_box(&mut self) -> Result<NullArray>
        ensures data_type { self.new.data_type ≡ self.old.data_type }
        ensures array_type { IfOk result (λ a. a.data_type ≡ self.old.data_type) }
        ensures array_slots { IfOk result (λ a. a.slots ≡ self.old.slots) }
        ensures emptied { OnOk result (self.new.slots ≡ []) }
        ensures memory { OnlyOutOfMemory result }
    {
        let data_type = self.data_type.try_clone(self.alloc)?;
        let array = NullArray::try_new(self.alloc, data_type, self.count)?;
        self.count = 0;
        Ok(array)
    }
}
