//! A builder of booleans.

ghost use Rattle.std.specs.Prelude.{◌≡◌, ◌+◌, ◌≤◌, ◌++◌, ◌∷◌, [], length, if◌then◌else◌, IsOk, IfOk, OnOk, OnErr};
ghost use Rattle.arrow_core.specs.Errors.{OnlyOutOfMemory};
ghost use Rattle.arrow_core.specs.declared.error.Error.TheVariants.{OutOfMemory};
ghost use Rattle.arrow_core.specs.declared.slot.Slot.TheVariants.{Null as NullSlot, Boolean as BooleanSlot};
ghost use Rattle.arrow_core.specs.declared.types.DataType.TheVariants.{Boolean};
ghost use Rattle.arrow_flat.specs.Bits.{Tells};
ghost use Rattle.arrow_flat.specs.Builders.{plain_node, optional_slot};
ghost use Rattle.arrow_flat.specs.Nodes.{KeepsCapacity, NoLessSpare, Emptied, HasSpare};

use crate::bitmap::MutableBitmap;
use crate::container::Container;
use crate::lengths::NodeLengths;
use crate::validity::MutableValidity;
use arrow_array::{Bitmap, BooleanArray};
use arrow_core::{DataType, Result};
use std::alloc::Global;
use std::marker::Model;
use std::mem;

/// A builder of booleans, packed in a bitmap beside a validity bitmap
/// (Arrow columnar format, "Fixed-size Primitive Layout").
#[derive(Drop)]
pub struct MutableBooleanArray {
    alloc: Global,
    data_type: DataType,
    values: MutableBitmap,
    validity: MutableValidity,
}

impl Model for MutableBooleanArray {
    ghost use Rattle.std.specs.Prelude.{◌≡◌, length, min};
    ghost use Rattle.arrow_flat.specs.Builders.{PlainBuilder, plain_builder_code, slots_where};

    ghost Value = { PlainBuilder };

    ghost coded = { plain_builder_code };

    ghost use Rattle.arrow_core.specs.declared.types.DataType.TheVariants.{Boolean};
    ghost use Rattle.arrow_array.specs.Slots.{boolean_at};

    ghost view = { λ b. record {
      data_type = b.data_type;
      slots = slots_where b.validity.items (boolean_at b.values.items);
      spare = min b.values.spare b.validity.spare;
    } };

    ghost invariant = { λ b. (length b.values.items ≡ length b.validity.items)
        × (b.data_type ≡ Boolean) };
}

impl Container for MutableBooleanArray {
    ghost use Rattle.arrow_core.specs.declared.types.DataType.TheVariants.{Boolean};
    ghost use Rattle.arrow_flat.specs.Builders.{IsNewPlain};

    ghost is_new = { IsNewPlain Boolean };

    fn with_capacity(alloc: Global, capacity: usize) -> Result<MutableBooleanArray> {
        let mut values = MutableBitmap::new(alloc);
        values.reserve(capacity)?;
        let mut validity = MutableValidity::new(alloc);
        validity.reserve(capacity)?;
        Ok(MutableBooleanArray {
            alloc,
            data_type: DataType::Boolean,
            values,
            validity,
        })
    }
}

#[tactic(auto, using(crate::proofs::Slots::counts))]
impl MutableBooleanArray {
    /// How many slots there are, nulls among them.
    pub fn len(&self) -> usize
        ensures { result ≡ length self.now.slots }
    {
        self.values.len()
    }

    /// The data type, Boolean.
    pub fn data_type(&self) -> &DataType
        ensures same { result.now ≡ self.now.data_type }
        ensures kind { self.now.data_type ≡ Boolean }
    {
        &self.data_type
    }

    /// How many slots the builder holds, as its one node; content bytes it holds none.
    pub fn lengths(&self) -> NodeLengths
        ensures slots { result.slots ≡ length self.now.slots }
        ensures bytes { result.bytes ≡ 0 }
    {
        NodeLengths {
            slots: self.values.len(),
            bytes: 0,
        }
    }

    /// Appends a slot, null for `None`. `OutOfMemory` changes nothing.
    #[inline(always)]
    pub fn push(&mut self, value: Option<bool>) -> Result<()>
        ensures data_type { self.new.data_type ≡ self.old.data_type }
        ensures ok { OnOk result
            (self.new.slots ≡ self.old.slots ++ optional_slot BooleanSlot value ∷ []) }
        ensures err { OnErr result (self.new ≡ self.old) }
        ensures memory { OnlyOutOfMemory result }
        ensures capacity { KeepsCapacity (plain_node self.old) (plain_node self.new) }
        ensures has_capacity { 1 ≤ self.old.spare → IsOk result }
    {
        match value {
            None => self.push_slot(false, false),
            Some(boolean) => self.push_slot(boolean, true),
        }
    }

    /// Appends a boolean, for which there is spare capacity: no memory is asked for.
    #[inline(always)]
    pub fn push_reserved(&mut self, boolean: bool)
        requires { 1 ≤ self.old.spare }
        ensures data_type { self.new.data_type ≡ self.old.data_type }
        ensures slots { self.new.slots ≡ self.old.slots ++ BooleanSlot boolean ∷ [] }
        ensures spare { self.new.spare + 1 ≡ self.old.spare }
    {
        self.validity.push_valid_reserved();
        self.values.push_reserved(boolean);
    }

    /// Appends a null. `OutOfMemory` changes nothing.
    #[inline(always)]
    pub fn push_null(&mut self) -> Result<()>
        ensures data_type { self.new.data_type ≡ self.old.data_type }
        ensures ok { OnOk result (self.new.slots ≡ self.old.slots ++ NullSlot ∷ []) }
        ensures err { OnErr result (self.new ≡ self.old) }
        ensures memory { OnlyOutOfMemory result }
        ensures capacity { KeepsCapacity (plain_node self.old) (plain_node self.new) }
        ensures has_capacity { 1 ≤ self.old.spare → IsOk result }
    {
        self.push_slot(false, false)
    }

    #[inline(always)]
    fn push_slot(&mut self, boolean: bool, is_valid: bool) -> Result<()>
        ensures data_type { self.new.data_type ≡ self.old.data_type }
        ensures ok { OnOk result (self.new.slots
            ≡ self.old.slots ++ (if is_valid then BooleanSlot boolean else NullSlot) ∷ []) }
        ensures err { OnErr result (self.new ≡ self.old) }
        ensures memory { OnlyOutOfMemory result }
        ensures capacity { KeepsCapacity (plain_node self.old) (plain_node self.new) }
        ensures has_capacity { 1 ≤ self.old.spare → IsOk result }
    {
        self.values.reserve_one()?;
        self.validity.push(is_valid)?;
        self.values.push_reserved(boolean);
        Ok(())
    }

    /// Makes spare capacity for so many more slots. `OutOfMemory` leaves the slots as they are.
    #[inline]
    pub fn reserve_for(&mut self, additional: usize) -> Result<()>
        ensures data_type { self.new.data_type ≡ self.old.data_type }
        ensures slots { self.new.slots ≡ self.old.slots }
        ensures memory { OnlyOutOfMemory result }
        ensures capacity { NoLessSpare (plain_node self.old) (plain_node self.new) }
        ensures ok { OnOk result (HasSpare additional (plain_node self.new)) }
        ensures has_capacity { additional ≤ self.old.spare → IsOk result }
    {
        self.values.reserve(additional)?;
        self.validity.reserve(additional)?;
        Ok(())
    }

    /// Drops every slot and keeps the capacity.
    pub fn clear(&mut self)
        ensures data_type { self.new.data_type ≡ self.old.data_type }
        ensures slots { self.new.slots ≡ [] }
        ensures capacity { Emptied (plain_node self.old) (plain_node self.new) }
    {
        self.values.clear();
        self.validity.clear();
    }

    /// The array of the slots, over the builder's buffers. The builder is then empty.
    ///
    /// After `OutOfMemory` the builder may have lost its slots.
    pub fn as_box(&mut self) -> Result<BooleanArray>
        ensures data_type { self.new.data_type ≡ self.old.data_type }
        ensures array_type { IfOk result (λ a. a.data_type ≡ self.old.data_type) }
        ensures array_slots { IfOk result (λ a. a.slots ≡ self.old.slots) }
        ensures emptied { OnOk result (self.new.slots ≡ []) }
        ensures memory { OnlyOutOfMemory result }
    {
        let values = mem::replace(&mut self.values, MutableBitmap::new(self.alloc));
        let validity = mem::replace(&mut self.validity, MutableValidity::new(self.alloc));
        let (values, validity) = freeze_both(values, validity)?;
        let data_type = self.data_type.try_clone(self.alloc)?;
        Ok(BooleanArray::from_bitmaps(data_type, values, validity))
    }
}

/// The bitmaps of both, over the same words.
fn freeze_both(values: MutableBitmap, validity: MutableValidity) -> Result<(Bitmap, Option<Bitmap>)>
    ensures ok { IfOk result (λ b. (b.0.booleans ≡ values.items) × Tells b.1 validity.items) }
    ensures err { OnlyOutOfMemory result }
{
    let values = values.freeze()?;
    let validity = validity.freeze()?;
    Ok((values, validity))
}
