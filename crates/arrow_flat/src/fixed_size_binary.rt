//! A builder of fixed-size binary values.

ghost use Rattle.std.specs.Prelude.{◌≡◌, ◌+◌, ◌*◌, ◌≤◌, ◌++◌, ◌∷◌, [], length, if◌then◌else◌, IsOk, IfOk, IfSome, OnOk, OnErr};
ghost use Rattle.std.specs.Option.{option_copied};
ghost use Rattle.arrow_core.specs.Errors.{OnlyOutOfMemory};
ghost use Rattle.arrow_core.specs.declared.error.Error.TheVariants.{OutOfMemory};
ghost use Rattle.arrow_core.specs.declared.slot.Slot.TheVariants.{Null as NullSlot, Binary as BinarySlot};
ghost use Rattle.arrow_core.specs.declared.types.DataType.TheVariants.{FixedSizeBinary};
ghost use Rattle.arrow_array.specs.Parts.{byte_width};
ghost use Rattle.arrow_flat.specs.Builders.{IsNewContent, content_node, optional_slot};
ghost use Rattle.arrow_flat.specs.Nodes.{KeepsCapacity, NoLessSpare, Emptied, HasSpare};

use crate::bitmap::MutableBitmap;
use crate::lengths::NodeLengths;
use arrow_array::FixedSizeBinaryArray;
use arrow_core::{DataType, Error, Result};
use std::alloc::Global;
use std::marker::Model;
use std::mem;

/// A builder of fixed-size binary values, which lie one after another, beside a validity bitmap
/// (Arrow columnar format, "Fixed-size Primitive Layout").
///
/// A null takes as many content bytes as a value.
#[derive(Drop)]
pub struct MutableFixedSizeBinaryArray {
    alloc: Global,
    data_type: DataType,
    size: usize,
    values: Vec<u8>,
    validity: MutableBitmap,
}

impl Model for MutableFixedSizeBinaryArray {
    ghost use Rattle.std.specs.Prelude.{◌≡◌, ◌-◌, ◌*◌, ◌<◌, length, vec_capacity};
    ghost use Rattle.arrow_core.specs.declared.types.DataType.TheVariants.{FixedSizeBinary};
    ghost use Rattle.arrow_array.specs.Slots.{fixed_at};
    ghost use Rattle.arrow_flat.specs.Builders.{ContentBuilder, content_builder_code, slots_where};

    ghost Value = { ContentBuilder };

    ghost coded = { content_builder_code };

    ghost view = { λ b. record {
      data_type = b.data_type;
      slots = slots_where b.validity.items (fixed_at b.size b.values.items);
      spare = b.validity.spare;
      bytes = length b.values.items;
      byte_spare = vec_capacity b.values - length b.values.items;
    } };

    ghost invariant = { λ b. (b.data_type ≡ FixedSizeBinary b.size)
        × (0 < b.size)
        × (length b.values.items ≡ length b.validity.items * b.size) };
}

#[tactic(auto, using(crate::proofs::Slots::counts))]
impl MutableFixedSizeBinaryArray {
    /// An empty builder of binary values of so many bytes, at least 1. Of the capacity nothing is
    /// promised. `OutOfMemory` alone.
    pub fn with_capacity(
        alloc: Global,
        size: usize,
        capacity: usize,
    ) -> Result<MutableFixedSizeBinaryArray>
        requires { 1 ≤ size }
        ensures ok { IfOk result (IsNewContent (FixedSizeBinary size)) }
        ensures err { OnlyOutOfMemory result }
    {
        let values = Vec::with_capacity(alloc, capacity.saturating_mul(size))?;
        let mut validity = MutableBitmap::new(alloc);
        validity.reserve(capacity)?;
        Ok(MutableFixedSizeBinaryArray {
            alloc,
            data_type: DataType::FixedSizeBinary(size),
            size,
            values,
            validity,
        })
    }

    /// How many slots there are. Each has as many bytes as a value, a null too.
    pub fn len(&self) -> usize
        ensures len { result ≡ length self.now.slots }
        ensures bytes { self.now.bytes ≡ length self.now.slots * byte_width self.now.data_type }
    {
        self.validity.len()
    }

    /// The data type, FixedSizeBinary.
    pub fn data_type(&self) -> &DataType
        ensures same { result.now ≡ self.now.data_type }
        ensures kind { self.now.data_type ≡ FixedSizeBinary (byte_width self.now.data_type) }
    {
        &self.data_type
    }

    /// How many bytes a slot has.
    pub fn size(&self) -> usize
        ensures { result ≡ byte_width self.now.data_type }
    {
        self.size
    }

    /// How many slots and content bytes the builder holds, as its one node.
    pub fn lengths(&self) -> NodeLengths
        ensures slots { result.slots ≡ length self.now.slots }
        ensures bytes { result.bytes ≡ self.now.bytes }
    {
        NodeLengths {
            slots: self.validity.len(),
            bytes: self.values.len(),
        }
    }

    /// Appends a slot, null for `None`. The bytes are as many as a slot has.
    ///
    /// `OutOfMemory` leaves slots and bytes as they are.
    #[inline]
    pub fn push(&mut self, value: Option<&[u8]>) -> Result<()>
        requires { IfSome (option_copied value)
            (λ bytes. length bytes ≡ byte_width self.old.data_type) }
        ensures data_type { self.new.data_type ≡ self.old.data_type }
        ensures ok { OnOk result (self.new.slots
            ≡ self.old.slots ++ optional_slot BinarySlot (option_copied value.entry) ∷ []) }
        ensures bytes { OnOk result
            (self.new.bytes ≡ self.old.bytes + byte_width self.old.data_type) }
        ensures slots_kept { OnErr result (self.new.slots ≡ self.old.slots) }
        ensures bytes_kept { OnErr result (self.new.bytes ≡ self.old.bytes) }

        // Where only slots lack capacity, not even the capacity changes.
        ensures kept { OnErr result (byte_width self.old.data_type ≤ self.old.byte_spare
            → self.new ≡ self.old) }

        ensures memory { OnlyOutOfMemory result }
        ensures capacity { KeepsCapacity (content_node self.old) (content_node self.new) }
        ensures has_capacity { 1 ≤ self.old.spare
            → byte_width self.old.data_type ≤ self.old.byte_spare
            → IsOk result }
    {
        match value {
            None => self.push_null(),
            Some(bytes) => self.push_valid(bytes),
        }
    }

    /// Appends a null, which takes as many bytes as a value.
    ///
    /// `OutOfMemory` leaves slots and bytes as they are.
    pub fn push_null(&mut self) -> Result<()>
        ensures data_type { self.new.data_type ≡ self.old.data_type }
        ensures ok { OnOk result (self.new.slots ≡ self.old.slots ++ NullSlot ∷ []) }
        ensures bytes { OnOk result
            (self.new.bytes ≡ self.old.bytes + byte_width self.old.data_type) }
        ensures slots_kept { OnErr result (self.new.slots ≡ self.old.slots) }
        ensures bytes_kept { OnErr result (self.new.bytes ≡ self.old.bytes) }
        ensures kept { OnErr result (byte_width self.old.data_type ≤ self.old.byte_spare
            → self.new ≡ self.old) }
        ensures memory { OnlyOutOfMemory result }
        ensures capacity { KeepsCapacity (content_node self.old) (content_node self.new) }
        ensures has_capacity { 1 ≤ self.old.spare
            → byte_width self.old.data_type ≤ self.old.byte_spare
            → IsOk result }
    {
        let Some(end) = self.values.len().checked_add(self.size) else {
            return Err(Error::OutOfMemory);
        };
        self.validity.reserve_one()?;
        self.values.resize(end, 0)?;
        self.validity.push_reserved(false);
        Ok(())
    }

    #[inline(always)]
    fn push_valid(&mut self, bytes: &[u8]) -> Result<()>
        requires { length bytes.now ≡ byte_width self.old.data_type }
        ensures data_type { self.new.data_type ≡ self.old.data_type }
        ensures ok { OnOk result (self.new.slots ≡ self.old.slots ++ BinarySlot bytes.now ∷ []) }
        ensures bytes { OnOk result
            (self.new.bytes ≡ self.old.bytes + byte_width self.old.data_type) }
        ensures slots_kept { OnErr result (self.new.slots ≡ self.old.slots) }
        ensures bytes_kept { OnErr result (self.new.bytes ≡ self.old.bytes) }
        ensures kept { OnErr result (byte_width self.old.data_type ≤ self.old.byte_spare
            → self.new ≡ self.old) }
        ensures memory { OnlyOutOfMemory result }
        ensures capacity { KeepsCapacity (content_node self.old) (content_node self.new) }
        ensures has_capacity { 1 ≤ self.old.spare
            → byte_width self.old.data_type ≤ self.old.byte_spare
            → IsOk result }
    {
        self.validity.reserve_one()?;
        self.values.extend_from_slice(bytes)?;
        self.validity.push_reserved(true);
        Ok(())
    }

    /// Makes spare capacity for so many more slots and bytes. `OutOfMemory` leaves the slots as
    /// they are.
    pub fn reserve_for(&mut self, additional: usize) -> Result<()>
        ensures data_type { self.new.data_type ≡ self.old.data_type }
        ensures slots { self.new.slots ≡ self.old.slots }
        ensures bytes { self.new.bytes ≡ self.old.bytes }
        ensures memory { OnlyOutOfMemory result }
        ensures capacity { NoLessSpare (content_node self.old) (content_node self.new) }
        ensures ok { OnOk result (HasSpare additional (content_node self.new)) }
    {
        self.validity.reserve(additional)?;
        self.values.reserve(additional)?;
        Ok(())
    }

    /// Drops every slot and keeps the capacity.
    pub fn clear(&mut self)
        ensures data_type { self.new.data_type ≡ self.old.data_type }
        ensures slots { self.new.slots ≡ [] }
        ensures bytes { self.new.bytes ≡ 0 }
        ensures capacity { Emptied (content_node self.old) (content_node self.new) }
    {
        self.values.clear();
        self.validity.clear();
    }

    /// The array of the slots, over the builder's buffers. The builder is then empty.
    ///
    /// After `OutOfMemory` the builder may have lost its slots.
    pub fn as_box(&mut self) -> Result<FixedSizeBinaryArray>
        ensures data_type { self.new.data_type ≡ self.old.data_type }
        ensures array_type { IfOk result (λ a. a.data_type ≡ self.old.data_type) }
        ensures array_slots { IfOk result (λ a. a.slots ≡ self.old.slots) }
        ensures emptied { OnOk result (self.new.slots ≡ []) }
        ensures no_bytes { OnOk result (self.new.bytes ≡ 0) }
        ensures memory { OnlyOutOfMemory result }
    {
        let values = mem::replace(&mut self.values, Vec::new(self.alloc));
        let validity = mem::replace(&mut self.validity, MutableBitmap::new(self.alloc));
        let validity = validity.freeze()?;
        let data_type = self.data_type.try_clone(self.alloc)?;
        FixedSizeBinaryArray::try_new(self.alloc, data_type, values, Some(validity))
    }
}
