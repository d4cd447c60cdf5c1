//! A builder of slots of variable length: of strings, or of binary values.

ghost use Rattle.std.specs.Prelude.{◌≡◌, ◌+◌, ◌<◌, ◌≤◌, ◌++◌, ◌∷◌, [], ◌⊎◌, ◌↔◌, ℕ, Bool, List};
ghost use Rattle.std.specs.Prelude.{length, map, pos, vec_len, vec_capacity, if◌then◌else◌, Err, IsOk, IfOk, IfErr, OnOk, OnErr};
ghost use Rattle.arrow_core.specs.Errors.{OnlyOutOfMemory};
ghost use Rattle.arrow_core.specs.declared.error.Error.TheVariants.{OutOfMemory, Overflow};
ghost use Rattle.arrow_core.specs.Numbers.{greatest_offset};
ghost use Rattle.arrow_core.specs.declared.slot.Slot.{Slot};
ghost use Rattle.arrow_core.specs.declared.slot.Slot.TheVariants.{Null as NullSlot};
ghost use Rattle.arrow_flat.specs.Builders.{content_node};
ghost use Rattle.arrow_flat.specs.Nodes.{KeepsCapacity, NoLessSpare, Emptied, HasSpare};

use crate::bitmap::MutableBitmap;
use crate::container::Container;
use crate::lengths::NodeLengths;
use arrow_core::{DataType, Error, Offset, Result};
use std::alloc::{AllocError, Global};
use std::marker::{Model, PhantomData};

/// What the slots of a builder of variable length are.
pub trait Content: Sized {
    ghost use Rattle.arrow_core.specs.declared.types.DataType.{DataType};

    // the bytes that a slot may have
    ghost holds: { List ℕ → Type 0 };

    // the slot of such bytes
    ghost slot: { List ℕ → Slot };

    // the type, with offsets of 32 bits or of 64
    ghost content_type: { Bool → DataType };

    /// The type, with offsets of 64 bits or else of 32.
    fn data_type(is_large: bool) -> DataType
        ensures { result ≡ content_type is_large };

    // a slot may have no bytes
    ghost holds_nothing: { holds [] };
}

/// A builder of strings or of binary values, which lie one after another in a buffer of bytes,
/// between offsets, beside a validity bitmap (Arrow columnar format, "Variable-size Binary
/// Layout").
#[derive(Drop)]
pub struct MutableContentArray<C: Content, O: Offset> {
    pub(crate) alloc: Global,
    pub(crate) data_type: DataType,
    pub(crate) offsets: Vec<O>,
    pub(crate) values: Vec<u8>,
    pub(crate) validity: MutableBitmap,
    content: PhantomData<C>,
}

impl<C: Content, O: Offset> Model for MutableContentArray<C, O> {
    ghost use Rattle.std.specs.Prelude.{◌≡◌, ◌≤◌, ◌+◌, ◌-◌, length, map, min, vec_capacity};
    ghost use Rattle.arrow_flat.specs.Builders.{ContentBuilder, content_builder_code, slots_where};

    ghost Value = { ContentBuilder };

    ghost coded = { content_builder_code };

    ghost use Rattle.arrow_core.specs.Numbers.{greatest_offset};
    ghost use Rattle.arrow_flat.specs.Contents.{HoldContents, content_at};

    ghost view = { λ b. record {
      data_type = b.data_type;
      slots = slots_where b.validity.items
          (content_at C.slot (map O.number b.offsets.items) b.values.items);
      spare = min (vec_capacity b.offsets - (length b.validity.items + 1)) b.validity.spare;
      bytes = length b.values.items;
      byte_spare = vec_capacity b.values - length b.values.items;
    } };

    ghost invariant = { λ b.
        HoldContents C.holds (map O.number b.offsets.items) b.values.items (length b.validity.items)
        × (length b.values.items ≤ greatest_offset O.IS_LARGE)
        × (b.data_type ≡ C.content_type O.IS_LARGE) };
}

/// The offsets of no slot: 0 alone.
pub(crate) fn first_offset<O: Offset>(alloc: Global, capacity: usize) -> Result<Vec<O>>
    ensures ok { IfOk result (λ offsets. map O.number offsets.items ≡ pos 0 ∷ []) }
    ensures err { OnlyOutOfMemory result }
{
    let mut offsets = Vec::with_capacity(alloc, capacity)?;
    let Some(zero) = O::from_usize(0) else {
        unreachable!()
    };
    offsets.push(zero)?;
    Ok(offsets)
}

impl<C: Content, O: Offset> Container for MutableContentArray<C, O> {
    ghost use Rattle.arrow_flat.specs.Builders.{IsNewContent};

    ghost is_new = { IsNewContent (C.content_type O.IS_LARGE) };

    fn with_capacity(alloc: Global, capacity: usize) -> Result<MutableContentArray<C, O>> {
        let offsets = first_offset(alloc, capacity.saturating_add(1))?;
        let mut validity = MutableBitmap::new(alloc);
        validity.reserve(capacity)?;
        Ok(MutableContentArray {
            alloc,
            data_type: C::data_type(O::IS_LARGE),
            offsets,
            values: Vec::new(alloc),
            validity,
            content: PhantomData,
        })
    }
}

/// Makes spare capacity for one more item. Where there is some, the call is spared.
#[inline(always)]
fn reserve_item<T>(items: &mut Vec<T>) -> std::result::Result<(), AllocError>
    ensures items { items.new.items ≡ items.old.items }
    ensures len { vec_len items.new ≡ vec_len items.old }
    ensures ok { OnOk result (vec_len items.new + 1 ≤ vec_capacity items.new) }
    ensures capacity { vec_capacity items.old ≤ vec_capacity items.new }
    ensures full { OnErr result (vec_capacity items.old < vec_len items.old + 1) }
    ensures err { OnErr result (vec_capacity items.new ≡ vec_capacity items.old) }
{
    if items.len() < items.capacity() {
        return Ok(());
    }
    items.reserve(1)
}

/// Up to how many bytes are appended one by one: so few take less time than the call that moves
/// bytes.
const FEW_BYTES: usize = 8;

/// Appends these bytes one by one, within spare capacity.
#[inline(always)]
fn append_few(values: &mut Vec<u8>, bytes: &[u8])
    requires { vec_len values.old + length bytes.now ≤ vec_capacity values.old }
    ensures items { values.new.items ≡ values.old.items ++ bytes.now }
    ensures capacity { vec_capacity values.new ≡ vec_capacity values.old }
{
    for byte in bytes {
        values.push_reserved(*byte);
    }
}

/// Appends these bytes. Where they are few, the call that moves bytes is spared.
#[inline(always)]
fn append(values: &mut Vec<u8>, bytes: &[u8]) -> std::result::Result<(), AllocError>
    ensures items { OnOk result (values.new.items ≡ values.old.items ++ bytes.now) }
    ensures kept { OnErr result (values.new.items ≡ values.old.items) }
    ensures capacity { vec_capacity values.old ≤ vec_capacity values.new }
    ensures succeeds { vec_len values.old + length bytes.now ≤ vec_capacity values.old
        → IsOk result }
{
    if bytes.len() > FEW_BYTES {
        return values.extend_from_slice(bytes);
    }
    if values.capacity() - values.len() < bytes.len() {
        values.reserve(bytes.len())?;
    }
    append_few(values, bytes);
    Ok(())
}

#[tactic(auto, using(crate::proofs::Slots::content_counts))]
impl<C: Content, O: Offset> MutableContentArray<C, O> {
    /// How many slots there are, nulls among them.
    pub fn len(&self) -> usize
        ensures { result ≡ length self.now.slots }
    {
        self.validity.len()
    }

    /// The data type: that of the content, with such offsets.
    pub fn data_type(&self) -> &DataType
        ensures same { result.now ≡ self.now.data_type }
        ensures kind { self.now.data_type ≡ C.content_type O.IS_LARGE }
    {
        &self.data_type
    }

    /// How many slots and content bytes the builder holds, as its one node.
    pub fn lengths(&self) -> NodeLengths
        ensures slots { result.slots ≡ length self.now.slots }
        ensures bytes { result.bytes ≡ self.now.bytes }
    {
        NodeLengths {
            slots: self.validity.len(),
            bytes: self.values.len(),
        }
    }

    /// Appends a null. `OutOfMemory` changes nothing.
    #[inline(always)]
    pub fn push_null(&mut self) -> Result<()>
        ensures data_type { self.new.data_type ≡ self.old.data_type }
        ensures ok { OnOk result (self.new.slots ≡ self.old.slots ++ NullSlot ∷ []) }
        ensures bytes { self.new.bytes ≡ self.old.bytes }
        ensures err { OnErr result (self.new ≡ self.old) }
        ensures memory { OnlyOutOfMemory result }
        ensures capacity { KeepsCapacity (content_node self.old) (content_node self.new) }
        ensures has_capacity { 1 ≤ self.old.spare → IsOk result }
    {
        self.push_slot(&[], false)
    }

    /// Appends the slot of these bytes, or a null. `push` of each content says what of.
    #[inline(always)]
    pub(crate) fn push_slot(&mut self, bytes: &[u8], is_valid: bool) -> Result<()>
        requires { C.holds bytes.now }
        ensures data_type { self.new.data_type ≡ self.old.data_type }
        ensures ok { OnOk result (self.new.slots
            ≡ self.old.slots ++ (if is_valid then C.slot bytes.now else NullSlot) ∷ []) }
        ensures bytes { OnOk result (self.new.bytes ≡ self.old.bytes + length bytes.now) }
        ensures slots_kept { OnErr result (self.new.slots ≡ self.old.slots) }
        ensures bytes_kept { OnErr result (self.new.bytes ≡ self.old.bytes) }
        ensures kept { OnErr result (length bytes.now ≤ self.old.byte_spare → self.new ≡ self.old) }
        ensures overflow { (result ≡ Err Overflow)
            ↔ (greatest_offset O.IS_LARGE < self.old.bytes + length bytes.now) }
        ensures overflow_kept { result ≡ Err Overflow → self.new ≡ self.old }
        ensures limit { self.old.bytes ≤ greatest_offset O.IS_LARGE }
        ensures errors { IfErr result (λ e. (e ≡ Overflow) ⊎ (e ≡ OutOfMemory)) }
        ensures capacity { KeepsCapacity (content_node self.old) (content_node self.new) }
        ensures has_capacity { 1 ≤ self.old.spare
            → length bytes.now ≤ self.old.byte_spare
            → self.old.bytes + length bytes.now ≤ greatest_offset O.IS_LARGE
            → IsOk result }
    {
        let Some(end) = self.values.len().checked_add(bytes.len()) else {
            return Err(Error::Overflow);
        };
        let Some(offset) = O::from_usize(end) else {
            return Err(Error::Overflow);
        };
        reserve_item(&mut self.offsets)?;
        self.validity.reserve_one()?;
        append(&mut self.values, bytes)?;
        self.offsets.push_reserved(offset);
        self.validity.push_reserved(is_valid);
        Ok(())
    }

    /// Makes spare capacity for so many more slots and bytes. `OutOfMemory` leaves the slots as
    /// they are.
    pub fn reserve_for(&mut self, additional: usize) -> Result<()>
        ensures data_type { self.new.data_type ≡ self.old.data_type }
        ensures slots { self.new.slots ≡ self.old.slots }
        ensures bytes { self.new.bytes ≡ self.old.bytes }
        ensures memory { OnlyOutOfMemory result }
        ensures capacity { NoLessSpare (content_node self.old) (content_node self.new) }
        ensures ok { OnOk result (HasSpare additional (content_node self.new)) }
    {
        self.offsets.reserve(additional)?;
        self.validity.reserve(additional)?;
        self.values.reserve(additional)?;
        Ok(())
    }

    /// Drops every slot and keeps the capacity.
    pub fn clear(&mut self)
        ensures data_type { self.new.data_type ≡ self.old.data_type }
        ensures slots { self.new.slots ≡ [] }
        ensures bytes { self.new.bytes ≡ 0 }
        ensures capacity { Emptied (content_node self.old) (content_node self.new) }
    {
        self.offsets.truncate(1);
        self.values.clear();
        self.validity.clear();
    }
}
