//! A builder of values of one size.

ghost use Rattle.std.specs.Prelude.{◌≡◌, ◌+◌, ◌≤◌, ◌++◌, ◌∷◌, [], length, if◌then◌else◌, IsOk, IfOk, OnOk, OnErr};
ghost use Rattle.arrow_core.specs.Errors.{OnlyOutOfMemory};
ghost use Rattle.arrow_core.specs.declared.error.Error.TheVariants.{OutOfMemory};
ghost use Rattle.arrow_core.specs.declared.slot.Slot.TheVariants.{Null as NullSlot};
ghost use Rattle.arrow_array.specs.Parts.{IsPlain};
ghost use Rattle.arrow_flat.specs.Builders.{plain_node, plain_type, optional_slot};
ghost use Rattle.arrow_flat.specs.Nodes.{KeepsCapacity, NoLessSpare, Emptied, HasSpare};

use crate::container::Container;
use crate::lengths::NodeLengths;
use crate::validity::MutableValidity;
use arrow_array::PrimitiveArray;
use arrow_core::{DataType, IntervalUnit, NativeType, PrimitiveType, Result};
use std::alloc::Global;
use std::marker::Model;
use std::mem;

/// A builder of values of one size, side by side, beside a validity bitmap
/// (Arrow columnar format, "Fixed-size Primitive Layout").
#[derive(Drop)]
pub struct MutablePrimitiveArray<T: NativeType> {
    alloc: Global,
    data_type: DataType,
    values: Vec<T>,
    validity: MutableValidity,
}

impl<T: NativeType> Model for MutablePrimitiveArray<T> {
    ghost use Rattle.std.specs.Prelude.{◌≡◌, ◌-◌, length, min, vec_capacity};
    ghost use Rattle.arrow_flat.specs.Builders.{PlainBuilder, plain_builder_code, slots_where};

    ghost Value = { PlainBuilder };

    ghost coded = { plain_builder_code };

    ghost use Rattle.arrow_array.specs.Slots.{native_at};
    ghost use Rattle.arrow_array.specs.Parts.{IsPlain};

    ghost view = { λ b. record {
      data_type = b.data_type;
      slots = slots_where b.validity.items (native_at T.native_slot b.values.items);
      spare = min (vec_capacity b.values - length b.validity.items) b.validity.spare;
    } };

    ghost invariant = { λ b. (length b.values.items ≡ length b.validity.items)
        × IsPlain T.PRIMITIVE b.data_type };
}

/// The type of a builder of such values, where no other is asked for.
fn type_of_primitive(primitive: PrimitiveType) -> DataType
    ensures type_is { result ≡ plain_type primitive }
    ensures plain { IsPlain primitive result }
{
    match primitive {
        PrimitiveType::Int8 => DataType::Int8,
        PrimitiveType::Int16 => DataType::Int16,
        PrimitiveType::Int32 => DataType::Int32,
        PrimitiveType::Int64 => DataType::Int64,
        PrimitiveType::Int128 => DataType::Decimal(32, 32),
        PrimitiveType::Int256 => DataType::Decimal256(32, 32),
        PrimitiveType::UInt8 => DataType::UInt8,
        PrimitiveType::UInt16 => DataType::UInt16,
        PrimitiveType::UInt32 => DataType::UInt32,
        PrimitiveType::UInt64 => DataType::UInt64,
        PrimitiveType::Float16 => DataType::Float16,
        PrimitiveType::Float32 => DataType::Float32,
        PrimitiveType::Float64 => DataType::Float64,
        PrimitiveType::DaysMs => DataType::Interval(IntervalUnit::DayTime),
        PrimitiveType::MonthDayNano => DataType::Interval(IntervalUnit::MonthDayNano),
    }
}

impl<T: NativeType> Container for MutablePrimitiveArray<T> {
    ghost use Rattle.arrow_flat.specs.Builders.{IsNewPlain, plain_type};

    ghost is_new = { IsNewPlain (plain_type T.PRIMITIVE) };

    fn with_capacity(alloc: Global, capacity: usize) -> Result<MutablePrimitiveArray<T>> {
        let values = Vec::with_capacity(alloc, capacity)?;
        let mut validity = MutableValidity::new(alloc);
        validity.reserve(capacity)?;
        Ok(MutablePrimitiveArray {
            alloc,
            data_type: type_of_primitive(T::PRIMITIVE),
            values,
            validity,
        })
    }
}

#[tactic(auto, using(crate::proofs::Slots::counts))]
impl<T: NativeType> MutablePrimitiveArray<T> {
    /// The same builder with this type, whose values lie in memory as those of `T` do.
    pub fn to(self, data_type: DataType) -> MutablePrimitiveArray<T>
        requires { IsPlain T.PRIMITIVE data_type }
        ensures data_type { result.data_type ≡ data_type }
        ensures slots { result.slots ≡ self.slots }
        ensures spare { result.spare ≡ self.spare }
    {
        let MutablePrimitiveArray {
            alloc,
            data_type: _,
            values,
            validity,
        } = self;
        MutablePrimitiveArray {
            alloc,
            data_type,
            values,
            validity,
        }
    }

    /// How many slots there are, nulls among them.
    pub fn len(&self) -> usize
        ensures { result ≡ length self.now.slots }
    {
        self.values.len()
    }

    /// The data type: the plain one of `T`, or the one that `to` gave.
    pub fn data_type(&self) -> &DataType
        ensures same { result.now ≡ self.now.data_type }
        ensures kind { IsPlain T.PRIMITIVE self.now.data_type }
    {
        &self.data_type
    }

    /// How many slots the builder holds, as its one node; content bytes it holds none.
    pub fn lengths(&self) -> NodeLengths
        ensures slots { result.slots ≡ length self.now.slots }
        ensures bytes { result.bytes ≡ 0 }
    {
        NodeLengths {
            slots: self.values.len(),
            bytes: 0,
        }
    }

    /// Appends a slot, null for `None`. `OutOfMemory` changes nothing.
    #[inline(always)]
    pub fn push(&mut self, value: Option<T>) -> Result<()>
        ensures data_type { self.new.data_type ≡ self.old.data_type }
        ensures ok { OnOk result (self.new.slots
            ≡ self.old.slots ++ optional_slot T.native_slot value ∷ []) }
        ensures err { OnErr result (self.new ≡ self.old) }
        ensures memory { OnlyOutOfMemory result }
        ensures capacity { KeepsCapacity (plain_node self.old) (plain_node self.new) }
        ensures has_capacity { 1 ≤ self.old.spare → IsOk result }
    {
        match value {
            None => self.push_slot(T::zero(), false),
            Some(value) => self.push_slot(value, true),
        }
    }

    /// Appends a value, for which there is spare capacity: no memory is asked for.
    #[inline(always)]
    pub fn push_reserved(&mut self, value: T)
        requires { 1 ≤ self.old.spare }
        ensures data_type { self.new.data_type ≡ self.old.data_type }
        ensures slots { self.new.slots ≡ self.old.slots ++ T.native_slot value ∷ [] }
        ensures spare { self.new.spare + 1 ≡ self.old.spare }
    {
        self.validity.push_valid_reserved();
        self.values.push_reserved(value);
    }

    /// Appends a null. `OutOfMemory` changes nothing.
    #[inline(always)]
    pub fn push_null(&mut self) -> Result<()>
        ensures data_type { self.new.data_type ≡ self.old.data_type }
        ensures ok { OnOk result (self.new.slots ≡ self.old.slots ++ NullSlot ∷ []) }
        ensures err { OnErr result (self.new ≡ self.old) }
        ensures memory { OnlyOutOfMemory result }
        ensures capacity { KeepsCapacity (plain_node self.old) (plain_node self.new) }
        ensures has_capacity { 1 ≤ self.old.spare → IsOk result }
    {
        self.push_slot(T::zero(), false)
    }

    #[inline(always)]
    fn push_slot(&mut self, value: T, is_valid: bool) -> Result<()>
        ensures data_type { self.new.data_type ≡ self.old.data_type }
        ensures ok { OnOk result (self.new.slots
            ≡ self.old.slots ++ (if is_valid then T.native_slot value else NullSlot) ∷ []) }
        ensures err { OnErr result (self.new ≡ self.old) }
        ensures memory { OnlyOutOfMemory result }
        ensures capacity { KeepsCapacity (plain_node self.old) (plain_node self.new) }
        ensures has_capacity { 1 ≤ self.old.spare → IsOk result }
    {
        self.values.reserve(1)?;
        self.validity.push(is_valid)?;
        self.values.push_reserved(value);
        Ok(())
    }

    /// Makes spare capacity for so many more slots. `OutOfMemory` leaves the slots as they are.
    #[inline]
    pub fn reserve_for(&mut self, additional: usize) -> Result<()>
        ensures data_type { self.new.data_type ≡ self.old.data_type }
        ensures slots { self.new.slots ≡ self.old.slots }
        ensures memory { OnlyOutOfMemory result }
        ensures capacity { NoLessSpare (plain_node self.old) (plain_node self.new) }
        ensures ok { OnOk result (HasSpare additional (plain_node self.new)) }
        ensures has_capacity { additional ≤ self.old.spare → IsOk result }
    {
        self.values.reserve(additional)?;
        self.validity.reserve(additional)?;
        Ok(())
    }

    /// Drops every slot and keeps the capacity.
    pub fn clear(&mut self)
        ensures data_type { self.new.data_type ≡ self.old.data_type }
        ensures slots { self.new.slots ≡ [] }
        ensures capacity { Emptied (plain_node self.old) (plain_node self.new) }
    {
        self.values.clear();
        self.validity.clear();
    }

    /// The array of the slots, over the builder's buffers. The builder is then empty.
    ///
    /// After `OutOfMemory` the builder has lost its slots.
    pub fn as_box(&mut self) -> Result<PrimitiveArray<T>>
        ensures data_type { self.new.data_type ≡ self.old.data_type }
        ensures array_type { IfOk result (λ a. a.data_type ≡ self.old.data_type) }
        ensures array_slots { IfOk result (λ a. a.slots ≡ self.old.slots) }
        ensures emptied { self.new.slots ≡ [] }
        ensures memory { OnlyOutOfMemory result }
    {
        let values = mem::replace(&mut self.values, Vec::new(self.alloc));
        let validity = mem::replace(&mut self.validity, MutableValidity::new(self.alloc));
        let validity = validity.freeze()?;
        let data_type = self.data_type.try_clone(self.alloc)?;
        PrimitiveArray::try_new(self.alloc, data_type, values, validity)
    }
}
