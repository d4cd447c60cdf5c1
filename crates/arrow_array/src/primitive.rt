//! Values that lie in memory as they are.
ghost use Rattle.std.specs.Prelude.{◌≡◌, ℕ, ◌+◌, ◌<◌, ◌≤◌, ◌↔◌, IsTrue, IfOk, IfErr, length, take, drop, vec_len, All};
ghost use Rattle.std.specs.Option.{option_copied};
ghost use Rattle.arrow_core.specs.Errors.{OnlyOutOfMemory};
ghost use Rattle.arrow_core.specs.declared.error.Error.TheVariants.{OutOfMemory};
ghost use Rattle.arrow_array.specs.SlotTypes.{SlotOf};
ghost use Rattle.arrow_array.specs.Slots.{TellsHeld, is_held, native_at, slot_at, slots_of};
ghost use Rattle.arrow_array.specs.Parts.{IsPlain, IsRefusalOf, PrimitiveFits, is_extension};

use crate::Bitmap;
use crate::buffer::Buffer;
use crate::drops::{beside, both, drop_both};
use crate::ranges::{Ranged, tell_ranges};
use crate::validity::{self, slice_with_type};
use arrow_core::{DataType, Error, NativeType, PhysicalType, Reason, Result};
use std::alloc::Global;
use std::marker::Model;

/// Values of one native type, one after another in a shared buffer (Arrow columnar format,
/// "Fixed-size Primitive Layout").
#[derive(Drop)]
pub struct PrimitiveArray<T: NativeType> {
    data_type: DataType,
    values: Buffer<T>,
    validity: Option<Bitmap>,
}

impl<T: NativeType> Model for PrimitiveArray<T> {
    ghost use Rattle.std.specs.Prelude.{length};
    ghost use Rattle.arrow_array.specs.Columns.{Column, column_code};
    ghost use Rattle.arrow_array.specs.Slots.{slots_of, native_at};
    ghost use Rattle.arrow_array.specs.Parts.{PrimitiveFits};

    ghost Value = { Column };

    ghost coded = { column_code };

    ghost view = { λ a. record {
      data_type = a.data_type;
      slots = slots_of (native_at T.native_slot a.values) a.validity 0
          (length a.values);
    } };

    ghost invariant = { λ a. PrimitiveFits T.PRIMITIVE a.data_type (length a.values) a.validity };
}

fn is_extension_type(data_type: &DataType) -> bool
    ensures { result ≡ is_extension data_type.now }
{
    matches!(data_type, DataType::Extension(_, _, _))
}

/// Whether values of this type are kept as a `T`.
fn is_plain<T: NativeType>(data_type: &DataType) -> bool
    ensures { IsTrue result ↔ IsPlain T.PRIMITIVE data_type.now }
{
    if is_extension_type(data_type) {
        return false;
    }
    match data_type.to_physical_type() {
        PhysicalType::Primitive(primitive) => primitive == T::PRIMITIVE,
        _ => false,
    }
}

/// Whether these parts make an array of so many values.
fn fits<T: NativeType>(data_type: &DataType, len: usize, validity: &Option<Bitmap>) -> bool
    ensures { IsTrue result ↔ PrimitiveFits T.PRIMITIVE data_type.now len validity.now }
{
    is_plain::<T>(data_type) && validity::fits(validity, len)
}

impl<T: NativeType> PrimitiveArray<T> {
    /// The array of these values, one a slot, null where the validity is false. It keeps the
    /// values.
    ///
    /// `InvalidArgumentError(ArrayParts)` where values of the type lie in memory as another
    /// primitive type, where the type is an extension, or where a given validity has another
    /// length; `OutOfMemory`.
    pub fn try_new(
        _alloc: Global,
        data_type: DataType,
        values: Vec<T>,
        validity: Option<Bitmap>,
    ) -> Result<PrimitiveArray<T>>
        ensures data_type { IfOk result (λ a. a.data_type ≡ data_type) }
        ensures slots { IfOk result
            (λ a. a.slots
            ≡ slots_of (native_at T.native_slot values.items) validity 0 (vec_len values)) }
        ensures fits { IfOk result
            (λ _. PrimitiveFits T.PRIMITIVE data_type (vec_len values) validity) }
        ensures err { IfErr result
            (IsRefusalOf (PrimitiveFits T.PRIMITIVE data_type (vec_len values) validity)) }
    {
        if !fits::<T>(&data_type, values.len(), &validity) {
            drop_both((data_type, validity), values);
            return Err(Error::InvalidArgumentError(Reason::ArrayParts));
        }
        let values = Buffer::try_from_vec(values);
        let (values, data_type, validity) = beside(values, data_type, validity)?;
        Ok(PrimitiveArray {
            data_type,
            values,
            validity,
        })
    }

    /// How many slots there are, nulls among them.
    pub fn len(&self) -> usize
        ensures { result ≡ length self.now.slots }
    {
        self.values.len()
    }

    /// The data type, whose values lie in memory as a `T`, and which is no extension.
    pub fn data_type(&self) -> &DataType
        ensures data_type { result.now ≡ self.now.data_type }
        ensures kind { IsPlain T.PRIMITIVE self.now.data_type }
    {
        &self.data_type
    }

    /// Which slots aren't null. It is `None` only where no slot is null.
    pub fn validity(&self) -> Option<&Bitmap>
        ensures { TellsHeld (option_copied result) self.now.slots }
    {
        self.validity.as_ref()
    }

    /// Whether slot `i` isn't null.
    pub fn is_valid(&self, i: usize) -> bool
        requires { i < length self.now.slots }
        ensures { result ≡ is_held (slot_at self.now.slots i) }
    {
        validity::is_valid(&self.validity, self.len(), i)
    }

    /// The value of slot `i`; at a null, whatever the buffer has there.
    pub fn value(&self, i: usize) -> T
        requires { i < length self.now.slots }
        ensures { IsTrue (is_held (slot_at self.now.slots i))
            → slot_at self.now.slots i ≡ T.native_slot result }
    {
        self.values.as_slice()[i]
    }

    /// The values buffer, which an engine can hand on by pointer: one value a slot, whatever the
    /// validity says. What stands at a null is unspecified.
    pub fn values(&self) -> &[T]
        ensures count { length result.now ≡ length self.now.slots }
        ensures slots { (k : ℕ) → k < length self.now.slots
            → IsTrue (is_held (slot_at self.now.slots k))
            → slot_at self.now.slots k ≡ native_at T.native_slot result.now k }
    {
        self.values.as_slice()
    }

    /// The `count` slots from index `offset` on. It shares the buffers.
    ///
    /// `OutOfMemory` alone.
    pub fn slice(&self, alloc: Global, offset: usize, count: usize) -> Result<PrimitiveArray<T>>
        requires { offset + count ≤ length self.now.slots }
        ensures data_type { IfOk result (λ a. a.data_type ≡ self.now.data_type) }
        ensures slots { IfOk result (λ a. a.slots ≡ take count (drop offset self.now.slots)) }
        ensures memory { OnlyOutOfMemory result }
    {
        let len = self.len();
        let parts = slice_with_type(alloc, &self.data_type, &self.validity, len, offset, count);
        let (values, (data_type, validity)) = both(self.values.slice(offset, count), parts)?;
        Ok(PrimitiveArray {
            data_type,
            values,
            validity,
        })
    }
}

impl<T: Ranged> PrimitiveArray<T> {
    /// Tells that each slot is one of the data type.
    pub(crate) fn slots_are_typed(&self)
        ensures { All (SlotOf self.now.data_type) self.now.slots }
    {
        tell_ranges(self.values.as_slice());
    }
}
