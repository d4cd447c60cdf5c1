//! Binary values.
ghost use Rattle.std.specs.Prelude.{◌≡◌, ℕ, ◌+◌, ◌-◌, ◌<◌, ◌≤◌, ◌↔◌, IsTrue, IfOk, IfErr, length, map, take, drop, vec_len, All};
ghost use Rattle.std.specs.Option.{option_copied};
ghost use Rattle.arrow_core.specs.Errors.{OnlyOutOfMemory};
ghost use Rattle.arrow_core.specs.declared.error.Error.TheVariants.{OutOfMemory};
ghost use Rattle.arrow_core.specs.declared.slot.Slot.TheVariants.{Binary as BinarySlot};
ghost use Rattle.arrow_array.specs.Offsets.{IsOffsets};
ghost use Rattle.arrow_array.specs.SlotTypes.{SlotOf};
ghost use Rattle.arrow_array.specs.Slots.{TellsHeld, is_held, slot_at, slots_of, binary_at};
ghost use Rattle.arrow_array.specs.Parts.{BinaryFits, IsRefusalOf, binary_type};

use crate::Bitmap;
use crate::buffer::Buffer;
use crate::drops::{beside, both, drop_both};
use crate::offsets::{are_offsets, part_of};
use crate::ranges::{RangedOffset, tell_offset_ranges};
use crate::validity::{self, slice_with_type};
use arrow_core::{DataType, Error, Offset, Reason, Result};
use std::alloc::Global;
use std::marker::Model;

/// Binary values, which lie one after another in a shared buffer, between shared offsets
/// (Arrow columnar format, "Variable-size Binary Layout").
///
/// The offsets of `i32` make the type Binary, and those of `i64` LargeBinary.
#[derive(Drop)]
pub struct BinaryArray<O: Offset> {
    data_type: DataType,
    offsets: Buffer<O>,
    values: Buffer<u8>,
    validity: Option<Bitmap>,
}

impl<O: Offset> Model for BinaryArray<O> {
    ghost use Rattle.std.specs.Prelude.{◌-◌, length, map};
    ghost use Rattle.arrow_array.specs.Columns.{ContentColumn, content_column_code};
    ghost use Rattle.arrow_array.specs.Slots.{slots_of, binary_at};
    ghost use Rattle.arrow_array.specs.Parts.{BinaryFits, binary_type};

    ghost Value = { ContentColumn };

    ghost coded = { content_column_code };

    ghost view = { λ a. record {
      data_type = a.data_type;
      slots = slots_of (binary_at (map O.number a.offsets) a.values) a.validity 0
          (length (map O.number a.offsets) - 1);
      offsets = map O.number a.offsets;
      bytes = a.values;
    } };

    ghost invariant = { λ a. BinaryFits (binary_type O.IS_LARGE) a.data_type
        (map O.number a.offsets) (length a.values) a.validity };
}

/// Whether this is the type of binary values with such offsets.
fn is_binary_type<O: Offset>(data_type: &DataType) -> bool
    ensures { IsTrue result ↔ (data_type.now ≡ binary_type O.IS_LARGE) }
{
    if O::IS_LARGE {
        matches!(data_type, DataType::LargeBinary)
    } else {
        matches!(data_type, DataType::Binary)
    }
}

/// Whether these parts make an array of binary values.
fn fits<O: Offset>(
    data_type: &DataType,
    offsets: &[O],
    values_len: usize,
    validity: &Option<Bitmap>,
) -> bool
    ensures { IsTrue result
        ↔ BinaryFits (binary_type O.IS_LARGE) data_type.now (map O.number offsets.now) values_len
        validity.now }
{
    if !is_binary_type::<O>(data_type) {
        return false;
    }
    if !are_offsets(offsets, values_len) {
        return false;
    }
    validity::fits(validity, offsets.len() - 1)
}

impl<O: Offset> BinaryArray<O> {
    /// The array of the bytes between each two neighbouring offsets into `values`, null where the
    /// validity is false. It keeps the values.
    ///
    /// `InvalidArgumentError(ArrayParts)` where the type isn't that of such offsets; where there is
    /// no offset, or one is negative, below the one before, or past the end; or where a given
    /// validity hasn't one value fewer than there are offsets. `OutOfMemory`.
    pub fn try_new(
        _alloc: Global,
        data_type: DataType,
        offsets: Vec<O>,
        values: Vec<u8>,
        validity: Option<Bitmap>,
    ) -> Result<BinaryArray<O>>
        ensures data_type { IfOk result (λ a. a.data_type ≡ data_type) }
        ensures slots { IfOk result
            (λ a. a.slots
            ≡ slots_of (binary_at (map O.number offsets.items) values.items) validity 0
            (vec_len offsets - 1)) }
        ensures offsets { IfOk result (λ a. a.offsets ≡ map O.number offsets.items) }
        ensures bytes { IfOk result (λ a. a.bytes ≡ values.items) }
        ensures fits { IfOk result
            (λ _. BinaryFits (binary_type O.IS_LARGE) data_type (map O.number offsets.items)
            (vec_len values) validity) }
        ensures err { IfErr result
            (IsRefusalOf
            (BinaryFits (binary_type O.IS_LARGE) data_type (map O.number offsets.items)
            (vec_len values) validity)) }
    {
        if !fits(&data_type, offsets.as_slice(), values.len(), &validity) {
            drop_both((data_type, validity), (offsets, values));
            return Err(Error::InvalidArgumentError(Reason::ArrayParts));
        }
        BinaryArray::from_parts(data_type, offsets, values, validity)
    }

    /// The array of parts that fit, as `try_new` gives it, without a look at the offsets.
    ///
    /// `OutOfMemory` alone.
    pub fn from_parts(
        data_type: DataType,
        offsets: Vec<O>,
        values: Vec<u8>,
        validity: Option<Bitmap>,
    ) -> Result<BinaryArray<O>>
        requires { BinaryFits (binary_type O.IS_LARGE) data_type (map O.number offsets.items)
            (vec_len values) validity }
        ensures data_type { IfOk result (λ a. a.data_type ≡ data_type) }
        ensures slots { IfOk result
            (λ a. a.slots
            ≡ slots_of (binary_at (map O.number offsets.items) values.items) validity 0
            (vec_len offsets - 1)) }
        ensures offsets { IfOk result (λ a. a.offsets ≡ map O.number offsets.items) }
        ensures bytes { IfOk result (λ a. a.bytes ≡ values.items) }
        ensures err { OnlyOutOfMemory result }
    {
        let content = both(Buffer::try_from_vec(offsets), Buffer::try_from_vec(values));
        let ((offsets, values), data_type, validity) = beside(content, data_type, validity)?;
        Ok(BinaryArray {
            data_type,
            offsets,
            values,
            validity,
        })
    }

    /// How many slots there are, nulls among them.
    pub fn len(&self) -> usize
        ensures { result ≡ length self.now.slots }
    {
        self.offsets.len() - 1
    }

    /// The data type: Binary with offsets of 32 bits, and LargeBinary with those of 64.
    pub fn data_type(&self) -> &DataType
        ensures data_type { result.now ≡ self.now.data_type }
        ensures kind { self.now.data_type ≡ binary_type O.IS_LARGE }
    {
        &self.data_type
    }

    /// The offsets of the slots, one more than there are slots: a slot that isn't null is the
    /// bytes between its offset and the next in `values`.
    pub fn offsets(&self) -> &[O]
        ensures offsets { map O.number result.now ≡ self.now.offsets }
        ensures fit { IsOffsets (map O.number result.now) (length self.now.bytes) }
        ensures count { length result.now ≡ length self.now.slots + 1 }
        ensures slots { (k : ℕ) → k < length self.now.slots
            → IsTrue (is_held (slot_at self.now.slots k))
            → slot_at self.now.slots k ≡ binary_at (map O.number result.now) self.now.bytes k }
    {
        self.offsets.as_slice()
    }

    /// The bytes that the slots lie in.
    pub fn values(&self) -> &[u8]
        ensures { result.now ≡ self.now.bytes }
    {
        self.values.as_slice()
    }

    /// Which slots aren't null. It is `None` only where no slot is null.
    pub fn validity(&self) -> Option<&Bitmap>
        ensures { TellsHeld (option_copied result) self.now.slots }
    {
        self.validity.as_ref()
    }

    /// Whether slot `i` isn't null.
    pub fn is_valid(&self, i: usize) -> bool
        requires { i < length self.now.slots }
        ensures { result ≡ is_held (slot_at self.now.slots i) }
    {
        validity::is_valid(&self.validity, self.len(), i)
    }

    /// The bytes of slot `i`; at a null, whatever the buffer has there.
    pub fn value(&self, i: usize) -> &[u8]
        requires { i < length self.now.slots }
        ensures { IsTrue (is_held (slot_at self.now.slots i))
            → slot_at self.now.slots i ≡ BinarySlot result.now }
    {
        part_of(self.offsets.as_slice(), self.values.as_slice(), i)
    }

    /// The `count` slots from index `offset` on. It shares the buffers.
    ///
    /// `OutOfMemory` alone.
    pub fn slice(&self, alloc: Global, offset: usize, count: usize) -> Result<BinaryArray<O>>
        requires { offset + count ≤ length self.now.slots }
        ensures data_type { IfOk result (λ a. a.data_type ≡ self.now.data_type) }
        ensures slots { IfOk result (λ a. a.slots ≡ take count (drop offset self.now.slots)) }
        ensures offsets { IfOk result
            (λ a. a.offsets ≡ take (count + 1) (drop offset self.now.offsets)) }
        ensures bytes { IfOk result (λ a. a.bytes ≡ self.now.bytes) }
        ensures memory { OnlyOutOfMemory result }
    {
        let len = self.len();
        let parts = slice_with_type(alloc, &self.data_type, &self.validity, len, offset, count);
        let content = both(
            self.offsets.slice_and_next(offset, count),
            self.values.try_clone(),
        );
        let ((offsets, values), (data_type, validity)) = both(content, parts)?;
        Ok(BinaryArray {
            data_type,
            offsets,
            values,
            validity,
        })
    }
}

impl<O: RangedOffset> BinaryArray<O> {
    /// Tells that each slot is one of the data type.
    pub(crate) fn slots_are_typed(&self)
        ensures { All (SlotOf self.now.data_type) self.now.slots }
    {
        tell_offset_ranges(self.offsets.as_slice());
    }
}
