//! Binary values of one size.
ghost use Rattle.std.specs.Prelude.{◌≡◌, ℕ, ◌+◌, ◌*◌, ◌/◌, ◌<◌, ◌≤◌, ◌↔◌, IsTrue, IfOk, IfErr, length, take, drop, vec_len, All};
ghost use Rattle.std.specs.Option.{option_copied};
ghost use Rattle.arrow_core.specs.Errors.{OnlyOutOfMemory};
ghost use Rattle.arrow_core.specs.declared.error.Error.TheVariants.{OutOfMemory};
ghost use Rattle.arrow_core.specs.declared.slot.Slot.TheVariants.{Binary as BinarySlot};
ghost use Rattle.arrow_array.specs.Kinds.{IsFixedBinaryType};
ghost use Rattle.arrow_array.specs.SlotTypes.{SlotOf};
ghost use Rattle.arrow_array.specs.Slots.{TellsHeld, is_held, slot_at, slots_of, fixed_at};
ghost use Rattle.arrow_array.specs.Parts.{FixedSizeBinaryFits, IsRefusalOf, byte_width};

use crate::Bitmap;
use crate::buffer::{Buffer, run_of};
use crate::drops::{beside, both, drop_both};
use crate::validity::{self, slice_with_type};
use arrow_core::{DataType, Error, Reason, Result};
use std::alloc::Global;
use std::marker::Model;

/// Fixed-size binary values, one after another in a shared buffer (Arrow columnar format,
/// "Fixed-size Primitive Layout").
#[derive(Drop)]
pub struct FixedSizeBinaryArray {
    data_type: DataType,
    size: usize,
    values: Buffer<u8>,
    validity: Option<Bitmap>,
}

impl Model for FixedSizeBinaryArray {
    ghost use Rattle.std.specs.Prelude.{◌≡◌, ◌/◌, length};
    ghost use Rattle.arrow_array.specs.Columns.{Column, column_code};
    ghost use Rattle.arrow_array.specs.Slots.{slots_of, fixed_at};
    ghost use Rattle.arrow_array.specs.Parts.{FixedSizeBinaryFits, byte_width};

    ghost Value = { Column };

    ghost coded = { column_code };

    ghost view = { λ a. record {
      data_type = a.data_type;
      slots = slots_of (fixed_at (byte_width a.data_type) a.values) a.validity 0
          (length a.values / byte_width a.data_type);
    } };

    ghost invariant = { λ a. FixedSizeBinaryFits a.data_type (length a.values) a.validity
        × (a.size ≡ byte_width a.data_type) };
}

/// How many bytes each slot of this type has; 0 where the type isn't FixedSizeBinary.
fn size_of_type(data_type: &DataType) -> usize
    ensures { result ≡ byte_width data_type.now }
{
    match data_type {
        DataType::FixedSizeBinary(size) => *size,
        _ => 0,
    }
}

/// Whether these parts make an array of fixed-size binary values.
fn fits(data_type: &DataType, len: usize, validity: &Option<Bitmap>) -> bool
    ensures { IsTrue result ↔ FixedSizeBinaryFits data_type.now len validity.now }
{
    let size = size_of_type(data_type);
    if size == 0 {
        return false;
    }
    if len % size != 0 {
        return false;
    }
    validity::fits(validity, len / size)
}

impl FixedSizeBinaryArray {
    /// The array of the binary values of `values`, each as long as the type says, null where the
    /// validity is false. It keeps the values.
    ///
    /// `InvalidArgumentError(ArrayParts)` where the type isn't FixedSizeBinary of at least 1 byte,
    /// where the number of bytes isn't a multiple of that, or where a given validity has another
    /// length than the array; `OutOfMemory`.
    pub fn try_new(
        _alloc: Global,
        data_type: DataType,
        values: Vec<u8>,
        validity: Option<Bitmap>,
    ) -> Result<FixedSizeBinaryArray>
        ensures data_type { IfOk result (λ a. a.data_type ≡ data_type) }
        ensures slots { IfOk result
            (λ a. a.slots
            ≡ slots_of (fixed_at (byte_width data_type) values.items) validity 0
            (vec_len values / byte_width data_type)) }
        ensures fits { IfOk result (λ _. FixedSizeBinaryFits data_type (vec_len values) validity) }
        ensures err { IfErr result
            (IsRefusalOf (FixedSizeBinaryFits data_type (vec_len values) validity)) }
    {
        if !fits(&data_type, values.len(), &validity) {
            drop_both((data_type, validity), values);
            return Err(Error::InvalidArgumentError(Reason::ArrayParts));
        }
        let size = size_of_type(&data_type);
        let values = Buffer::try_from_vec(values);
        let (values, data_type, validity) = beside(values, data_type, validity)?;
        Ok(FixedSizeBinaryArray {
            data_type,
            size,
            values,
            validity,
        })
    }

    /// How many slots there are, nulls among them.
    pub fn len(&self) -> usize
        ensures { result ≡ length self.now.slots }
    {
        self.values.len() / self.size
    }

    /// The data type, which is FixedSizeBinary of at least 1 byte.
    pub fn data_type(&self) -> &DataType
        ensures data_type { result.now ≡ self.now.data_type }
        ensures kind { IsFixedBinaryType self.now.data_type }
    {
        &self.data_type
    }

    /// Which slots aren't null. It is `None` only where no slot is null.
    pub fn validity(&self) -> Option<&Bitmap>
        ensures { TellsHeld (option_copied result) self.now.slots }
    {
        self.validity.as_ref()
    }

    /// Whether slot `i` isn't null.
    pub fn is_valid(&self, i: usize) -> bool
        requires { i < length self.now.slots }
        ensures { result ≡ is_held (slot_at self.now.slots i) }
    {
        validity::is_valid(&self.validity, self.len(), i)
    }

    /// The bytes of slot `i`, as many as the type says; at a null, whatever the buffer has there.
    pub fn value(&self, i: usize) -> &[u8]
        requires { i < length self.now.slots }
        ensures slot { IsTrue (is_held (slot_at self.now.slots i))
            → slot_at self.now.slots i ≡ BinarySlot result.now }
        ensures width { length result.now ≡ byte_width self.now.data_type }
    {
        let values = self.values.as_slice();
        let start = i * self.size;
        run_of(values, start, self.size)
    }

    /// The values buffer, which an engine can hand on by pointer: as many bytes a slot as the type
    /// says, whatever the validity says. What stands at a null is unspecified.
    pub fn values(&self) -> &[u8]
        ensures count { length result.now
            ≡ length self.now.slots * byte_width self.now.data_type }
        ensures slots { (k : ℕ) → k < length self.now.slots
            → IsTrue (is_held (slot_at self.now.slots k))
            → slot_at self.now.slots k
            ≡ fixed_at (byte_width self.now.data_type) result.now k }
    {
        self.values.as_slice()
    }

    /// Tells that each slot is one of the data type.
    pub(crate) fn slots_are_typed(&self)
        ensures { All (SlotOf self.now.data_type) self.now.slots }
    {
        let _ = &self.values;
    }

    /// The `count` slots from index `offset` on. It shares the buffers.
    ///
    /// `OutOfMemory` alone.
    pub fn slice(&self, alloc: Global, offset: usize, count: usize) -> Result<FixedSizeBinaryArray>
        requires { offset + count ≤ length self.now.slots }
        ensures data_type { IfOk result (λ a. a.data_type ≡ self.now.data_type) }
        ensures slots { IfOk result (λ a. a.slots ≡ take count (drop offset self.now.slots)) }
        ensures memory { OnlyOutOfMemory result }
    {
        let size = self.size;
        let len = self.values.len() / size;
        let parts = slice_with_type(alloc, &self.data_type, &self.validity, len, offset, count);
        let values = self.values.slice(offset * size, count * size);
        let (values, (data_type, validity)) = both(values, parts)?;
        Ok(FixedSizeBinaryArray {
            data_type,
            size,
            values,
            validity,
        })
    }
}
