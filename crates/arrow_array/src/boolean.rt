//! Booleans.
ghost use Rattle.std.specs.Prelude.{◌≡◌, ℕ, ◌+◌, ◌<◌, ◌≤◌, ◌↔◌, IsTrue, IfOk, IfErr, length, take, drop, vec_len, All};
ghost use Rattle.std.specs.Option.{option_copied};
ghost use Rattle.arrow_core.specs.Errors.{OnlyOutOfMemory};
ghost use Rattle.arrow_core.specs.declared.error.Error.TheVariants.{OutOfMemory};
ghost use Rattle.arrow_core.specs.declared.slot.Slot.TheVariants.{Boolean as BooleanSlot};
ghost use Rattle.arrow_core.specs.declared.types.DataType.TheVariants.{Boolean as BooleanType};
ghost use Rattle.arrow_array.specs.SlotTypes.{SlotOf};
ghost use Rattle.arrow_array.specs.Slots.{TellsHeld, is_held, slot_at, slots_of, boolean_at};
ghost use Rattle.arrow_array.specs.Parts.{BooleanFits, IsRefusalOf};

use crate::Bitmap;
use crate::drops::{beside, both, drop_both};
use crate::validity::{self, slice_with_type};
use arrow_core::{DataType, Error, Reason, Result};
use std::alloc::Global;
use std::marker::Model;

/// Booleans, packed in a bitmap (Arrow columnar format, "Fixed-size Primitive Layout").
#[derive(Drop)]
pub struct BooleanArray {
    data_type: DataType,
    values: Bitmap,
    validity: Option<Bitmap>,
}

impl Model for BooleanArray {
    ghost use Rattle.std.specs.Prelude.{length};
    ghost use Rattle.arrow_array.specs.Columns.{Column, column_code};
    ghost use Rattle.arrow_array.specs.Slots.{slots_of, boolean_at};
    ghost use Rattle.arrow_array.specs.Parts.{BooleanFits};

    ghost Value = { Column };

    ghost coded = { column_code };

    ghost view = { λ a. record {
      data_type = a.data_type;
      slots = slots_of (boolean_at a.values.booleans) a.validity 0
          (length a.values.booleans);
    } };

    ghost invariant = { λ a. BooleanFits a.data_type (length a.values.booleans) a.validity };
}

/// Whether these parts make an array of so many booleans.
fn fits(data_type: &DataType, len: usize, validity: &Option<Bitmap>) -> bool
    ensures { IsTrue result ↔ BooleanFits data_type.now len validity.now }
{
    matches!(data_type, DataType::Boolean) && validity::fits(validity, len)
}

impl BooleanArray {
    /// The array of these booleans, one a slot, null where the validity is false.
    ///
    /// `InvalidArgumentError(ArrayParts)` where the type isn't Boolean, or where a given validity
    /// has another length; `OutOfMemory`.
    pub fn try_new(
        alloc: Global,
        data_type: DataType,
        values: Vec<bool>,
        validity: Option<Bitmap>,
    ) -> Result<BooleanArray>
        ensures data_type { IfOk result (λ a. a.data_type ≡ data_type) }
        ensures slots { IfOk result
            (λ a. a.slots ≡ slots_of (boolean_at values.items) validity 0 (vec_len values)) }
        ensures fits { IfOk result (λ _. BooleanFits data_type (vec_len values) validity) }
        ensures err { IfErr result (IsRefusalOf (BooleanFits data_type (vec_len values) validity)) }
    {
        if !fits(&data_type, values.len(), &validity) {
            drop_both((data_type, validity), values);
            return Err(Error::InvalidArgumentError(Reason::ArrayParts));
        }
        let bitmap = Bitmap::try_from_slice(alloc, &values);
        let (values, data_type, validity) = beside(bitmap, data_type, validity)?;
        Ok(BooleanArray {
            data_type,
            values,
            validity,
        })
    }

    /// The array of the booleans of a bitmap, which it keeps. It takes no memory.
    pub fn from_bitmaps(
        data_type: DataType,
        values: Bitmap,
        validity: Option<Bitmap>,
    ) -> BooleanArray
        requires { BooleanFits data_type (length values.booleans) validity }
        ensures data_type { result.data_type ≡ data_type }
        ensures slots { result.slots
            ≡ slots_of (boolean_at values.booleans) validity 0 (length values.booleans) }
    {
        BooleanArray {
            data_type,
            values,
            validity,
        }
    }

    /// How many slots there are, nulls among them.
    pub fn len(&self) -> usize
        ensures { result ≡ length self.now.slots }
    {
        self.values.len()
    }

    /// The data type, which is Boolean.
    pub fn data_type(&self) -> &DataType
        ensures data_type { result.now ≡ self.now.data_type }
        ensures kind { self.now.data_type ≡ BooleanType }
    {
        &self.data_type
    }

    /// Which slots aren't null. It is `None` only where no slot is null.
    pub fn validity(&self) -> Option<&Bitmap>
        ensures { TellsHeld (option_copied result) self.now.slots }
    {
        self.validity.as_ref()
    }

    /// Whether slot `i` isn't null.
    pub fn is_valid(&self, i: usize) -> bool
        requires { i < length self.now.slots }
        ensures { result ≡ is_held (slot_at self.now.slots i) }
    {
        validity::is_valid(&self.validity, self.values.len(), i)
    }

    /// The boolean of slot `i`; at a null, whatever the buffer has there.
    pub fn value(&self, i: usize) -> bool
        requires { i < length self.now.slots }
        ensures { IsTrue (is_held (slot_at self.now.slots i))
            → slot_at self.now.slots i ≡ BooleanSlot result }
    {
        self.values.get(i)
    }

    /// The values bitmap, whose words an engine can hand on by pointer: one boolean a slot,
    /// whatever the validity says. What stands at a null is unspecified.
    pub fn values(&self) -> &Bitmap
        ensures count { length result.now.booleans ≡ length self.now.slots }
        ensures slots { (k : ℕ) → k < length self.now.slots
            → IsTrue (is_held (slot_at self.now.slots k))
            → slot_at self.now.slots k ≡ boolean_at result.now.booleans k }
    {
        &self.values
    }

    /// Tells that each slot is one of the data type.
    pub(crate) fn slots_are_typed(&self)
        ensures { All (SlotOf self.now.data_type) self.now.slots }
    {
        let _ = &self.values;
    }

    /// The `count` slots from index `offset` on. It shares the buffers.
    ///
    /// `OutOfMemory` alone.
    pub fn slice(&self, alloc: Global, offset: usize, count: usize) -> Result<BooleanArray>
        requires { offset + count ≤ length self.now.slots }
        ensures data_type { IfOk result (λ a. a.data_type ≡ self.now.data_type) }
        ensures slots { IfOk result (λ a. a.slots ≡ take count (drop offset self.now.slots)) }
        ensures memory { OnlyOutOfMemory result }
    {
        let len = self.len();
        let parts = slice_with_type(alloc, &self.data_type, &self.validity, len, offset, count);
        let (values, (data_type, validity)) = both(self.values.slice(offset, count), parts)?;
        Ok(BooleanArray {
            data_type,
            values,
            validity,
        })
    }
}
