//! Nulls.
ghost use Rattle.std.specs.Prelude.{◌≡◌, false, ◌+◌, ◌<◌, ◌≤◌, ◌↔◌, IsTrue, IfOk, IfErr, length, take, drop, None, All};
ghost use Rattle.std.specs.Option.{option_copied};
ghost use Rattle.arrow_core.specs.Errors.{OnlyOutOfMemory};
ghost use Rattle.arrow_core.specs.declared.error.Error.TheVariants.{OutOfMemory};
ghost use Rattle.arrow_core.specs.declared.types.DataType.TheVariants.{Null};
ghost use Rattle.arrow_array.specs.SlotTypes.{SlotOf};
ghost use Rattle.arrow_array.specs.Slots.{is_held, slot_at, slots_of, null_at};
ghost use Rattle.arrow_array.specs.Parts.{IsRefusalOf};

use crate::Bitmap;
use crate::drops::drop_both;
use arrow_core::{DataType, Error, Reason, Result};
use std::alloc::Global;
use std::marker::Model;

/// Nulls, which need no buffer (Arrow columnar format, "Null Layout").
#[derive(Drop)]
pub struct NullArray {
    data_type: DataType,
    count: usize,
}

impl Model for NullArray {
    ghost use Rattle.std.specs.Prelude.{◌≡◌, None};
    ghost use Rattle.arrow_core.specs.declared.types.DataType.TheVariants.{Null};
    ghost use Rattle.arrow_array.specs.Columns.{Column, column_code};
    ghost use Rattle.arrow_array.specs.Slots.{slots_of, null_at};

    ghost Value = { Column };

    ghost coded = { column_code };

    ghost view = { λ a. record {
      data_type = a.data_type;
      slots = slots_of null_at None 0 a.count;
    } };

    ghost invariant = { λ a. a.data_type ≡ Null };
}

/// Whether this is the type of nulls.
fn is_null_type(data_type: &DataType) -> bool
    ensures { IsTrue result ↔ (data_type.now ≡ Null) }
{
    matches!(data_type, DataType::Null)
}

impl NullArray {
    /// The array of so many nulls.
    ///
    /// `InvalidArgumentError(ArrayParts)` where the type isn't Null.
    pub fn try_new(_alloc: Global, data_type: DataType, count: usize) -> Result<NullArray>
        ensures data_type { IfOk result (λ a. a.data_type ≡ data_type) }
        ensures slots { IfOk result (λ a. a.slots ≡ slots_of null_at None 0 count) }
        ensures fits { IfOk result (λ _. data_type ≡ Null) }
        ensures err { IfErr result (IsRefusalOf (data_type ≡ Null)) }
    {
        if !is_null_type(&data_type) {
            drop_both(data_type, count);
            return Err(Error::InvalidArgumentError(Reason::ArrayParts));
        }
        Ok(NullArray { data_type, count })
    }

    /// How many slots there are. Each is null.
    pub fn len(&self) -> usize
        ensures { result ≡ length self.now.slots }
    {
        self.count
    }

    /// The data type, which is Null.
    pub fn data_type(&self) -> &DataType
        ensures data_type { result.now ≡ self.now.data_type }
        ensures kind { self.now.data_type ≡ Null }
    {
        &self.data_type
    }

    /// `None`, although each slot is null: such an array keeps no validity.
    pub fn validity(&self) -> Option<&Bitmap>
        ensures { option_copied result ≡ None }
    {
        None
    }

    /// Whether slot `i` isn't null: never.
    pub fn is_valid(&self, i: usize) -> bool
        requires { i < length self.now.slots }
        ensures held { result ≡ is_held (slot_at self.now.slots i) }
        ensures never { result ≡ false }
    {
        // The slots are `count` nulls.
        let _ = &self.count;
        false
    }

    /// Tells that each slot is one of the data type.
    pub(crate) fn slots_are_typed(&self)
        ensures { All (SlotOf self.now.data_type) self.now.slots }
    {
        // The slots are `count` nulls.
        let _ = &self.count;
    }

    /// The `count` slots from index `offset` on.
    ///
    /// `OutOfMemory` alone.
    pub fn slice(&self, alloc: Global, _offset: usize, count: usize) -> Result<NullArray>
        requires { _offset + count ≤ length self.now.slots }
        ensures data_type { IfOk result (λ a. a.data_type ≡ self.now.data_type) }
        ensures slots { IfOk result (λ a. a.slots ≡ take count (drop _offset self.now.slots)) }
        ensures memory { OnlyOutOfMemory result }
    {
        let data_type = self.data_type.try_clone(alloc)?;
        Ok(NullArray { data_type, count })
    }
}
