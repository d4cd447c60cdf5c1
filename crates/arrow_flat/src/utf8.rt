//! A builder of strings.

ghost use Rattle.std.specs.Prelude.{◌≡◌, ◌+◌, ◌<◌, ◌≤◌, ◌++◌, ◌∷◌, [], ◌⊎◌, ◌↔◌, length};
ghost use Rattle.std.specs.Prelude.{Err, IsOk, IfOk, IfErr, OnOk, OnErr};
ghost use Rattle.std.specs.Option.{option_copied};
ghost use Rattle.arrow_core.specs.Errors.{OnlyOutOfMemory};
ghost use Rattle.arrow_core.specs.declared.error.Error.TheVariants.{OutOfMemory, Overflow};
ghost use Rattle.arrow_core.specs.Numbers.{greatest_offset};
ghost use Rattle.arrow_core.specs.declared.slot.Slot.TheVariants.{String as StringSlot};
ghost use Rattle.arrow_flat.specs.Builders.{content_node, optional_slot};
ghost use Rattle.arrow_flat.specs.Contents.{content_len};
ghost use Rattle.arrow_flat.specs.Nodes.{KeepsCapacity};
ghost use Rattle.arrow_flat.specs.Normalized.{AreNormalized};

use crate::bitmap::MutableBitmap;
use crate::content::{Content, MutableContentArray, first_offset};
use arrow_array::Utf8Array;
use arrow_core::{DataType, Offset, Result};
use std::mem;

/// Strings: the bytes of each slot are UTF-8.
#[derive(Clone, Copy)]
pub struct Utf8Values;

impl Content for Utf8Values {
    ghost use Rattle.std.specs.Prelude.{[], refl};
    ghost use Rattle.std.specs.Str.{IsUtf8};
    ghost use Rattle.arrow_core.specs.declared.slot.Slot.TheVariants.{String as StringSlot};
    ghost use Rattle.arrow_array.specs.Parts.{utf8_type};

    ghost holds = { IsUtf8 };

    ghost slot = { StringSlot };

    ghost content_type = { utf8_type };

    fn data_type(is_large: bool) -> DataType {
        if is_large {
            DataType::LargeUtf8
        } else {
            DataType::Utf8
        }
    }

    ghost holds_nothing = { ([], (refl, refl)) };
}

/// A builder of strings.
///
/// The offsets of `i32` make the type Utf8, and those of `i64` LargeUtf8.
pub type MutableUtf8Array<O> = MutableContentArray<Utf8Values, O>;

impl<O: Offset> MutableContentArray<Utf8Values, O> {
    /// Appends a slot, null for `None`.
    ///
    /// `Overflow` exactly where the strings would have more bytes together than the greatest
    /// offset, 2^31 - 1 or 2^63 - 1; it changes nothing. `OutOfMemory` leaves slots and bytes as
    /// they are.
    #[inline(always)]
    pub fn push(&mut self, value: Option<&str>) -> Result<()>
        ensures data_type { self.new.data_type ≡ self.old.data_type }
        ensures ok { OnOk result (self.new.slots
            ≡ self.old.slots ++ optional_slot StringSlot (option_copied value.entry) ∷ []) }
        ensures bytes { OnOk result (self.new.bytes
            ≡ self.old.bytes + content_len (option_copied value.entry)) }

        ensures errors { IfErr result (λ e. (e ≡ Overflow) ⊎ (e ≡ OutOfMemory)) }
        ensures overflow { (result ≡ Err Overflow)
            ↔ (greatest_offset O.IS_LARGE
            < self.old.bytes + content_len (option_copied value.entry)) }
        ensures overflow_kept { result ≡ Err Overflow → self.new ≡ self.old }
        ensures slots_kept { OnErr result (self.new.slots ≡ self.old.slots) }
        ensures bytes_kept { OnErr result (self.new.bytes ≡ self.old.bytes) }

        // Where only slots lack capacity, not even the capacity changes.
        ensures kept { OnErr result (content_len (option_copied value.entry) ≤ self.old.byte_spare
            → self.new ≡ self.old) }

        ensures capacity { KeepsCapacity (content_node self.old) (content_node self.new) }
        ensures has_capacity { 1 ≤ self.old.spare
            → content_len (option_copied value.entry) ≤ self.old.byte_spare
            → self.old.bytes + content_len (option_copied value.entry) ≤ greatest_offset O.IS_LARGE
            → IsOk result }
    {
        match value {
            None => self.push_slot(&[], false),
            Some(string) => self.push_slot(string.as_bytes(), true),
        }
    }

    /// The array of the slots, over the builder's buffers, which hold nothing else. The builder is
    /// then empty.
    ///
    /// After `OutOfMemory` the builder may have lost its slots.
    pub fn as_box(&mut self) -> Result<Utf8Array<O>>
        ensures data_type { self.new.data_type ≡ self.old.data_type }
        ensures array_type { IfOk result (λ a. a.data_type ≡ self.old.data_type) }
        ensures array_slots { IfOk result (λ a. a.slots ≡ self.old.slots) }
        ensures normalized { IfOk result (λ a. AreNormalized a.offsets (length a.bytes)) }
        ensures emptied { OnOk result (self.new.slots ≡ []) }
        ensures no_bytes { OnOk result (self.new.bytes ≡ 0) }
        ensures memory { OnlyOutOfMemory result }
    {
        let first = first_offset(self.alloc, 1)?;
        let offsets = mem::replace(&mut self.offsets, first);
        let values = mem::replace(&mut self.values, Vec::new(self.alloc));
        let validity = mem::replace(&mut self.validity, MutableBitmap::new(self.alloc));
        let validity = validity.freeze()?;
        let data_type = self.data_type.try_clone(self.alloc)?;
        Utf8Array::from_parts(data_type, offsets, values, Some(validity))
    }
}
