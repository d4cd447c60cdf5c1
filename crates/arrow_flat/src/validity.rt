//! Which slots of a builder are valid.

ghost use Rattle.std.specs.Prelude.{◌≡◌, ◌+◌, ◌≤◌, ◌++◌, ◌∷◌, [], length, true, replicate, IsOk, IfOk, OnOk, OnErr};
ghost use Rattle.arrow_flat.specs.Bits.{Tells};
ghost use Rattle.arrow_core.specs.Errors.{OnlyOutOfMemory};

use crate::bitmap::MutableBitmap;
use arrow_array::Bitmap;
use arrow_core::Result;
use std::alloc::{AllocError, Global};
use std::marker::Model;

/// Which slots are valid, one boolean for each.
///
/// While none is null no bit is written: slots are counted, within capacity that is made for their
/// bits. The bits are written at the first null, and from then on one for each slot.
#[derive(Drop)]
pub(crate) struct MutableValidity {
    bits: MutableBitmap,
    // Where no bit is written, for how many there is capacity, and how many of these aren't counted
    // yet. Else both are 0.
    capacity: usize,
    free: usize,
}

impl Model for MutableValidity {
    ghost use Rattle.std.specs.Prelude.{Bool, true, ◌-◌, ◌++◌, replicate};
    ghost use Rattle.std.specs.Coded.{coded_bool};
    ghost use Rattle.arrow_flat.specs.Capacity.{Growing, growing_code};
    ghost use Rattle.arrow_flat.specs.Bits.{CountsDown};

    ghost Value = { Growing Bool };

    ghost coded = { growing_code coded_bool };

    ghost view = { λ v. record {
      items = v.bits.items ++ replicate (v.capacity - v.free) true;
      spare = v.bits.spare - (v.capacity - v.free);
    } };

    ghost invariant = { λ v. CountsDown v.bits.items v.bits.spare v.capacity v.free };
}

/// Writes so many bits of valid slots, for which there is spare capacity.
#[cold]
#[inline(never)]
fn write_valid(bits: &mut MutableBitmap, count: usize)
    requires { count ≤ bits.old.spare }
    ensures items { bits.new.items ≡ bits.old.items ++ replicate count true }
    ensures capacity { bits.new.spare + count ≡ bits.old.spare }
{
    for _ in 0..count {
        bits.push_reserved(true);
    }
}

impl MutableValidity {
    /// Of no slots. It takes no memory.
    pub fn new(alloc: Global) -> MutableValidity
        ensures { result.items ≡ [] }
    {
        let bits = MutableBitmap::new(alloc);
        let capacity = bits.capacity();
        MutableValidity {
            bits,
            capacity,
            free: capacity,
        }
    }

    /// Makes spare capacity for so many more slots. An error changes nothing.
    pub fn reserve(&mut self, additional: usize) -> std::result::Result<(), AllocError>
        ensures items { self.new.items ≡ self.old.items }
        ensures capacity { self.old.spare ≤ self.new.spare }
        ensures ok { OnOk result (additional ≤ self.new.spare) }
        ensures err { OnErr result (self.new ≡ self.old) }
        ensures succeeds { additional ≤ self.old.spare → IsOk result }
    {
        if additional <= self.free {
            return Ok(());
        }
        let counted = self.capacity - self.free;
        let Some(wanted) = counted.checked_add(additional) else {
            return Err(AllocError);
        };
        self.bits.reserve(wanted)?;
        if self.bits.len() == 0 {
            self.capacity = self.bits.capacity();
            self.free = self.capacity - counted;
        }
        Ok(())
    }

    /// Appends whether one more slot is valid. An error changes nothing.
    #[inline(always)]
    pub fn push(&mut self, is_valid: bool) -> std::result::Result<(), AllocError>
        ensures ok { OnOk result (self.new.items ≡ self.old.items ++ is_valid ∷ []) }
        ensures err { OnErr result (self.new ≡ self.old) }
        ensures capacity { length self.old.items + self.old.spare
            ≤ length self.new.items + self.new.spare }
        ensures succeeds { 1 ≤ self.old.spare → IsOk result }
    {
        if is_valid && self.free > 0 {
            self.free -= 1;
            return Ok(());
        }
        if self.bits.push_within(is_valid) {
            return Ok(());
        }
        self.push_bit(is_valid)
    }

    /// Appends that one more slot is valid, for which there is spare capacity.
    #[inline(always)]
    pub fn push_valid_reserved(&mut self)
        requires { 1 ≤ self.old.spare }
        ensures items { self.new.items ≡ self.old.items ++ true ∷ [] }
        ensures capacity { self.new.spare + 1 ≡ self.old.spare }
    {
        if self.free > 0 {
            self.free -= 1;
        } else {
            self.bits.push_reserved(true);
        }
    }

    /// `push`, where the bit begins a word, or no bit is written yet.
    #[inline(never)]
    fn push_bit(&mut self, is_valid: bool) -> std::result::Result<(), AllocError>
        ensures ok { OnOk result (self.new.items ≡ self.old.items ++ is_valid ∷ []) }
        ensures err { OnErr result (self.new ≡ self.old) }
        ensures capacity { length self.old.items + self.old.spare
            ≤ length self.new.items + self.new.spare }
        ensures succeeds { 1 ≤ self.old.spare → IsOk result }
    {
        if self.bits.len() == 0 {
            return self.begin(is_valid);
        }
        self.bits.reserve_one()?;
        self.bits.push_reserved(is_valid);
        Ok(())
    }

    /// `push`, where no bit is written yet: makes more capacity to count in, or writes the bits of
    /// the slots so far.
    #[cold]
    #[inline(never)]
    fn begin(&mut self, is_valid: bool) -> std::result::Result<(), AllocError>
        ensures ok { OnOk result (self.new.items ≡ self.old.items ++ is_valid ∷ []) }
        ensures err { OnErr result (self.new ≡ self.old) }
        ensures capacity { length self.old.items + self.old.spare
            ≤ length self.new.items + self.new.spare }
        ensures succeeds { 1 ≤ self.old.spare → IsOk result }
    {
        let counted = self.capacity - self.free;
        self.bits.reserve(counted + 1)?;
        if is_valid && self.bits.len() == 0 {
            self.capacity = self.bits.capacity();
            self.free = self.capacity - counted - 1;
            return Ok(());
        }
        write_valid(&mut self.bits, counted);
        self.bits.push_reserved(is_valid);
        self.capacity = 0;
        self.free = 0;
        Ok(())
    }

    /// The bitmap of these booleans, over the same words; `None` where no bit was written,
    /// since all are valid.
    pub fn freeze(self) -> Result<Option<Bitmap>>
        ensures ok { IfOk result (λ validity. Tells validity self.items) }
        ensures err { OnlyOutOfMemory result }
    {
        let MutableValidity {
            bits,
            capacity: _,
            free: _,
        } = self;
        if bits.len() == 0 {
            return Ok(None);
        }
        Ok(Some(bits.freeze()?))
    }

    /// Drops every slot and keeps the capacity.
    pub fn clear(&mut self)
        ensures items { self.new.items ≡ [] }
        ensures capacity { length self.old.items + self.old.spare ≤ self.new.spare }
    {
        self.bits.clear();
        self.capacity = self.bits.capacity();
        self.free = self.capacity;
    }
}
