//! The keys of a dictionary.
ghost use Rattle.std.specs.Prelude.{◌≡◌, ◌+◌, ◌<◌, ◌≤◌, IfOk, MatchOption, length, pos, take, drop};
ghost use Rattle.std.specs.Option.{option_copied};
ghost use Rattle.arrow_core.specs.Errors.{OnlyOutOfMemory};
ghost use Rattle.arrow_core.specs.declared.error.Error.TheVariants.{OutOfMemory};
ghost use Rattle.arrow_core.specs.declared.slot.Slot.TheVariants.{Integer as IntegerSlot};
ghost use Rattle.arrow_core.specs.Numbers.{IsNegative};
ghost use Rattle.arrow_array.specs.Dictionaries.{IsNoIndex, keys_slots, keys_type};
ghost use Rattle.arrow_array.specs.Slots.{TellsHeld, is_held, slot_at};

use crate::Bitmap;
use crate::primitive::PrimitiveArray;
use arrow_core::{IntegerType, Result};
use std::alloc::Global;

/// The keys of a dictionary, of any integer type.
#[derive(Drop)]
pub enum Keys {
    /// Signed integers of 8 bits.
    Int8(PrimitiveArray<i8>),
    /// Signed integers of 16 bits.
    Int16(PrimitiveArray<i16>),
    /// Signed integers of 32 bits.
    Int32(PrimitiveArray<i32>),
    /// Signed integers of 64 bits.
    Int64(PrimitiveArray<i64>),
    /// Unsigned integers of 8 bits.
    UInt8(PrimitiveArray<u8>),
    /// Unsigned integers of 16 bits.
    UInt16(PrimitiveArray<u16>),
    /// Unsigned integers of 32 bits.
    UInt32(PrimitiveArray<u32>),
    /// Unsigned integers of 64 bits.
    UInt64(PrimitiveArray<u64>),
}

/// A signed key as an index, or `None` where it is negative.
fn index_of(key: i64) -> Option<usize>
    ensures { MatchOption result (IsNegative key) (λ k. key ≡ pos k) }
{
    if key < 0 { None } else { Some(key as usize) }
}

impl Keys {
    /// How many keys there are.
    pub fn len(&self) -> usize
        ensures { result ≡ length (keys_slots self.now) }
    {
        match self {
            Keys::Int8(keys) => keys.len(),
            Keys::Int16(keys) => keys.len(),
            Keys::Int32(keys) => keys.len(),
            Keys::Int64(keys) => keys.len(),
            Keys::UInt8(keys) => keys.len(),
            Keys::UInt16(keys) => keys.len(),
            Keys::UInt32(keys) => keys.len(),
            Keys::UInt64(keys) => keys.len(),
        }
    }

    /// The integer type of the keys.
    pub fn integer_type(&self) -> IntegerType
        ensures { result ≡ keys_type self.now }
    {
        match self {
            Keys::Int8(_) => IntegerType::Int8,
            Keys::Int16(_) => IntegerType::Int16,
            Keys::Int32(_) => IntegerType::Int32,
            Keys::Int64(_) => IntegerType::Int64,
            Keys::UInt8(_) => IntegerType::UInt8,
            Keys::UInt16(_) => IntegerType::UInt16,
            Keys::UInt32(_) => IntegerType::UInt32,
            Keys::UInt64(_) => IntegerType::UInt64,
        }
    }

    /// Which keys aren't null. It is `None` only where no key is null.
    pub fn validity(&self) -> Option<&Bitmap>
        ensures { TellsHeld (option_copied result) (keys_slots self.now) }
    {
        match self {
            Keys::Int8(keys) => keys.validity(),
            Keys::Int16(keys) => keys.validity(),
            Keys::Int32(keys) => keys.validity(),
            Keys::Int64(keys) => keys.validity(),
            Keys::UInt8(keys) => keys.validity(),
            Keys::UInt16(keys) => keys.validity(),
            Keys::UInt32(keys) => keys.validity(),
            Keys::UInt64(keys) => keys.validity(),
        }
    }

    /// Whether key `i` isn't null.
    pub fn is_valid(&self, i: usize) -> bool
        requires { i < length (keys_slots self.now) }
        ensures { result ≡ is_held (slot_at (keys_slots self.now) i) }
    {
        match self {
            Keys::Int8(keys) => keys.is_valid(i),
            Keys::Int16(keys) => keys.is_valid(i),
            Keys::Int32(keys) => keys.is_valid(i),
            Keys::Int64(keys) => keys.is_valid(i),
            Keys::UInt8(keys) => keys.is_valid(i),
            Keys::UInt16(keys) => keys.is_valid(i),
            Keys::UInt32(keys) => keys.is_valid(i),
            Keys::UInt64(keys) => keys.is_valid(i),
        }
    }

    /// Key `i` as an index, or `None` where it is null or negative.
    pub fn index(&self, i: usize) -> Option<usize>
        requires { i < length (keys_slots self.now) }
        ensures { MatchOption result (IsNoIndex (slot_at (keys_slots self.now) i))
            (λ k. slot_at (keys_slots self.now) i ≡ IntegerSlot (pos k)) }
    {
        if !self.is_valid(i) {
            return None;
        }
        match self {
            Keys::Int8(keys) => index_of(keys.value(i) as i64),
            Keys::Int16(keys) => index_of(keys.value(i) as i64),
            Keys::Int32(keys) => index_of(keys.value(i) as i64),
            Keys::Int64(keys) => index_of(keys.value(i)),
            Keys::UInt8(keys) => Some(keys.value(i) as usize),
            Keys::UInt16(keys) => Some(keys.value(i) as usize),
            Keys::UInt32(keys) => Some(keys.value(i) as usize),
            Keys::UInt64(keys) => Some(keys.value(i) as usize),
        }
    }

    /// The `count` keys from index `offset` on. It shares the buffers.
    ///
    /// `OutOfMemory` alone.
    pub fn slice(&self, alloc: Global, offset: usize, count: usize) -> Result<Keys>
        requires { offset + count ≤ length (keys_slots self.now) }
        ensures integer_type { IfOk result (λ cut. keys_type cut ≡ keys_type self.now) }
        ensures slots { IfOk result
            (λ cut. keys_slots cut ≡ take count (drop offset (keys_slots self.now))) }
        ensures memory { OnlyOutOfMemory result }
    {
        Ok(match self {
            Keys::Int8(keys) => Keys::Int8(keys.slice(alloc, offset, count)?),
            Keys::Int16(keys) => Keys::Int16(keys.slice(alloc, offset, count)?),
            Keys::Int32(keys) => Keys::Int32(keys.slice(alloc, offset, count)?),
            Keys::Int64(keys) => Keys::Int64(keys.slice(alloc, offset, count)?),
            Keys::UInt8(keys) => Keys::UInt8(keys.slice(alloc, offset, count)?),
            Keys::UInt16(keys) => Keys::UInt16(keys.slice(alloc, offset, count)?),
            Keys::UInt32(keys) => Keys::UInt32(keys.slice(alloc, offset, count)?),
            Keys::UInt64(keys) => Keys::UInt64(keys.slice(alloc, offset, count)?),
        })
    }
}
