//! Keys of a dictionary.
ghost use Rattle.std.specs.Prelude.{◌≡◌, ◌<◌, ◌≤◌, ◌++◌, ◌∷◌, [], ℕ, pos, map, MatchOption, IfSome, OnOk, IfOk, IfErr};
ghost use Rattle.std.specs.List.{All};
ghost use Rattle.arrow_array.specs.Dictionaries.{IsKeyInto, keys_slots, keys_type};
ghost use Rattle.arrow_core.specs.declared.slot.Slot.TheVariants.{Integer as IntegerSlot};
ghost use Rattle.arrow_dictionaries.specs.Encoding.{IsEncodingFault, key_count};
ghost use Rattle.arrow_dictionaries.specs.Indices.{IsKeyFault, IsPast, index_key};

use arrow_array::{Keys, PrimitiveArray};
use arrow_core::{Error, IntegerType, NativeType, Result};
use arrow_flat::{Container, MutablePrimitiveArray};
use std::alloc::Global;

/// A key of a dictionary.
trait Key: NativeType {
    // how many numbers it can be, from 0 on
    ghost count: { ℕ };

    /// The key of an index; `None` exactly where keys don't number so far.
    fn from_index(index: usize) -> Option<Self>
        ensures counts { MatchOption result (count ≤ index) (λ _. index < count) }
        ensures slot { IfSome result (λ key. Self.native_slot key ≡ IntegerSlot (pos index)) };
}

impl Key for i8 {
    ghost count = { 128 };

    fn from_index(index: usize) -> Option<i8> {
        if index <= i8::MAX as usize {
            Some(index as i8)
        } else {
            None
        }
    }
}

impl Key for i16 {
    ghost count = { 32768 };

    fn from_index(index: usize) -> Option<i16> {
        if index <= i16::MAX as usize {
            Some(index as i16)
        } else {
            None
        }
    }
}

impl Key for i32 {
    ghost count = { 2147483648 };

    fn from_index(index: usize) -> Option<i32> {
        if index <= i32::MAX as usize {
            Some(index as i32)
        } else {
            None
        }
    }
}

impl Key for i64 {
    ghost count = { 9223372036854775808 };

    fn from_index(index: usize) -> Option<i64> {
        if index <= i64::MAX as usize {
            Some(index as i64)
        } else {
            None
        }
    }
}

impl Key for u8 {
    ghost count = { 256 };

    fn from_index(index: usize) -> Option<u8> {
        if index <= u8::MAX as usize {
            Some(index as u8)
        } else {
            None
        }
    }
}

impl Key for u16 {
    ghost count = { 65536 };

    fn from_index(index: usize) -> Option<u16> {
        if index <= u16::MAX as usize {
            Some(index as u16)
        } else {
            None
        }
    }
}

impl Key for u32 {
    ghost count = { 4294967296 };

    fn from_index(index: usize) -> Option<u32> {
        if index <= u32::MAX as usize {
            Some(index as u32)
        } else {
            None
        }
    }
}

impl Key for u64 {
    ghost count = { 18446744073709551616 };

    fn from_index(index: usize) -> Option<u64> {
        Some(index as u64)
    }
}

/// Appends the key of an index, and a null where there is none. `Overflow` exactly where keys don't
/// number so far.
fn push_key<K: Key>(builder: &mut MutablePrimitiveArray<K>, index: Option<usize>) -> Result<()>
    ensures ok { OnOk result
        (builder.new.slots ≡ builder.old.slots ++ index_key index ∷ []) }
    ensures within { OnOk result (IsKeyInto K.count (index_key index)) }
    ensures err { IfErr result (IsEncodingFault (IsPast K.count index)) }
{
    match index {
        Some(index) => match K::from_index(index) {
            Some(key) => builder.push(Some(key)),
            None => Err(Error::Overflow),
        },
        None => builder.push(None),
    }
}

/// The keys of indices, null for none. `Overflow` exactly where keys don't number so far.
fn key_array<K: Key>(alloc: Global, indices: &[Option<usize>]) -> Result<PrimitiveArray<K>>
    ensures slots { IfOk result (λ a. a.slots ≡ map index_key indices.now) }
    ensures within { IfOk result (λ a. All (IsKeyInto K.count) a.slots) }
    ensures err { IfErr result (IsKeyFault K.count indices.now) }
{
    let mut builder = MutablePrimitiveArray::<K>::with_capacity(alloc, indices.len())?;
    for index in indices {
        push_key(&mut builder, *index)?;
    }
    builder.as_box()
}

/// The same of this integer type.
pub(crate) fn keys_of(alloc: Global, key: IntegerType, indices: &[Option<usize>]) -> Result<Keys>
    ensures key { IfOk result (λ keys. keys_type keys ≡ key) }
    ensures slots { IfOk result (λ keys. keys_slots keys ≡ map index_key indices.now) }
    ensures within { IfOk result (λ keys. All (IsKeyInto (key_count key)) (keys_slots keys)) }
    ensures err { IfErr result (IsKeyFault (key_count key) indices.now) }
{
    match key {
        IntegerType::Int8 => Ok(Keys::Int8(key_array(alloc, indices)?)),
        IntegerType::Int16 => Ok(Keys::Int16(key_array(alloc, indices)?)),
        IntegerType::Int32 => Ok(Keys::Int32(key_array(alloc, indices)?)),
        IntegerType::Int64 => Ok(Keys::Int64(key_array(alloc, indices)?)),
        IntegerType::UInt8 => Ok(Keys::UInt8(key_array(alloc, indices)?)),
        IntegerType::UInt16 => Ok(Keys::UInt16(key_array(alloc, indices)?)),
        IntegerType::UInt32 => Ok(Keys::UInt32(key_array(alloc, indices)?)),
        IntegerType::UInt64 => Ok(Keys::UInt64(key_array(alloc, indices)?)),
    }
}
