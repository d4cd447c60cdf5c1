//! Arrays as the keys and the values of a dictionary.
ghost use Rattle.std.specs.Prelude.{◌≡◌, ◌⊎◌, [], map, Ok, Err, IsOk, IfOk, IfErr, OnOk};
ghost use Rattle.arrow_array.specs.Dictionaries.{keys_slots, keys_type};
ghost use Rattle.arrow_array.specs.Parts.{utf8_type};
ghost use Rattle.arrow_core.specs.Numbers.{greatest_offset};
ghost use Rattle.arrow_dictionaries.specs.Encoding.{EncodesSlots, HasTooLongStrings, HasTooManyDistinct, IsEncodingFault};
ghost use Rattle.arrow_dictionaries.specs.Indices.{string_slot};

use crate::indices::{primitive_indices, string_indices};
use crate::keys::keys_of;
use crate::values::{primitive_values, string_values};
use arrow_array::{Keys, PrimitiveArray, Utf8Array};
use arrow_core::{IntegerType, NativeType, Offset, Result};
use first_seen::FirstSeen;
use std::alloc::Global;
use std::hash::Hash;

/// Both values, where both are there. In a function of its own over any values, so that no other
/// lets go of keys early.
fn both<A: Drop, B: Drop>(first: Result<A>, second: Result<B>) -> Result<(A, B)>
    ensures first { IfOk result (λ p. first ≡ Ok p.0) }
    ensures second { IfOk result (λ p. second ≡ Ok p.1) }
    ensures err { IfErr result
        (λ e. (first ≡ Err e) ⊎ (IsOk first × (second ≡ Err e))) }
{
    let first = first?;
    let second = second?;
    Ok((first, second))
}

/// The keys of an array's slots, and their distinct values.
fn primitive_keys<T: NativeType + Ord + Hash>(
    alloc: Global,
    distinct: &mut FirstSeen<T>,
    array: &PrimitiveArray<T>,
    key: IntegerType,
) -> Result<Keys>
    requires empty { distinct.old ≡ [] }
    ensures key { IfOk result (λ keys. keys_type keys ≡ key) }
    ensures slots { IfOk result (λ keys. EncodesSlots array.now.slots (keys_slots keys)
        (map T.native_slot distinct.new)) }
    ensures few { OnOk result (HasTooManyDistinct key array.now.slots → ⊥) }
    ensures err { IfErr result (IsEncodingFault (HasTooManyDistinct key array.now.slots)) }
{
    let indices = primitive_indices(alloc, distinct, array)?;
    keys_of(alloc, key, indices.as_slice())
}

/// The keys, of this integer type, and the values of the dictionary of an array's slots (Arrow
/// columnar format, "Dictionary-encoded Layout"). The values are the distinct slots but null, in
/// order of first appearance, in an array of the same data type; the key of a slot is its index
/// among them, and null where the slot is.
///
/// `Overflow` exactly where there are more distinct slots than the keys have numbers from 0 on.
/// `OutOfMemory` may come in place of any answer.
pub fn encode_primitives<T: NativeType + Ord + Hash>(
    alloc: Global,
    array: &PrimitiveArray<T>,
    key: IntegerType,
) -> Result<(Keys, PrimitiveArray<T>)>
    ensures key { IfOk result (λ p. keys_type p.0 ≡ key) }
    ensures data_type { IfOk result (λ p. p.1.data_type ≡ array.now.data_type) }
    ensures slots { IfOk result (λ p. EncodesSlots array.now.slots (keys_slots p.0) p.1.slots) }
    ensures few { OnOk result (HasTooManyDistinct key array.now.slots → ⊥) }
    ensures err { IfErr result (IsEncodingFault (HasTooManyDistinct key array.now.slots)) }
{
    let mut distinct = FirstSeen::<T>::new(alloc);
    let keys = primitive_keys(alloc, &mut distinct, array, key);
    let values = primitive_values(alloc, array.data_type(), distinct.as_slice());
    both(keys, values)
}

/// The keys of an array's slots, and their distinct strings.
fn string_keys<'a, O: Offset>(
    alloc: Global,
    distinct: &mut FirstSeen<&'a str>,
    array: &'a Utf8Array<O>,
    key: IntegerType,
) -> Result<Keys>
    requires empty { distinct.old ≡ [] }
    ensures key { IfOk result (λ keys. keys_type keys ≡ key) }
    ensures slots { IfOk result (λ keys. EncodesSlots array.now.slots (keys_slots keys)
        (map string_slot distinct.new)) }
    ensures few { OnOk result (HasTooManyDistinct key array.now.slots → ⊥) }
    ensures err { IfErr result (IsEncodingFault (HasTooManyDistinct key array.now.slots)) }
{
    let indices = string_indices(alloc, distinct, array)?;
    keys_of(alloc, key, indices.as_slice())
}

/// The same of an array of strings. The offsets of the values are of `P`, whatever those of the
/// array are.
///
/// `Overflow` exactly where there are more distinct slots than the keys have numbers from 0 on, or
/// these have more bytes together than the greatest offset of `P`, 2^31 - 1 or 2^63 - 1.
/// `OutOfMemory` may come in place of any answer.
pub fn encode_strings<O: Offset, P: Offset>(
    alloc: Global,
    array: &Utf8Array<O>,
    key: IntegerType,
) -> Result<(Keys, Utf8Array<P>)>
    ensures key { IfOk result (λ p. keys_type p.0 ≡ key) }
    ensures data_type { IfOk result (λ p. p.1.data_type ≡ utf8_type P.IS_LARGE) }
    ensures slots { IfOk result (λ p. EncodesSlots array.now.slots (keys_slots p.0) p.1.slots) }
    ensures few { OnOk result (HasTooManyDistinct key array.now.slots → ⊥) }
    ensures counted { OnOk result
        (HasTooLongStrings (greatest_offset P.IS_LARGE) array.now.slots → ⊥) }
    ensures err { IfErr result (IsEncodingFault (HasTooManyDistinct key array.now.slots
        ⊎ HasTooLongStrings (greatest_offset P.IS_LARGE) array.now.slots)) }
{
    let mut distinct = FirstSeen::<&str>::new(alloc);
    let keys = string_keys(alloc, &mut distinct, array, key);
    let values = string_values::<P>(alloc, distinct.as_slice());
    both(keys, values)
}
