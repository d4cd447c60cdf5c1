//! Columns of dictionaries.
ghost use Rattle.std.specs.Prelude.{◌≡◌, true, IfOk, IfErr, OnOk};
ghost use Rattle.arrow_array.specs.Arrays.{array_slots, array_type};
ghost use Rattle.arrow_array.specs.Dictionaries.{IsDictionaryOf, keys_slots, keys_type};
ghost use Rattle.arrow_array.specs.Parts.{IsPlain, utf8_type};
ghost use Rattle.arrow_dictionaries.specs.Encoding.{HasFirstValues, HasTooLongStrings};
ghost use Rattle.arrow_core.specs.Numbers.{greatest_offset};
ghost use Rattle.arrow_core.specs.declared.types.DataType.TheVariants.{LargeUtf8 as LargeUtf8Type, Utf8 as Utf8Type};
ghost use Rattle.json_flat.specs.Columns.{AreSlotsOf, IsColumnFault, IsTooLong, lent};
ghost use Rattle.json_flat.specs.Meaning.{text_in, whole_in};
ghost use Rattle.json_columns.specs.Dictionaries.{AreEncoded, AreTooMany, TooManyDistinct};
ghost use Rattle.json_flat.specs.Reading.{is_value_type, reading};

use crate::parts::dictionary_array;
use arrow_array::{Array, Keys, PrimitiveArray, Utf8Array};
use arrow_core::{DataType, IntegerType, Offset, Result};
use arrow_dictionaries::{encode_primitives, encode_strings};
use json_flat::{WholeNumber, read_integers, read_strings};
use json_tree::Value;
use std::alloc::Global;
use std::hash::Hash;

/// The keys and the values of the dictionary of integers.
fn encode_integers<T: WholeNumber + Ord + Hash>(
    alloc: Global,
    key: IntegerType,
    data_type: &DataType,
    values: &[&Value],
) -> Result<(Keys, PrimitiveArray<T>)>
    requires plain { IsPlain T.PRIMITIVE data_type.now }
    ensures key { IfOk result (λ p. keys_type p.0 ≡ key) }
    ensures data_type { IfOk result (λ p. p.1.data_type ≡ data_type.now) }
    ensures slots { IfOk result (λ p. AreEncoded (whole_in T.low T.high) (lent values.now)
        (keys_slots p.0) p.1.slots) }
    ensures counted { OnOk result
        (AreTooMany (whole_in T.low T.high) key (λ _. ⊥) ⊥ (lent values.now) → ⊥) }
    ensures err { IfErr result (IsColumnFault (whole_in T.low T.high)
        (AreTooMany (whole_in T.low T.high) key (λ _. ⊥) ⊥ (lent values.now)) (lent values.now)) }
{
    let array = read_integers::<T>(alloc, values, data_type)?;
    encode_primitives(alloc, &array, key)
}

/// The keys and the values of the dictionary of strings. Equal ones are put together before they
/// are counted by the offsets of `O`.
fn encode_texts<O: Offset>(
    alloc: Global,
    key: IntegerType,
    values: &[&Value],
) -> Result<(Keys, Utf8Array<O>)>
    ensures key { IfOk result (λ p. keys_type p.0 ≡ key) }
    ensures data_type { IfOk result (λ p. p.1.data_type ≡ utf8_type O.IS_LARGE) }
    ensures slots { IfOk result
        (λ p. AreEncoded text_in (lent values.now) (keys_slots p.0) p.1.slots) }
    ensures counted { OnOk result
        (AreTooMany text_in key (HasTooLongStrings (greatest_offset O.IS_LARGE))
        (IsTooLong (greatest_offset true) text_in (lent values.now)) (lent values.now) → ⊥) }
    ensures err { IfErr result (IsColumnFault text_in
        (AreTooMany text_in key (HasTooLongStrings (greatest_offset O.IS_LARGE))
        (IsTooLong (greatest_offset true) text_in (lent values.now)) (lent values.now))
        (lent values.now)) }
{
    let array = read_strings::<i64>(alloc, values)?;
    encode_strings::<i64, O>(alloc, &array, key)
}

/// The same with offsets of 32 bits.
fn encode_utf8(alloc: Global, key: IntegerType, values: &[&Value]) -> Result<(Keys, Array)>
    ensures key { IfOk result (λ p. keys_type p.0 ≡ key) }
    ensures data_type { IfOk result (λ p. array_type p.1 ≡ Utf8Type) }
    ensures slots { IfOk result
        (λ p. AreEncoded text_in (lent values.now) (keys_slots p.0) (array_slots p.1)) }
    ensures counted { OnOk result (TooManyDistinct key Utf8Type (lent values.now) → ⊥) }
    ensures err { IfErr result (IsColumnFault text_in
        (TooManyDistinct key Utf8Type (lent values.now)) (lent values.now)) }
{
    let (keys, items) = encode_texts::<i32>(alloc, key, values)?;
    Ok((keys, Array::Utf8(items)))
}

/// The same with offsets of 64 bits.
fn encode_large_utf8(alloc: Global, key: IntegerType, values: &[&Value]) -> Result<(Keys, Array)>
    ensures key { IfOk result (λ p. keys_type p.0 ≡ key) }
    ensures data_type { IfOk result (λ p. array_type p.1 ≡ LargeUtf8Type) }
    ensures slots { IfOk result
        (λ p. AreEncoded text_in (lent values.now) (keys_slots p.0) (array_slots p.1)) }
    ensures counted { OnOk result (TooManyDistinct key LargeUtf8Type (lent values.now) → ⊥) }
    ensures err { IfErr result (IsColumnFault text_in
        (TooManyDistinct key LargeUtf8Type (lent values.now)) (lent values.now)) }
{
    let (keys, items) = encode_texts::<i64>(alloc, key, values)?;
    Ok((keys, Array::LargeUtf8(items)))
}

/// The keys and the values of the dictionary of values under this type.
fn encode_values(
    alloc: Global,
    key: IntegerType,
    value_type: &DataType,
    values: &[&Value],
) -> Result<(Keys, Array)>
    requires kind { is_value_type value_type.now ≡ true }
    ensures key { IfOk result (λ p. keys_type p.0 ≡ key) }
    ensures data_type { IfOk result (λ p. array_type p.1 ≡ value_type.now) }
    ensures slots { IfOk result (λ p. AreEncoded (reading value_type.now) (lent values.now)
        (keys_slots p.0) (array_slots p.1)) }
    ensures counted { OnOk result (TooManyDistinct key value_type.now (lent values.now) → ⊥) }
    ensures err { IfErr result (IsColumnFault (reading value_type.now)
        (TooManyDistinct key value_type.now (lent values.now)) (lent values.now)) }
{
    match value_type {
        DataType::Int8 => {
            let (keys, items) = encode_integers::<i8>(alloc, key, value_type, values)?;
            Ok((keys, Array::Int8(items)))
        }
        DataType::Int16 => {
            let (keys, items) = encode_integers::<i16>(alloc, key, value_type, values)?;
            Ok((keys, Array::Int16(items)))
        }
        DataType::Int32 => {
            let (keys, items) = encode_integers::<i32>(alloc, key, value_type, values)?;
            Ok((keys, Array::Int32(items)))
        }
        DataType::Int64 => {
            let (keys, items) = encode_integers::<i64>(alloc, key, value_type, values)?;
            Ok((keys, Array::Int64(items)))
        }
        DataType::Utf8 => encode_utf8(alloc, key, values),
        DataType::LargeUtf8 => encode_large_utf8(alloc, key, values),
        _ => unreachable!(),
    }
}

/// The column of a dictionary over this type, with keys of this type: the values are the distinct
/// slots but null, in order of first appearance.
pub(crate) fn read_dictionary(
    alloc: Global,
    key: IntegerType,
    value_type: &DataType,
    data_type: &DataType,
    values: &[&Value],
) -> Result<Array>
    requires kind { IsDictionaryOf key data_type.now value_type.now }
    requires value_type { is_value_type value_type.now ≡ true }
    ensures data_type { IfOk result (λ a. array_type a ≡ data_type.now) }
    ensures slots { IfOk result
        (λ a. AreSlotsOf (reading value_type.now) (lent values.now) (array_slots a)) }
    ensures dictionaries { IfOk result HasFirstValues }
    ensures counted { OnOk result (TooManyDistinct key value_type.now (lent values.now) → ⊥) }
    ensures err { IfErr result (IsColumnFault (reading value_type.now)
        (TooManyDistinct key value_type.now (lent values.now)) (lent values.now)) }
{
    let data_type = data_type.try_clone(alloc)?;
    let (keys, items) = encode_values(alloc, key, value_type, values)?;
    dictionary_array(alloc, data_type, keys, items)
}
