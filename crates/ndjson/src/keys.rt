//! Dictionaries that are made of columns (Arrow columnar format, "Dictionary-encoded Layout").
ghost use Rattle.std.specs.Prelude.{◌≡◌, IfOk};
ghost use Rattle.arrow_array.specs.Arrays.{array_slots, array_type};
ghost use Rattle.arrow_array.specs.Dictionaries.{keys_slots};
ghost use Rattle.arrow_dictionaries.specs.Encoding.{EncodesSlots, HasFirstValues};

use arrow_array::{Array, DictionaryArray, Keys};
use arrow_core::{DataType, IntegerType};
use arrow_dictionaries::{encode_primitives, encode_strings};
use json_line::GivenUp;
use std::alloc::Global;

// The keys and the distinct values of a column. It is given up where it is of another kind than a
// dictionary's values, and where there are more distinct values than the key type has numbers from 0
// on.
fn encode(alloc: Global, key: IntegerType, column: &Array) -> Result<(Keys, Array), GivenUp>
    ensures { IfOk result (λ p. EncodesSlots (array_slots column.now) (keys_slots p.0)
        (array_slots p.1)) }
{
    match column {
        Array::Int8(integers) => {
            let (keys, items) = encode_primitives(alloc, integers, key)?;
            Ok((keys, Array::Int8(items)))
        }
        Array::Int16(integers) => {
            let (keys, items) = encode_primitives(alloc, integers, key)?;
            Ok((keys, Array::Int16(items)))
        }
        Array::Int32(integers) => {
            let (keys, items) = encode_primitives(alloc, integers, key)?;
            Ok((keys, Array::Int32(items)))
        }
        Array::Int64(integers) => {
            let (keys, items) = encode_primitives(alloc, integers, key)?;
            Ok((keys, Array::Int64(items)))
        }
        Array::Utf8(strings) => {
            let (keys, items) = encode_strings::<i32, i32>(alloc, strings, key)?;
            Ok((keys, Array::Utf8(items)))
        }
        Array::LargeUtf8(strings) => {
            let (keys, items) = encode_strings::<i64, i64>(alloc, strings, key)?;
            Ok((keys, Array::LargeUtf8(items)))
        }
        _ => Err(GivenUp),
    }
}

/// The dictionary of this type that has the slots of the column. Its values are its distinct slots
/// but null, in order of first appearance.
pub(crate) fn dictionary_of(
    alloc: Global,
    key: IntegerType,
    data_type: &DataType,
    column: &Array,
) -> Result<Array, GivenUp>
    ensures data_type { IfOk result (λ a. array_type a ≡ data_type.now) }
    ensures slots { IfOk result (λ a. array_slots a ≡ array_slots column.now) }
    ensures dictionaries { IfOk result HasFirstValues }
{
    let data_type = data_type.try_clone(alloc)?;
    let (keys, items) = encode(alloc, key, column)?;
    let array = DictionaryArray::try_new(alloc, data_type, keys, items)?;
    Ok(Array::Dictionary(array))
}
