//! The values of a dictionary as arrays.
ghost use Rattle.std.specs.Prelude.{◌≡◌, ◌+◌, ◌<◌, ◌≤◌, ◌++◌, ◌∷◌, [], length, map, sum_by, OnOk, IfOk, IfErr};
ghost use Rattle.arrow_array.specs.Parts.{IsPlain, utf8_type};
ghost use Rattle.arrow_core.specs.Errors.{OnlyOutOfMemory};
ghost use Rattle.arrow_core.specs.Numbers.{greatest_offset};
ghost use Rattle.arrow_core.specs.declared.slot.Slot.TheVariants.{String as StringSlot};
ghost use Rattle.arrow_dictionaries.specs.Encoding.{IsEncodingFault, string_size};
ghost use Rattle.arrow_dictionaries.specs.Indices.{string_slot};

use arrow_array::{PrimitiveArray, Utf8Array};
use arrow_core::{DataType, NativeType, Offset, Result};
use arrow_flat::{Container, MutablePrimitiveArray, MutableUtf8Array};
use std::alloc::Global;

/// The array of these values, of this type.
pub(crate) fn primitive_values<T: NativeType>(
    alloc: Global,
    data_type: &DataType,
    values: &[T],
) -> Result<PrimitiveArray<T>>
    requires plain { IsPlain T.PRIMITIVE data_type.now }
    ensures data_type { IfOk result (λ a. a.data_type ≡ data_type.now) }
    ensures slots { IfOk result (λ a. a.slots ≡ map T.native_slot values.now) }
    ensures memory { OnlyOutOfMemory result }
{
    let builder = MutablePrimitiveArray::<T>::with_capacity(alloc, values.len())?;
    let mut builder = builder.to(data_type.try_clone(alloc)?);
    for value in values {
        builder.push(Some(*value))?;
    }
    builder.as_box()
}

/// Appends a string. `Overflow` exactly where the strings would have more bytes together than the
/// greatest offset.
fn push_string<O: Offset>(builder: &mut MutableUtf8Array<O>, string: &str) -> Result<()>
    ensures data_type { builder.new.data_type ≡ builder.old.data_type }
    ensures ok { OnOk result
        (builder.new.slots ≡ builder.old.slots ++ StringSlot string.now ∷ []) }
    ensures bytes { OnOk result (builder.new.bytes ≡ builder.old.bytes + length string.now) }
    ensures within { OnOk result (builder.new.bytes ≤ greatest_offset O.IS_LARGE) }
    ensures err { IfErr result (IsEncodingFault
        (greatest_offset O.IS_LARGE < builder.old.bytes + length string.now)) }
{
    builder.push(Some(string))
}

/// The array of these strings. `Overflow` exactly where they have more bytes together than the
/// greatest offset.
pub(crate) fn string_values<O: Offset>(alloc: Global, strings: &[&str]) -> Result<Utf8Array<O>>
    ensures data_type { IfOk result (λ a. a.data_type ≡ utf8_type O.IS_LARGE) }
    ensures slots { IfOk result (λ a. a.slots ≡ map string_slot strings.now) }
    ensures counted { OnOk result
        (sum_by string_size (map string_slot strings.now) ≤ greatest_offset O.IS_LARGE) }
    ensures err { IfErr result (IsEncodingFault (greatest_offset O.IS_LARGE
        < sum_by string_size (map string_slot strings.now))) }
{
    let mut builder = MutableUtf8Array::<O>::with_capacity(alloc, strings.len())?;
    for string in strings {
        push_string(&mut builder, *string)?;
    }
    builder.as_box()
}
