//! The distinct slots of an array, and for each slot its index among them.
ghost use Rattle.std.specs.Prelude.{◌≡◌, ◌<◌, [], length, map, IfOk};
ghost use Rattle.arrow_array.specs.Slots.{slot_at};
ghost use Rattle.arrow_core.specs.Errors.{OnlyOutOfMemory};
ghost use Rattle.arrow_dictionaries.specs.Encoding.{EncodesSlots};
ghost use Rattle.arrow_dictionaries.specs.Indices.{IsStep, index_key, string_slot};

use arrow_array::{PrimitiveArray, Utf8Array};
use arrow_core::{NativeType, Offset, Result};
use first_seen::FirstSeen;
use std::alloc::Global;
use std::hash::Hash;

/// The index of slot `i` among the distinct values, where a new one goes last; `None` for a null.
fn primitive_index<T: NativeType + Ord + Hash>(
    distinct: &mut FirstSeen<T>,
    array: &PrimitiveArray<T>,
    i: usize,
) -> Result<Option<usize>>
    requires within { i < length array.now.slots }
    ensures step { IfOk result (IsStep (slot_at array.now.slots i)
        (map T.native_slot distinct.old) (map T.native_slot distinct.new)) }
    ensures memory { OnlyOutOfMemory result }
{
    if !array.is_valid(i) {
        return Ok(None);
    }
    let index = distinct.add(array.value(i))?;
    Ok(Some(index))
}

/// For each slot its index among the distinct values, which are then in order of first appearance;
/// `None` for a null.
pub(crate) fn primitive_indices<T: NativeType + Ord + Hash>(
    alloc: Global,
    distinct: &mut FirstSeen<T>,
    array: &PrimitiveArray<T>,
) -> Result<Vec<Option<usize>>>
    requires empty { distinct.old ≡ [] }
    ensures indices { IfOk result (λ indices. EncodesSlots array.now.slots
        (map index_key indices.items) (map T.native_slot distinct.new)) }
    ensures memory { OnlyOutOfMemory result }
{
    let len = array.len();
    let mut indices = Vec::with_capacity(alloc, len)?;
    for i in 0..len {
        let index = primitive_index(distinct, array, i)?;
        indices.push(index)?;
    }
    Ok(indices)
}

/// The index of slot `i` among the distinct strings, where a new one goes last; `None` for a null.
fn string_index<'a, O: Offset>(
    distinct: &mut FirstSeen<&'a str>,
    array: &'a Utf8Array<O>,
    i: usize,
) -> Result<Option<usize>>
    requires within { i < length array.now.slots }
    ensures step { IfOk result (IsStep (slot_at array.now.slots i)
        (map string_slot distinct.old) (map string_slot distinct.new)) }
    ensures memory { OnlyOutOfMemory result }
{
    if !array.is_valid(i) {
        return Ok(None);
    }
    let index = distinct.add(array.value(i))?;
    Ok(Some(index))
}

/// For each slot its index among the distinct strings, which are then in order of first appearance;
/// `None` for a null.
pub(crate) fn string_indices<'a, O: Offset>(
    alloc: Global,
    distinct: &mut FirstSeen<&'a str>,
    array: &'a Utf8Array<O>,
) -> Result<Vec<Option<usize>>>
    requires empty { distinct.old ≡ [] }
    ensures indices { IfOk result (λ indices. EncodesSlots array.now.slots
        (map index_key indices.items) (map string_slot distinct.new)) }
    ensures memory { OnlyOutOfMemory result }
{
    let len = array.len();
    let mut indices = Vec::with_capacity(alloc, len)?;
    for i in 0..len {
        let index = string_index(distinct, array, i)?;
        indices.push(index)?;
    }
    Ok(indices)
}
