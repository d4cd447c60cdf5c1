//! Arrays of lists, of structs and of dictionaries, whose parts fit together.
ghost use Rattle.std.specs.Prelude.{◌≡◌, ◌*◌, ◌≤◌, ◌<◌, [], ◌∷◌, false, true, length, map, IfOk};
ghost use Rattle.arrow_array.specs.Arrays.{all_dictionaries, array_slots, array_type, dictionaries_of};
ghost use Rattle.arrow_array.specs.Dictionaries.{DictionaryFits, keys_slots, keys_type, looked_up};
ghost use Rattle.arrow_array.specs.FixedLists.{fixed_list_at, IsFixedListOf, list_size};
ghost use Rattle.arrow_array.specs.Lists.{IsListOf};
ghost use Rattle.arrow_array.specs.Structs.{IsStructOf, record_at};
ghost use Rattle.arrow_core.specs.Errors.{OnlyOutOfMemory};
ghost use Rattle.arrow_flat.specs.Builders.{slots_where};
ghost use Rattle.arrow_flat.specs.Nested.{items_of, lists_from};

use arrow_array::{
    Array, DictionaryArray, FixedSizeListArray, Keys, LargeListArray, ListArray, StructArray,
};
use arrow_core::{DataType, Result};
use arrow_flat::{MutableLists, MutableMarks};
use std::alloc::Global;

/// The array of the lists, each of which has the child's slots from the end of the one before.
pub(crate) fn list_array(
    alloc: Global,
    lists: &mut MutableLists<i32>,
    items: Array,
) -> Result<Array>
    requires kind { IsListOf false lists.old.data_type (array_type items) }
    requires within { items_of lists.old.lens ≤ length (array_slots items) }
    ensures data_type { IfOk result (λ a. array_type a ≡ lists.old.data_type) }
    ensures slots { IfOk result
        (λ a. array_slots a ≡ lists_from 0 lists.old.lens (array_slots items)) }
    ensures dictionaries { IfOk result (λ a. dictionaries_of a ≡ dictionaries_of items) }
    ensures memory { OnlyOutOfMemory result }
{
    let (data_type, offsets, validity) = lists.take()?;
    let array = ListArray::try_from_rising(alloc, data_type, offsets, items, Some(validity))?;
    Ok(Array::List(array))
}

/// The same with offsets of 64 bits.
pub(crate) fn large_list_array(
    alloc: Global,
    lists: &mut MutableLists<i64>,
    items: Array,
) -> Result<Array>
    requires kind { IsListOf true lists.old.data_type (array_type items) }
    requires within { items_of lists.old.lens ≤ length (array_slots items) }
    ensures data_type { IfOk result (λ a. array_type a ≡ lists.old.data_type) }
    ensures slots { IfOk result
        (λ a. array_slots a ≡ lists_from 0 lists.old.lens (array_slots items)) }
    ensures dictionaries { IfOk result (λ a. dictionaries_of a ≡ dictionaries_of items) }
    ensures memory { OnlyOutOfMemory result }
{
    let (data_type, offsets, validity) = lists.take()?;
    let array = LargeListArray::try_from_rising(alloc, data_type, offsets, items, Some(validity))?;
    Ok(Array::LargeList(array))
}

/// The array of the lists of neighbouring slots of the child, which are valid where the marks say so.
pub(crate) fn fixed_list_array(
    alloc: Global,
    marks: &mut MutableMarks,
    items: Array,
) -> Result<Array>
    requires filled { 0 < list_size marks.old.data_type }
    requires kind { IsFixedListOf marks.old.data_type (array_type items) }
    requires whole { length (array_slots items)
        ≡ length marks.old.booleans * list_size marks.old.data_type }
    ensures data_type { IfOk result (λ a. array_type a ≡ marks.old.data_type) }
    ensures slots { IfOk result (λ a. array_slots a
        ≡ slots_where marks.old.booleans
        (fixed_list_at (list_size marks.old.data_type) (array_slots items))) }
    ensures dictionaries { IfOk result (λ a. dictionaries_of a ≡ dictionaries_of items) }
    ensures memory { OnlyOutOfMemory result }
{
    let (data_type, validity) = marks.take()?;
    let array = FixedSizeListArray::try_new(alloc, data_type, items, Some(validity))?;
    Ok(Array::FixedSizeList(array))
}

/// The array of the structs of the columns' slots, which are valid where the marks say so.
pub(crate) fn struct_array(
    alloc: Global,
    marks: &mut MutableMarks,
    columns: Vec<Array>,
) -> Result<Array>
    requires filled { 0 < length columns.items }
    requires kind { IsStructOf marks.old.data_type columns.items (length marks.old.booleans) }
    ensures data_type { IfOk result (λ a. array_type a ≡ marks.old.data_type) }
    ensures slots { IfOk result (λ a. array_slots a
        ≡ slots_where marks.old.booleans (record_at (map array_slots columns.items))) }
    ensures dictionaries { IfOk result
        (λ a. dictionaries_of a ≡ all_dictionaries columns.items) }
    ensures memory { OnlyOutOfMemory result }
{
    let (data_type, validity) = marks.take()?;
    let array = StructArray::try_new(alloc, data_type, columns, Some(validity))?;
    Ok(Array::Struct(array))
}

/// The array of the dictionary of the items at the keys.
pub(crate) fn dictionary_array(
    alloc: Global,
    data_type: DataType,
    keys: Keys,
    items: Array,
) -> Result<Array>
    requires fits { DictionaryFits data_type (keys_type keys) (keys_slots keys)
        (array_type items) (length (array_slots items)) }
    ensures data_type { IfOk result (λ a. array_type a ≡ data_type) }
    ensures slots { IfOk result
        (λ a. array_slots a ≡ map (looked_up (array_slots items)) (keys_slots keys)) }
    ensures dictionaries { IfOk result
        (λ a. dictionaries_of a
        ≡ (map (looked_up (array_slots items)) (keys_slots keys), array_slots items) ∷ []) }
    ensures memory { OnlyOutOfMemory result }
{
    let array = DictionaryArray::from_parts(alloc, data_type, keys, items)?;
    Ok(Array::Dictionary(array))
}
