//! Arrays with other children of the same slots.
ghost use Rattle.std.specs.Prelude.{◌≡◌, ◌*◌, ◌<◌, ℕ, List, length, map, IfOk, IsTrue};
ghost use Rattle.std.specs.Option.{option_copied};
ghost use Rattle.arrow_array.specs.Arrays.{all_dictionaries, array_slots, dictionaries_of};
ghost use Rattle.arrow_array.specs.FixedLists.{fixed_list_at, list_size};
ghost use Rattle.arrow_array.specs.Slots.{TellsHeld, is_held, slot_at};
ghost use Rattle.arrow_array.specs.Structs.{first_len, record_at};
ghost use Rattle.arrow_core.specs.declared.slot.Slot.{Slot};

use arrow_array::{Array, Bitmap, FixedSizeListArray, LargeListArray, ListArray, StructArray};
use arrow_core::DataType;
use json_line::GivenUp;
use std::alloc::Global;

// The same validity, which shares its words.
fn same_validity(validity: Option<&Bitmap>) -> Result<Option<Bitmap>, GivenUp>
    ensures { IfOk result (λ same. (slots : List Slot)
        → TellsHeld (option_copied validity.entry) slots
        → TellsHeld same slots) }
{
    match validity {
        Some(bits) => {
            let bits = bits.slice(0, bits.len())?;
            Ok(Some(bits))
        }
        None => Ok(None),
    }
}

/// The lists of this type over a child of the same slots.
pub(crate) fn lists_over(
    alloc: Global,
    data_type: &DataType,
    lists: &ListArray,
    values: Array,
) -> Result<ListArray, GivenUp>
    requires { array_slots values ≡ lists.now.items }
    ensures data_type { IfOk result (λ a. a.data_type ≡ data_type.now) }
    ensures slots { IfOk result (λ a. a.slots ≡ lists.now.slots) }
    ensures dictionaries { IfOk result (λ a. a.dictionaries ≡ dictionaries_of values) }
{
    let data_type = data_type.try_clone(alloc)?;
    let offsets = Vec::from_slice(alloc, lists.offsets())?;
    let validity = same_validity(lists.validity())?;
    let array = ListArray::try_new(alloc, data_type, offsets, values, validity)?;
    Ok(array)
}

/// The same with offsets of 64 bits.
pub(crate) fn large_lists_over(
    alloc: Global,
    data_type: &DataType,
    lists: &LargeListArray,
    values: Array,
) -> Result<LargeListArray, GivenUp>
    requires { array_slots values ≡ lists.now.items }
    ensures data_type { IfOk result (λ a. a.data_type ≡ data_type.now) }
    ensures slots { IfOk result (λ a. a.slots ≡ lists.now.slots) }
    ensures dictionaries { IfOk result (λ a. a.dictionaries ≡ dictionaries_of values) }
{
    let data_type = data_type.try_clone(alloc)?;
    let offsets = Vec::from_slice(alloc, lists.offsets())?;
    let validity = same_validity(lists.validity())?;
    let array = LargeListArray::try_new(alloc, data_type, offsets, values, validity)?;
    Ok(array)
}

// How many items each list of this type has; 0 where it isn't FixedSizeList.
fn size_of_lists(data_type: &DataType) -> usize
    ensures { result ≡ list_size data_type.now }
{
    match data_type {
        DataType::FixedSizeList(_, size) => *size,
        _ => 0,
    }
}

/// The fixed-size lists of this type over a child of the same slots. They are given up where the
/// type is one of lists of another size.
pub(crate) fn fixed_lists_over(
    alloc: Global,
    data_type: &DataType,
    lists: &FixedSizeListArray,
    values: Array,
) -> Result<FixedSizeListArray, GivenUp>
    requires slots { (k : ℕ) → k < length lists.now.slots
        → IsTrue (is_held (slot_at lists.now.slots k))
        → slot_at lists.now.slots k
        ≡ fixed_list_at (list_size lists.now.data_type) (array_slots values) k }
    requires count { length (array_slots values)
        ≡ length lists.now.slots * list_size lists.now.data_type }
    ensures data_type { IfOk result (λ a. a.data_type ≡ data_type.now) }
    ensures slots { IfOk result (λ a. a.slots ≡ lists.now.slots) }
    ensures dictionaries { IfOk result (λ a. a.dictionaries ≡ dictionaries_of values) }
{
    if size_of_lists(data_type) != size_of_lists(lists.data_type()) {
        return Err(GivenUp);
    }
    let data_type = data_type.try_clone(alloc)?;
    let validity = same_validity(lists.validity())?;
    let array = FixedSizeListArray::try_new(alloc, data_type, values, validity)?;
    Ok(array)
}

/// The structs of this type over children of the same slots.
pub(crate) fn structs_over(
    alloc: Global,
    data_type: &DataType,
    structs: &StructArray,
    values: Vec<Array>,
) -> Result<StructArray, GivenUp>
    requires slots { (k : ℕ) → k < length structs.now.slots
        → IsTrue (is_held (slot_at structs.now.slots k))
        → slot_at structs.now.slots k ≡ record_at (map array_slots values.items) k }
    requires count { 0 < length values.items
        → first_len values.items ≡ length structs.now.slots }
    ensures data_type { IfOk result (λ a. a.data_type ≡ data_type.now) }
    ensures slots { IfOk result (λ a. a.slots ≡ structs.now.slots) }
    ensures dictionaries { IfOk result (λ a. a.dictionaries ≡ all_dictionaries values.items) }
{
    let data_type = data_type.try_clone(alloc)?;
    let validity = same_validity(structs.validity())?;
    let array = StructArray::try_new(alloc, data_type, values, validity)?;
    Ok(array)
}
