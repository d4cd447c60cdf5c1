//! Nulls, and lists and structs whose children took what stands in them.
ghost use Rattle.std.specs.Prelude.{◌≡◌, ◌+◌, ◌*◌, ◌++◌, ◌∷◌, [], drop, length, map, true, OnOk};
ghost use Rattle.arrow_array.specs.FixedLists.{list_size};
ghost use Rattle.arrow_array.specs.Structs.{record_at};
ghost use Rattle.arrow_builders.specs.MutableArrays.{builder_slots};
ghost use Rattle.arrow_builders.specs.Shapes.{shape};
ghost use Rattle.arrow_builders.specs.Tight.{IsTight};
ghost use Rattle.arrow_builders.specs.declared.array.MutableArray.{FixedSizeList, LargeList, List, Struct};
ghost use Rattle.arrow_flat.specs.Nested.{items_of};
ghost use Rattle.arrow_core.specs.declared.slot.Slot.TheVariants.{List as ListSlot, Null as NullSlot};

use arrow_builders::{
    DynMutableLargeListArray, DynMutableListArray, DynMutableStructArray, MutableArray,
    MutableFixedSizeListArray,
};
use json_lend::GivenUp;

/// Appends a null.
pub(crate) fn push_null(builder: &mut MutableArray) -> Result<(), GivenUp>
    requires { IsTight builder.old }
    ensures same_shape { shape builder.new ≡ shape builder.old }
    ensures tight { OnOk result (IsTight builder.new) }
    ensures ok { OnOk result (builder_slots builder.new ≡ builder_slots builder.old
        ++ NullSlot ∷ []) }
{
    builder.push_null()?;
    Ok(())
}

/// Appends the list of what the child took.
#[inline(always)]
pub(crate) fn end_list(lists: &mut DynMutableListArray) -> Result<(), GivenUp>
    ensures data_type { lists.new.lists.data_type ≡ lists.old.lists.data_type }
    ensures values { lists.new.values ≡ lists.old.values }
    ensures ok { OnOk result (builder_slots (List lists.new) ≡ builder_slots (List lists.old)
        ++ ListSlot (drop (items_of lists.old.lists.lens)
        (builder_slots lists.old.values.value)) ∷ []) }
    ensures end { OnOk result
        (items_of lists.new.lists.lens ≡ length (builder_slots lists.old.values.value)) }
{
    lists.try_push_valid()?;
    Ok(())
}

/// The same where offsets have 64 bits.
#[inline(always)]
pub(crate) fn end_large_list(lists: &mut DynMutableLargeListArray) -> Result<(), GivenUp>
    ensures data_type { lists.new.lists.data_type ≡ lists.old.lists.data_type }
    ensures values { lists.new.values ≡ lists.old.values }
    ensures ok { OnOk result (builder_slots (LargeList lists.new)
        ≡ builder_slots (LargeList lists.old) ++ ListSlot (drop (items_of lists.old.lists.lens)
        (builder_slots lists.old.values.value)) ∷ []) }
    ensures end { OnOk result
        (items_of lists.new.lists.lens ≡ length (builder_slots lists.old.values.value)) }
{
    lists.try_push_valid()?;
    Ok(())
}

/// The same where each list has `size` items, and the child took as many.
#[inline(always)]
pub(crate) fn end_sized_list(lists: &mut MutableFixedSizeListArray) -> Result<(), GivenUp>
    requires { length (builder_slots lists.old.values.value)
        ≡ (length lists.old.marks.booleans + 1) * list_size lists.old.marks.data_type }
    ensures data_type { lists.new.marks.data_type ≡ lists.old.marks.data_type }
    ensures values { lists.new.values ≡ lists.old.values }
    ensures booleans { OnOk result
        (lists.new.marks.booleans ≡ lists.old.marks.booleans ++ true ∷ []) }
    ensures ok { OnOk result (builder_slots (FixedSizeList lists.new)
        ≡ builder_slots (FixedSizeList lists.old)
        ++ ListSlot (drop (length lists.old.marks.booleans * list_size lists.old.marks.data_type)
        (builder_slots lists.old.values.value)) ∷ []) }
{
    lists.try_push_valid()?;
    Ok(())
}

/// Appends the struct of what the children took.
#[inline(always)]
pub(crate) fn end_struct(structs: &mut DynMutableStructArray) -> Result<(), GivenUp>
    ensures data_type { structs.new.marks.data_type ≡ structs.old.marks.data_type }
    ensures values { structs.new.values ≡ structs.old.values }
    ensures booleans { OnOk result
        (structs.new.marks.booleans ≡ structs.old.marks.booleans ++ true ∷ []) }
    ensures ok { OnOk result (builder_slots (Struct structs.new)
        ≡ builder_slots (Struct structs.old)
        ++ record_at (map builder_slots structs.old.values.items)
        (length structs.old.marks.booleans) ∷ []) }
{
    structs.try_push_valid()?;
    Ok(())
}
