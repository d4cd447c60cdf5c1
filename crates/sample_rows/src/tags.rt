//! The lists of tags.
ghost use Rattle.std.specs.Prelude.{◌≡◌, ◌++◌, ◌∷◌, [], OnOk, IfOk};
ghost use Rattle.arrow_core.specs.Errors.{OnlyOutOfMemory};
ghost use Rattle.arrow_core.specs.declared.physical.PhysicalType.TheVariants as physical;
ghost use Rattle.arrow_core.specs.declared.slot.Slot.TheVariants.{List as ListSlot};
ghost use Rattle.arrow_array.specs.Arrays.{array_slots};
ghost use Rattle.arrow_builders.specs.MutableArrays.{builder_kind, builder_slots};
ghost use Rattle.arrow_builders.specs.Tight.{IsTight};
ghost use Rattle.arrow_builders.specs.declared.array.MutableArray.{List};
ghost use Rattle.sample_rows.specs.Drawing as spec;
ghost use Rattle.sample_rows.specs.Drawn.{tag_lists};

use crate::generator::{after, after_row, drawn, next, tag_count};
use crate::memory::in_memory;
use crate::names::{push_string, write_name};
use arrow_array::Array;
use arrow_builders::{DynMutableListArray, MutableArray};
use arrow_core::{Box, DataType, Field, Result, Text};
use arrow_flat::{Container, MutableUtf8Array};
use std::alloc::Global;

/// Appends the tags of the row that is drawn from this state, as strings.
fn fill_tags(strings: &mut MutableUtf8Array<i32>, text: &mut String, state: u32) -> Result<()>
    ensures ok { OnOk result (strings.new.slots ≡ strings.old.slots ++ spec.tags state) }
    ensures memory { OnlyOutOfMemory result }
{
    let mut last = after(2, state);
    for _ in 0..tag_count(state) {
        last = next(last);
        write_name(text, "t", drawn(last) % 10)?;
        push_string(strings, Some(text.as_str()))?;
    }
    Ok(())
}

/// The same to the child of a builder of lists.
fn push_tags(items: &mut MutableArray, text: &mut String, state: u32) -> Result<()>
    requires kind { builder_kind items.old ≡ physical.Utf8 }
    ensures kind { builder_kind items.new ≡ physical.Utf8 }
    ensures ok { OnOk result
        (builder_slots items.new ≡ builder_slots items.old ++ spec.tags state) }
    ensures tight { IsTight items.new }
    ensures memory { OnlyOutOfMemory result }
{
    match items {
        MutableArray::Utf8(strings) => fill_tags(strings, text, state),
        _ => unreachable!(),
    }
}

/// Appends the list of a row's tags.
fn push_list(lists: &mut DynMutableListArray, text: &mut String, state: u32) -> Result<()>
    requires kind { builder_kind lists.old.values.value ≡ physical.Utf8 }
    requires tight { IsTight (List lists.old) }
    ensures kind { builder_kind lists.new.values.value ≡ physical.Utf8 }
    ensures tight { OnOk result (IsTight (List lists.new)) }
    ensures ok { OnOk result (builder_slots (List lists.new)
        ≡ builder_slots (List lists.old) ++ ListSlot (spec.tags state) ∷ []) }
    ensures memory { OnlyOutOfMemory result }
{
    push_tags(lists.mut_values(), text, state)?;
    in_memory(lists.try_push_valid())
}

/// Appends the lists of so many rows' tags.
fn push_lists(
    lists: &mut DynMutableListArray,
    text: &mut String,
    start: u32,
    rows: usize,
) -> Result<()>
    requires kind { builder_kind lists.old.values.value ≡ physical.Utf8 }
    requires tight { IsTight (List lists.old) }
    ensures ok { OnOk result (builder_slots (List lists.new)
        ≡ builder_slots (List lists.old) ++ tag_lists start rows) }
    ensures memory { OnlyOutOfMemory result }
{
    let mut state = start;
    for _ in 0..rows {
        push_list(lists, text, state)?;
        state = after_row(state);
    }
    Ok(())
}

/// The type of lists of strings.
fn list_type(alloc: Global) -> Result<DataType>
    ensures memory { OnlyOutOfMemory result }
{
    let name = Text::try_from_str(alloc, "item")?;
    let item = Field::new(alloc, name, DataType::Utf8, false);
    Ok(DataType::List(Box::new(alloc, item)?))
}

/// A builder of lists of strings.
fn new_lists(alloc: Global) -> Result<DynMutableListArray>
    ensures kind { IfOk result (λ b. builder_kind b.values.value ≡ physical.Utf8) }
    ensures tight { IfOk result (λ b. IsTight (List b)) }
    ensures slots { IfOk result (λ b. builder_slots (List b) ≡ []) }
    ensures memory { OnlyOutOfMemory result }
{
    let strings = MutableUtf8Array::<i32>::with_capacity(alloc, 0)?;
    let data_type = list_type(alloc)?;
    DynMutableListArray::new_from(alloc, MutableArray::Utf8(strings), data_type, 0)
}

/// The lists of the rows' tags.
pub(crate) fn draw_tags(alloc: Global, start: u32, rows: usize) -> Result<Array>
    ensures slots { IfOk result (λ a. array_slots a ≡ tag_lists start rows) }
    ensures memory { OnlyOutOfMemory result }
{
    let mut lists = new_lists(alloc)?;
    let mut text = String::new(alloc);
    push_lists(&mut lists, &mut text, start, rows)?;
    in_memory(MutableArray::List(lists).as_box())
}
