//! Columns of any type, a column at a time.
ghost use Rattle.std.specs.Prelude.{◌≡◌, ◌<◌, [], false, true, IfOk, IfErr, OnOk};
ghost use Rattle.arrow_array.specs.Arrays.{array_slots, array_type};
ghost use Rattle.arrow_dictionaries.specs.Encoding.{HasFirstValues, HaveFirstValues};
ghost use Rattle.arrow_core.specs.declared.types.DataType.TheVariants.{FixedSizeList as FixedSizeListType, LargeList as LargeListType, List as ListType, Struct as StructType};
ghost use Rattle.json_tree.specs.Tree.{null as null_value};
ghost use Rattle.json_flat.specs.Columns.{AreSlotsOf, lent, means};
ghost use Rattle.json_columns.specs.Faults.{AreMemberColumns, IsFault, IsFieldsFault, IsListFault, IsMemberColumn, IsMemberFault, IsSizedFault, IsStructFault, TooMany, TooManyFields, TooManyListed};
ghost use Rattle.json_columns.specs.Gathered.{all_have_reading, all_sized, field_meanings, members_named as members_named_of, struct_has_reading};
ghost use Rattle.json_flat.specs.Reading.{has_reading, list_in, reading, sized_list_in, struct_in};

use crate::dictionary::read_dictionary;
use crate::flat::read_flat;
use crate::gather::{list_items, members_named, object_marks, sized_list_items};
use crate::parts::{fixed_list_array, large_list_array, list_array, struct_array};
use arrow_array::Array;
use arrow_core::{DataType, Field, Result};
use arrow_flat::{MutableLists, MutableMarks};
use json_tree::Value;
use std::alloc::Global;

/// The column of values under a type, one slot a value. `null` stands for members that are missing.
/// The values of each dictionary, at every depth, are its distinct slots but null, in order of
/// first appearance.
///
/// `NotYetImplemented(TextTimestamp)` where a string under a timestamp comes, and `Overflow` where
/// another value without a slot comes or the column can't count what it has, whichever is first.
/// `OutOfMemory` may come in place of any answer.
#[cycle(columns)]
pub(crate) fn read_column<'a>(
    alloc: Global,
    data_type: &DataType,
    values: &[&'a Value],
    null: &'a Value,
) -> Result<Array>
    requires readable { has_reading data_type.now ≡ true }
    requires null { null.now ≡ null_value }
    ensures data_type { IfOk result (λ a. array_type a ≡ data_type.now) }
    ensures slots { IfOk result
        (λ a. AreSlotsOf (reading data_type.now) (lent values.now) (array_slots a)) }
    ensures dictionaries { IfOk result HasFirstValues }
    ensures counted { OnOk result (TooMany data_type.now (lent values.now) → ⊥) }
    ensures err { IfErr result (IsFault data_type.now (lent values.now)) }
{
    match data_type {
        DataType::List(item) => read_lists(alloc, item.get(), data_type, values, null),
        DataType::LargeList(item) => read_large_lists(alloc, item.get(), data_type, values, null),
        DataType::FixedSizeList(item, size) => {
            read_sized_lists(alloc, item.get(), *size, data_type, values, null)
        }
        DataType::Struct(fields) => {
            read_structs(alloc, fields.as_slice(), data_type, values, null)
        }
        DataType::Dictionary(key, value_type, _) => {
            read_dictionary(alloc, *key, value_type.get(), data_type, values)
        }
        _ => read_flat(alloc, data_type, values),
    }
}

/// The column of lists of this field.
#[cycle(columns)]
fn read_lists<'a>(
    alloc: Global,
    item: &Field,
    data_type: &DataType,
    values: &[&'a Value],
    null: &'a Value,
) -> Result<Array>
    requires kind { data_type.now ≡ ListType item.now }
    requires readable { has_reading item.now.data_type ≡ true }
    requires null { null.now ≡ null_value }
    ensures data_type { IfOk result (λ a. array_type a ≡ data_type.now) }
    ensures slots { IfOk result (λ a. AreSlotsOf (list_in (means (reading item.now.data_type)))
        (lent values.now) (array_slots a)) }
    ensures dictionaries { IfOk result HasFirstValues }
    ensures counted { OnOk result (TooManyListed false item.now (lent values.now) → ⊥) }
    ensures err { IfErr result (IsListFault false item.now (lent values.now)) }
{
    let mut lists = MutableLists::<i32>::new(alloc, data_type.try_clone(alloc)?, values.len())?;
    read_into_lists(alloc, item, &mut lists, values, null)
}

/// The column of lists of this field, which are appended to `lists`, where there is none. These are
/// lent, so that their owner lets go of them in one place alone.
#[cycle(columns)]
fn read_into_lists<'a>(
    alloc: Global,
    item: &Field,
    lists: &mut MutableLists<i32>,
    values: &[&'a Value],
    null: &'a Value,
) -> Result<Array>
    requires kind { lists.old.data_type ≡ ListType item.now }
    requires no_list { lists.old.lens ≡ [] }
    requires readable { has_reading item.now.data_type ≡ true }
    requires null { null.now ≡ null_value }
    ensures data_type { IfOk result (λ a. array_type a ≡ lists.old.data_type) }
    ensures slots { IfOk result (λ a. AreSlotsOf (list_in (means (reading item.now.data_type)))
        (lent values.now) (array_slots a)) }
    ensures dictionaries { IfOk result HasFirstValues }
    ensures counted { OnOk result (TooManyListed false item.now (lent values.now) → ⊥) }
    ensures err { IfErr result (IsListFault false item.now (lent values.now)) }
{
    let items = list_items(alloc, lists, values)?;
    let column = read_column(alloc, &item.data_type, items.as_slice(), null)?;
    list_array(alloc, lists, column)
}

/// The same as `read_lists` with offsets of 64 bits.
#[cycle(columns)]
fn read_large_lists<'a>(
    alloc: Global,
    item: &Field,
    data_type: &DataType,
    values: &[&'a Value],
    null: &'a Value,
) -> Result<Array>
    requires kind { data_type.now ≡ LargeListType item.now }
    requires readable { has_reading item.now.data_type ≡ true }
    requires null { null.now ≡ null_value }
    ensures data_type { IfOk result (λ a. array_type a ≡ data_type.now) }
    ensures slots { IfOk result (λ a. AreSlotsOf (list_in (means (reading item.now.data_type)))
        (lent values.now) (array_slots a)) }
    ensures dictionaries { IfOk result HasFirstValues }
    ensures counted { OnOk result (TooManyListed true item.now (lent values.now) → ⊥) }
    ensures err { IfErr result (IsListFault true item.now (lent values.now)) }
{
    let mut lists = MutableLists::<i64>::new(alloc, data_type.try_clone(alloc)?, values.len())?;
    read_into_large_lists(alloc, item, &mut lists, values, null)
}

/// The same as `read_into_lists` with offsets of 64 bits.
#[cycle(columns)]
fn read_into_large_lists<'a>(
    alloc: Global,
    item: &Field,
    lists: &mut MutableLists<i64>,
    values: &[&'a Value],
    null: &'a Value,
) -> Result<Array>
    requires kind { lists.old.data_type ≡ LargeListType item.now }
    requires no_list { lists.old.lens ≡ [] }
    requires readable { has_reading item.now.data_type ≡ true }
    requires null { null.now ≡ null_value }
    ensures data_type { IfOk result (λ a. array_type a ≡ lists.old.data_type) }
    ensures slots { IfOk result (λ a. AreSlotsOf (list_in (means (reading item.now.data_type)))
        (lent values.now) (array_slots a)) }
    ensures dictionaries { IfOk result HasFirstValues }
    ensures counted { OnOk result (TooManyListed true item.now (lent values.now) → ⊥) }
    ensures err { IfErr result (IsListFault true item.now (lent values.now)) }
{
    let items = list_items(alloc, lists, values)?;
    let column = read_column(alloc, &item.data_type, items.as_slice(), null)?;
    large_list_array(alloc, lists, column)
}

/// The column of lists of so many items of this field.
#[cycle(columns)]
fn read_sized_lists<'a>(
    alloc: Global,
    item: &Field,
    size: usize,
    data_type: &DataType,
    values: &[&'a Value],
    null: &'a Value,
) -> Result<Array>
    requires kind { data_type.now ≡ FixedSizeListType item.now size }
    requires filled { 0 < size }
    requires readable { has_reading item.now.data_type ≡ true }
    requires null { null.now ≡ null_value }
    ensures data_type { IfOk result (λ a. array_type a ≡ data_type.now) }
    ensures slots { IfOk result
        (λ a. AreSlotsOf (sized_list_in size (means (reading item.now.data_type)))
        (lent values.now) (array_slots a)) }
    ensures dictionaries { IfOk result HasFirstValues }
    ensures counted { OnOk result
        (TooMany item.now.data_type (all_sized size (lent values.now)) → ⊥) }
    ensures err { IfErr result (IsSizedFault size item.now (lent values.now)) }
{
    let mut marks = MutableMarks::new(alloc, data_type.try_clone(alloc)?);
    read_into_sized_lists(alloc, item, size, &mut marks, values, null)
}

/// The column of lists of so many items of this field, which are appended to `marks`, where there
/// is none. These are lent as in `read_into_lists`.
#[cycle(columns)]
fn read_into_sized_lists<'a>(
    alloc: Global,
    item: &Field,
    size: usize,
    marks: &mut MutableMarks,
    values: &[&'a Value],
    null: &'a Value,
) -> Result<Array>
    requires kind { marks.old.data_type ≡ FixedSizeListType item.now size }
    requires no_list { marks.old.booleans ≡ [] }
    requires filled { 0 < size }
    requires readable { has_reading item.now.data_type ≡ true }
    requires null { null.now ≡ null_value }
    ensures data_type { IfOk result (λ a. array_type a ≡ marks.old.data_type) }
    ensures slots { IfOk result
        (λ a. AreSlotsOf (sized_list_in size (means (reading item.now.data_type)))
        (lent values.now) (array_slots a)) }
    ensures dictionaries { IfOk result HasFirstValues }
    ensures counted { OnOk result
        (TooMany item.now.data_type (all_sized size (lent values.now)) → ⊥) }
    ensures err { IfErr result (IsSizedFault size item.now (lent values.now)) }
{
    let items = sized_list_items(alloc, marks, size, values, null)?;
    let column = read_column(alloc, &item.data_type, items.as_slice(), null)?;
    fixed_list_array(alloc, marks, column)
}

/// The column of structs of these fields.
#[cycle(columns)]
fn read_structs<'a>(
    alloc: Global,
    fields: &[Field],
    data_type: &DataType,
    values: &[&'a Value],
    null: &'a Value,
) -> Result<Array>
    requires kind { data_type.now ≡ StructType fields.now }
    requires readable { struct_has_reading fields.now ≡ true }
    requires null { null.now ≡ null_value }
    ensures data_type { IfOk result (λ a. array_type a ≡ data_type.now) }
    ensures slots { IfOk result (λ a. AreSlotsOf (struct_in (field_meanings fields.now))
        (lent values.now) (array_slots a)) }
    ensures dictionaries { IfOk result HasFirstValues }
    ensures counted { OnOk result (TooManyFields fields.now (lent values.now) → ⊥) }
    ensures err { IfErr result (IsStructFault fields.now (lent values.now)) }
{
    let columns = read_fields(alloc, fields, values, null)?;
    let mut marks = object_marks(alloc, data_type, values)?;
    struct_array(alloc, &mut marks, columns)
}

/// A column for each field, of the members of its name.
#[cycle(columns)]
pub(crate) fn read_fields<'a>(
    alloc: Global,
    fields: &[Field],
    values: &[&'a Value],
    null: &'a Value,
) -> Result<Vec<Array>>
    requires readable { all_have_reading fields.now ≡ true }
    requires null { null.now ≡ null_value }
    ensures columns { IfOk result
        (λ columns. AreMemberColumns fields.now (lent values.now) columns.items) }
    ensures dictionaries { IfOk result (λ columns. HaveFirstValues columns.items) }
    ensures counted { OnOk result (TooManyFields fields.now (lent values.now) → ⊥) }
    ensures err { IfErr result (IsFieldsFault fields.now (lent values.now)) }
{
    let mut columns = Vec::new(alloc);
    for (near, field) in fields.iter().enumerate() {
        let column = read_members(alloc, near, field, values, null)?;
        columns.push(column)?;
    }
    Ok(columns)
}

/// The column of the members of a field's name, which mostly stand at the index `near`.
#[cycle(columns)]
fn read_members<'a>(
    alloc: Global,
    near: usize,
    field: &Field,
    values: &[&'a Value],
    null: &'a Value,
) -> Result<Array>
    requires readable { has_reading field.now.data_type ≡ true }
    requires null { null.now ≡ null_value }
    ensures column { IfOk result
        (λ a. IsMemberColumn field.now (lent values.now) (array_type a) (array_slots a)) }
    ensures dictionaries { IfOk result HasFirstValues }
    ensures counted { OnOk result (TooMany field.now.data_type
        (members_named_of field.now.name (lent values.now)) → ⊥) }
    ensures err { IfErr result (IsMemberFault field.now (lent values.now)) }
{
    let members = members_named(alloc, near, field.name.as_str(), values, null)?;
    read_column(alloc, &field.data_type, members.as_slice(), null)
}
