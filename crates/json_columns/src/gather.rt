//! Gathers the values beneath several values, and what they say of the slots above.
ghost use Rattle.std.specs.Prelude.{◌≡◌, ◌≤◌, ◌++◌, ◌∷◌, [], ◌+◌, length, true, false, IfOk, IfErr, OnOk, MatchOption};
ghost use Rattle.arrow_core.specs.Errors.{OnlyOutOfMemory};
ghost use Rattle.arrow_flat.specs.Nested.{items_of};
ghost use Rattle.arrow_core.specs.Numbers.{greatest_offset};
ghost use Rattle.json_tree.specs.Tree.{null as null_value};
ghost use Rattle.json_tree.specs.declared.value.Value.{out-Value};
ghost use Rattle.json_flat.specs.Columns.{lent};
ghost use Rattle.json_columns.specs.Faults.{IsCountFault};
ghost use Rattle.json_columns.specs.Gathered.{all_items, all_sized, are_objects, are_sized, is_object as is_object_of, is_sized, items_in, len_in, list_lens, member_in, members_named as members_named_of, nulls, sized_items as sized_items_of};

use arrow_core::{DataType, Offset, Result};
use arrow_flat::{MutableLists, MutableMarks};
use json_tree::Value;
use std::alloc::Global;

/// Appends references to more values.
pub(crate) fn lend_all<'a>(lent_values: &mut Vec<&'a Value>, more: &'a [Value]) -> Result<()>
    ensures ok { OnOk result
        (lent lent_values.new.items ≡ lent lent_values.old.items ++ more.now) }
    ensures memory { OnlyOutOfMemory result }
{
    for value in more {
        lent_values.push(value)?;
    }
    Ok(())
}

/// Appends the items of an array, as one more list; any other value is a null. `Overflow` exactly
/// where there are then more items than the greatest offset.
fn push_list<'a, O: Offset>(
    lists: &mut MutableLists<O>,
    items: &mut Vec<&'a Value>,
    value: &'a Value,
) -> Result<()>
    requires ends { items_of lists.old.lens ≡ length items.old.items }
    requires counted { length items.old.items ≤ greatest_offset O.IS_LARGE }
    ensures data_type { lists.new.data_type ≡ lists.old.data_type }
    ensures lens { OnOk result
        (lists.new.lens ≡ lists.old.lens ++ len_in (out-Value value.now) ∷ []) }
    ensures items { OnOk result
        (lent items.new.items ≡ lent items.old.items ++ items_in (out-Value value.now)) }
    ensures counted { OnOk result (length items.new.items ≤ greatest_offset O.IS_LARGE) }
    ensures err { IfErr result (IsCountFault (greatest_offset O.IS_LARGE)
        (length items.old.items + length (items_in (out-Value value.now)))) }
{
    match value {
        Value::Array(array) => {
            lend_all(items, array.as_slice())?;
            lists.push_list(items.len())
        }
        _ => lists.push_null(),
    }
}

/// Appends the items of each array, and each value as a list: the items of an array, and any other
/// value as a null. `Overflow` exactly where there are more items than the greatest offset.
fn fill_lists<'a, O: Offset>(
    lists: &mut MutableLists<O>,
    items: &mut Vec<&'a Value>,
    values: &[&'a Value],
) -> Result<()>
    requires no_list { lists.old.lens ≡ [] }
    requires no_item { items.old.items ≡ [] }
    ensures data_type { lists.new.data_type ≡ lists.old.data_type }
    ensures lens { OnOk result (lists.new.lens ≡ list_lens (lent values.now)) }
    ensures items { OnOk result (lent items.new.items ≡ all_items (lent values.now)) }
    ensures counted { OnOk result
        (length (all_items (lent values.now)) ≤ greatest_offset O.IS_LARGE) }
    ensures err { IfErr result (IsCountFault (greatest_offset O.IS_LARGE)
        (length (all_items (lent values.now)))) }
{
    for value in values {
        push_list(lists, items, value)?;
    }
    Ok(())
}

/// The items of each array, one after another. Each value is appended to `lists`: an array as the
/// list of its items, and any other value as a null. `Overflow` exactly where there are more items
/// than the greatest offset.
pub(crate) fn list_items<'a, O: Offset>(
    alloc: Global,
    lists: &mut MutableLists<O>,
    values: &[&'a Value],
) -> Result<Vec<&'a Value>>
    requires no_list { lists.old.lens ≡ [] }
    ensures data_type { lists.new.data_type ≡ lists.old.data_type }
    ensures lens { OnOk result (lists.new.lens ≡ list_lens (lent values.now)) }
    ensures items { IfOk result (λ items. lent items.items ≡ all_items (lent values.now)) }
    ensures counted { OnOk result
        (length (all_items (lent values.now)) ≤ greatest_offset O.IS_LARGE) }
    ensures err { IfErr result (IsCountFault (greatest_offset O.IS_LARGE)
        (length (all_items (lent values.now)))) }
{
    let mut items = Vec::new(alloc);
    fill_lists(lists, &mut items, values)?;
    Ok(items)
}

/// Appends so many references to `null`.
fn lend_nulls<'a>(lent_values: &mut Vec<&'a Value>, count: usize, null: &'a Value) -> Result<()>
    requires null { null.now ≡ null_value }
    ensures ok { OnOk result
        (lent lent_values.new.items ≡ lent lent_values.old.items ++ nulls count) }
    ensures memory { OnlyOutOfMemory result }
{
    lent_values.reserve(count)?;
    for _ in 0..count {
        lent_values.push(null)?;
    }
    Ok(())
}

/// The items of an array, where there are so many.
fn sized_items(value: &Value, size: usize) -> Option<&[Value]>
    ensures { MatchOption result
        ((is_sized size (out-Value value.now) ≡ false)
        × (sized_items_of size (out-Value value.now) ≡ nulls size))
        (λ items. (is_sized size (out-Value value.now) ≡ true)
        × (sized_items_of size (out-Value value.now) ≡ items.now)) }
{
    match value {
        Value::Array(array) => {
            let items = array.as_slice();
            if items.len() == size {
                Some(items)
            } else {
                None
            }
        }
        _ => None,
    }
}

/// Appends the items of an array, as one more list, where there are so many; any other value is a
/// null, with as many null items.
fn push_sized<'a>(
    marks: &mut MutableMarks,
    items: &mut Vec<&'a Value>,
    size: usize,
    value: &'a Value,
    null: &'a Value,
) -> Result<()>
    requires null { null.now ≡ null_value }
    ensures data_type { marks.new.data_type ≡ marks.old.data_type }
    ensures booleans { OnOk result
        (marks.new.booleans ≡ marks.old.booleans ++ is_sized size (out-Value value.now) ∷ []) }
    ensures items { OnOk result (lent items.new.items
        ≡ lent items.old.items ++ sized_items_of size (out-Value value.now)) }
    ensures memory { OnlyOutOfMemory result }
{
    match sized_items(value, size) {
        Some(list) => {
            lend_all(items, list)?;
            marks.push(true)
        }
        None => {
            lend_nulls(items, size, null)?;
            marks.push(false)
        }
    }
}

/// Appends the items of each array of so many, and each value as a list: such an array's items, and
/// any other value as a null, with as many null items.
fn fill_sized<'a>(
    marks: &mut MutableMarks,
    items: &mut Vec<&'a Value>,
    size: usize,
    values: &[&'a Value],
    null: &'a Value,
) -> Result<()>
    requires null { null.now ≡ null_value }
    requires no_list { marks.old.booleans ≡ [] }
    requires no_item { items.old.items ≡ [] }
    ensures data_type { marks.new.data_type ≡ marks.old.data_type }
    ensures booleans { OnOk result (marks.new.booleans ≡ are_sized size (lent values.now)) }
    ensures items { OnOk result (lent items.new.items ≡ all_sized size (lent values.now)) }
    ensures memory { OnlyOutOfMemory result }
{
    for value in values {
        push_sized(marks, items, size, value, null)?;
    }
    Ok(())
}

/// The items of each array of so many, and as many nulls for any other value, one after another.
/// Each value is appended to `marks`: such an array as a list, and any other value as a null.
pub(crate) fn sized_list_items<'a>(
    alloc: Global,
    marks: &mut MutableMarks,
    size: usize,
    values: &[&'a Value],
    null: &'a Value,
) -> Result<Vec<&'a Value>>
    requires null { null.now ≡ null_value }
    requires no_list { marks.old.booleans ≡ [] }
    ensures data_type { marks.new.data_type ≡ marks.old.data_type }
    ensures booleans { OnOk result (marks.new.booleans ≡ are_sized size (lent values.now)) }
    ensures items { IfOk result (λ items. lent items.items ≡ all_sized size (lent values.now)) }
    ensures memory { OnlyOutOfMemory result }
{
    let mut items = Vec::new(alloc);
    fill_sized(marks, &mut items, size, values, null)?;
    Ok(items)
}

/// The member of this name, or `null` where there is none. It is looked for first at the index
/// `near`.
fn member_of<'a>(value: &'a Value, near: usize, name: &str, null: &'a Value) -> &'a Value
    requires { null.now ≡ null_value }
    ensures { result.now ≡ member_in name.now (out-Value value.now) }
{
    match value {
        Value::Object(object) => match object.get_near(near, name) {
            Some(member) => member,
            None => null,
        },
        _ => null,
    }
}

/// The member of this name of each value, or `null` where there is none. It mostly stands at the
/// index `near`.
pub(crate) fn members_named<'a>(
    alloc: Global,
    near: usize,
    name: &str,
    values: &[&'a Value],
    null: &'a Value,
) -> Result<Vec<&'a Value>>
    requires { null.now ≡ null_value }
    ensures members { IfOk result
        (λ v. lent v.items ≡ members_named_of name.now (lent values.now)) }
    ensures memory { OnlyOutOfMemory result }
{
    let mut members = Vec::new(alloc);
    for value in values {
        members.push(member_of(value, near, name, null))?;
    }
    Ok(members)
}

fn is_object(value: &Value) -> bool
    ensures { result ≡ is_object_of (out-Value value.now) }
{
    matches!(value, Value::Object(_))
}

/// Appends a slot for each value, which is valid where the value is an object.
fn fill_marks(marks: &mut MutableMarks, values: &[&Value]) -> Result<()>
    requires no_slot { marks.old.booleans ≡ [] }
    ensures data_type { marks.new.data_type ≡ marks.old.data_type }
    ensures booleans { OnOk result (marks.new.booleans ≡ are_objects (lent values.now)) }
    ensures memory { OnlyOutOfMemory result }
{
    for value in values {
        marks.push(is_object(value))?;
    }
    Ok(())
}

/// A slot for each value, which is valid where the value is an object.
pub(crate) fn object_marks(
    alloc: Global,
    data_type: &DataType,
    values: &[&Value],
) -> Result<MutableMarks>
    ensures data_type { IfOk result (λ m. m.data_type ≡ data_type.now) }
    ensures booleans { IfOk result (λ m. m.booleans ≡ are_objects (lent values.now)) }
    ensures memory { OnlyOutOfMemory result }
{
    let mut marks = MutableMarks::new(alloc, data_type.try_clone(alloc)?);
    fill_marks(&mut marks, values)?;
    Ok(marks)
}
