//! The text of slots of an array.
ghost use Rattle.std.specs.Prelude.{◌≡◌, ◌+◌, ◌-◌, ◌<◌, ◌≤◌, ◌++◌, length, map, take, drop, OnOk, if◌then◌else◌};
ghost use Rattle.std.specs.Io.{StartsWith};
ghost use Rattle.arrow_core.specs.declared.types.DataType.TheVariants.{Struct as StructType};
ghost use Rattle.arrow_array.specs.Arrays.{array_type, array_slots};
ghost use Rattle.arrow_array.specs.Kinds.{IsStructType};
ghost use Rattle.arrow_array.specs.Lent.{IsPart, part_slots};
ghost use Rattle.arrow_array.specs.Slots.{slot_at};
ghost use Rattle.arrow_array.specs.Structs.{HaveSlots};
ghost use Rattle.json_text.specs.Columns.{AreColumns, AreWithin, IsForm, columns_object};
ghost use Rattle.json_text.specs.JsonText.{text, array, joined, null};

use crate::bytes::{
    Appended, push, push_boolean_if, push_comma, push_null, push_signed_if, push_string_if,
    push_unsigned_if, push_wide_if,
};
use crate::columns::{Column, columns_within, push_key};
use crate::integers::{IntegerForm, integer_form, push_integer_if};
use crate::items::{
    push_binaries, push_booleans, push_fixed_size_binaries, push_nulls, push_numbers, push_strings,
};
use arrow_array::{
    Array, DictionaryArray, FixedSizeListArray, LargeListArray, ListArray, Part, StructArray,
};
use arrow_core::{DataType, Field};

/// Appends the JSON text of slot `i` of the array, by its type. Meant for arrays that `check`
/// accepts. Of others, binary values and month-day-nanosecond intervals are `null`, and so are dates
/// and timestamps outside the years 0 to 9999; integers of any other type are decimal, a decimal's
/// without its point; and a zone that is no offset counts as none.
///
/// `AllocError` where there is no memory. What stood in `out` stays: on `Ok` the text follows it, on
/// an error a part of the text.
pub fn push_slot(out: &mut Vec<u8>, array: &Array, i: usize) -> Appended
    requires { i < length (array_slots array.now) }
    ensures ok { OnOk result
        (out.new.items
        ≡ out.old.items ++ text (array_type array.now) (slot_at (array_slots array.now) i)) }
    ensures kept { StartsWith out.new.items out.old.items }
{
    let columns = columns_within(*out.allocator(), array.data_type())?;
    let form = integer_form(array.data_type());
    push_value(out, array, i, &form, columns.as_slice())
}

/// Appends the texts of all slots of the array, with commas between them.
///
/// `AllocError` where there is no memory. What stood in `out` stays: on `Ok` the text follows it, on
/// an error a part of the text.
pub fn push_slots(out: &mut Vec<u8>, array: &Array) -> Appended
    ensures ok { OnOk result
        (out.new.items
        ≡ out.old.items ++ joined (map (text (array_type array.now)) (array_slots array.now))) }
    ensures kept { StartsWith out.new.items out.old.items }
{
    let columns = columns_within(*out.allocator(), array.data_type())?;
    let form = integer_form(array.data_type());
    push_items(out, array, 0, array.len(), &form, columns.as_slice())
}

/// Appends the text of slot `i` of the array, as `push_slot` does, where the form of its integers and
/// the columns within it have been made before, by `integer_form` and `columns_within`.
///
/// `AllocError` where there is no memory. What stood in `out` stays: on `Ok` the text follows it, on
/// an error a part of the text.
#[cycle(slots)]
pub fn push_value(
    out: &mut Vec<u8>,
    array: &Array,
    i: usize,
    form: &IntegerForm,
    columns: &[Column],
) -> Appended
    requires within { i < length (array_slots array.now) }
    requires form { IsForm form.now (array_type array.now) }
    requires columns { AreWithin (array_type array.now) columns.now }
    ensures ok { OnOk result
        (out.new.items
        ≡ out.old.items ++ text (array_type array.now) (slot_at (array_slots array.now) i)) }
    ensures kept { StartsWith out.new.items out.old.items }
{
    match array {
        Array::Null(array) => {
            // It says that the slot is null.
            let _ = array.is_valid(i);
            push_null(out)
        }
        Array::Boolean(array) => push_boolean_if(out, array.is_valid(i), array.value(i)),
        Array::Int8(array) => {
            let _ = array.data_type();
            push_signed_if(out, array.is_valid(i), array.value(i) as i64)
        }
        Array::Int16(array) => {
            let _ = array.data_type();
            push_signed_if(out, array.is_valid(i), array.value(i) as i64)
        }
        Array::Int32(array) => {
            let _ = array.data_type();
            push_integer_if(out, form, array.is_valid(i), array.value(i) as i64)
        }
        Array::Int64(array) => {
            let _ = array.data_type();
            push_integer_if(out, form, array.is_valid(i), array.value(i))
        }
        Array::UInt8(array) => {
            let _ = array.data_type();
            push_unsigned_if(out, array.is_valid(i), array.value(i) as u64)
        }
        Array::UInt16(array) => {
            let _ = array.data_type();
            push_unsigned_if(out, array.is_valid(i), array.value(i) as u64)
        }
        Array::UInt32(array) => {
            let _ = array.data_type();
            push_unsigned_if(out, array.is_valid(i), array.value(i) as u64)
        }
        Array::UInt64(array) => {
            let _ = array.data_type();
            push_unsigned_if(out, array.is_valid(i), array.value(i))
        }
        Array::Int128(array) => {
            let _ = array.data_type();
            push_wide_if(out, array.is_valid(i), array.value(i))
        }
        Array::MonthDayNano(array) => {
            let _ = array.data_type();
            let _ = array.is_valid(i);
            let _ = array.value(i);
            push_null(out)
        }
        Array::Utf8(array) => push_string_if(out, array.is_valid(i), array.value(i)),
        Array::LargeUtf8(array) => push_string_if(out, array.is_valid(i), array.value(i)),
        Array::Binary(array) => {
            let _ = array.is_valid(i);
            let _ = array.value(i);
            push_null(out)
        }
        Array::LargeBinary(array) => {
            let _ = array.is_valid(i);
            let _ = array.value(i);
            push_null(out)
        }
        Array::FixedSizeBinary(array) => {
            let _ = array.is_valid(i);
            let _ = array.value(i);
            push_null(out)
        }
        Array::List(array) => push_list(out, array, i, form, columns),
        Array::LargeList(array) => push_large_list(out, array, i, form, columns),
        Array::FixedSizeList(array) => push_fixed_size_list(out, array, i, form, columns),
        Array::Struct(array) => push_struct(out, array, i, columns),
        Array::Dictionary(array) => push_dictionary(out, array, i, form, columns),
    }
}

/// The fields of a type of structs.
pub(crate) fn fields_of(data_type: &DataType) -> &[Field]
    requires { IsStructType data_type.now }
    ensures { data_type.now ≡ StructType result.now }
{
    match data_type {
        DataType::Struct(fields) => fields.as_slice(),
        _ => unreachable!(),
    }
}

/// Appends the text of a list.
#[inline(never)]
#[cycle(slots)]
fn push_list(
    out: &mut Vec<u8>,
    array: &ListArray,
    i: usize,
    form: &IntegerForm,
    columns: &[Column],
) -> Appended
    requires within { i < length array.now.slots }
    requires form { IsForm form.now array.now.data_type }
    requires columns { AreWithin array.now.data_type columns.now }
    ensures ok { OnOk result
        (out.new.items ≡ out.old.items ++ text array.now.data_type (slot_at array.now.slots i)) }
    ensures kept { StartsWith out.new.items out.old.items }
{
    push_part(out, array.is_valid(i), &array.value(i), form, columns)
}

/// Appends the text of a large list.
#[inline(never)]
#[cycle(slots)]
fn push_large_list(
    out: &mut Vec<u8>,
    array: &LargeListArray,
    i: usize,
    form: &IntegerForm,
    columns: &[Column],
) -> Appended
    requires within { i < length array.now.slots }
    requires form { IsForm form.now array.now.data_type }
    requires columns { AreWithin array.now.data_type columns.now }
    ensures ok { OnOk result
        (out.new.items ≡ out.old.items ++ text array.now.data_type (slot_at array.now.slots i)) }
    ensures kept { StartsWith out.new.items out.old.items }
{
    push_part(out, array.is_valid(i), &array.value(i), form, columns)
}

/// Appends the text of a list of fixed size.
#[inline(never)]
#[cycle(slots)]
fn push_fixed_size_list(
    out: &mut Vec<u8>,
    array: &FixedSizeListArray,
    i: usize,
    form: &IntegerForm,
    columns: &[Column],
) -> Appended
    requires within { i < length array.now.slots }
    requires form { IsForm form.now array.now.data_type }
    requires columns { AreWithin array.now.data_type columns.now }
    ensures ok { OnOk result
        (out.new.items ≡ out.old.items ++ text array.now.data_type (slot_at array.now.slots i)) }
    ensures kept { StartsWith out.new.items out.old.items }
{
    push_part(out, array.is_valid(i), &array.value(i), form, columns)
}

/// Appends the text of a dictionary's value.
#[inline(never)]
#[cycle(slots)]
fn push_dictionary(
    out: &mut Vec<u8>,
    array: &DictionaryArray,
    i: usize,
    form: &IntegerForm,
    columns: &[Column],
) -> Appended
    requires within { i < length array.now.slots }
    requires form { IsForm form.now array.now.data_type }
    requires columns { AreWithin array.now.data_type columns.now }
    ensures ok { OnOk result
        (out.new.items ≡ out.old.items ++ text array.now.data_type (slot_at array.now.slots i)) }
    ensures kept { StartsWith out.new.items out.old.items }
{
    match array.keys().index(i) {
        Some(index) => push_value(out, array.values(), index, form, columns),
        None => push_null(out),
    }
}

/// Appends the text of a struct.
#[cycle(slots)]
fn push_struct(out: &mut Vec<u8>, array: &StructArray, i: usize, columns: &[Column]) -> Appended
    requires within { i < length array.now.slots }
    requires columns { AreWithin array.now.data_type columns.now }
    ensures ok { OnOk result
        (out.new.items ≡ out.old.items ++ text array.now.data_type (slot_at array.now.slots i)) }
    ensures kept { StartsWith out.new.items out.old.items }
{
    if !array.is_valid(i) {
        return push_null(out);
    }
    push_object(out, array.values(), i, columns)
}

/// Appends the text of a list, or `null` where there is none.
#[inline(always)]
#[cycle(slots)]
fn push_part(
    out: &mut Vec<u8>,
    is_valid: bool,
    part: &Part<'_>,
    form: &IntegerForm,
    columns: &[Column],
) -> Appended
    requires part { IsPart part.now }
    requires form { IsForm form.now (array_type part.now.array.now) }
    requires columns { AreWithin (array_type part.now.array.now) columns.now }
    ensures ok { OnOk result
        (out.new.items
        ≡ out.old.items
        ++ (if is_valid then array (map (text (array_type part.now.array.now))
        (part_slots part.now)) else null)) }
    ensures kept { StartsWith out.new.items out.old.items }
{
    if !is_valid {
        return push_null(out);
    }
    if part.start == part.end {
        return push(out, b"[]");
    }
    push(out, b"[")?;
    push_items(out, part.array, part.start, part.end, form, columns)?;
    push(out, b"]")
}

/// Appends the texts of the slots from `start` to `end`, with commas between them. The array's kind
/// is looked at once for all of them.
#[inline(always)]
#[cycle(slots)]
fn push_items(
    out: &mut Vec<u8>,
    array: &Array,
    start: usize,
    end: usize,
    form: &IntegerForm,
    columns: &[Column],
) -> Appended
    requires order { start ≤ end }
    requires within { end ≤ length (array_slots array.now) }
    requires form { IsForm form.now (array_type array.now) }
    requires columns { AreWithin (array_type array.now) columns.now }
    ensures ok { OnOk result
        (out.new.items
        ≡ out.old.items
        ++ joined (map (text (array_type array.now))
        (take (end - start) (drop start (array_slots array.now))))) }
    ensures kept { StartsWith out.new.items out.old.items }
{
    match array {
        Array::Null(array) => push_nulls(out, array, start, end),
        Array::Boolean(array) => push_booleans(out, array, start, end),
        Array::Int8(array) => push_numbers(out, array, start, end, form),
        Array::Int16(array) => push_numbers(out, array, start, end, form),
        Array::Int32(array) => push_numbers(out, array, start, end, form),
        Array::Int64(array) => push_numbers(out, array, start, end, form),
        Array::UInt8(array) => push_numbers(out, array, start, end, form),
        Array::UInt16(array) => push_numbers(out, array, start, end, form),
        Array::UInt32(array) => push_numbers(out, array, start, end, form),
        Array::UInt64(array) => push_numbers(out, array, start, end, form),
        Array::Int128(array) => push_numbers(out, array, start, end, form),
        Array::MonthDayNano(array) => push_numbers(out, array, start, end, form),
        Array::Utf8(array) => push_strings(out, array, start, end),
        Array::LargeUtf8(array) => push_strings(out, array, start, end),
        Array::Binary(array) => push_binaries(out, array, start, end),
        Array::LargeBinary(array) => push_binaries(out, array, start, end),
        Array::FixedSizeBinary(array) => push_fixed_size_binaries(out, array, start, end),
        Array::List(array) => push_lists(out, array, start, end, form, columns),
        Array::LargeList(array) => push_large_lists(out, array, start, end, form, columns),
        Array::FixedSizeList(array) => push_fixed_size_lists(out, array, start, end, form, columns),
        Array::Struct(array) => push_structs(out, array, start, end, columns),
        Array::Dictionary(array) => push_dictionaries(out, array, start, end, form, columns),
    }
}

/// The same of lists.
#[cycle(slots)]
fn push_lists(
    out: &mut Vec<u8>,
    array: &ListArray,
    start: usize,
    end: usize,
    form: &IntegerForm,
    columns: &[Column],
) -> Appended
    requires order { start ≤ end }
    requires within { end ≤ length array.now.slots }
    requires form { IsForm form.now array.now.data_type }
    requires columns { AreWithin array.now.data_type columns.now }
    ensures ok { OnOk result
        (out.new.items
        ≡ out.old.items
        ++ joined (map (text array.now.data_type)
        (take (end - start) (drop start array.now.slots)))) }
    ensures kept { StartsWith out.new.items out.old.items }
{
    for k in 0..end - start {
        push_comma(out, k)?;
        push_list(out, array, start + k, form, columns)?;
    }
    Ok(())
}

/// The same of large lists.
#[cycle(slots)]
fn push_large_lists(
    out: &mut Vec<u8>,
    array: &LargeListArray,
    start: usize,
    end: usize,
    form: &IntegerForm,
    columns: &[Column],
) -> Appended
    requires order { start ≤ end }
    requires within { end ≤ length array.now.slots }
    requires form { IsForm form.now array.now.data_type }
    requires columns { AreWithin array.now.data_type columns.now }
    ensures ok { OnOk result
        (out.new.items
        ≡ out.old.items
        ++ joined (map (text array.now.data_type)
        (take (end - start) (drop start array.now.slots)))) }
    ensures kept { StartsWith out.new.items out.old.items }
{
    for k in 0..end - start {
        push_comma(out, k)?;
        push_large_list(out, array, start + k, form, columns)?;
    }
    Ok(())
}

/// The same of lists of fixed size.
#[cycle(slots)]
fn push_fixed_size_lists(
    out: &mut Vec<u8>,
    array: &FixedSizeListArray,
    start: usize,
    end: usize,
    form: &IntegerForm,
    columns: &[Column],
) -> Appended
    requires order { start ≤ end }
    requires within { end ≤ length array.now.slots }
    requires form { IsForm form.now array.now.data_type }
    requires columns { AreWithin array.now.data_type columns.now }
    ensures ok { OnOk result
        (out.new.items
        ≡ out.old.items
        ++ joined (map (text array.now.data_type)
        (take (end - start) (drop start array.now.slots)))) }
    ensures kept { StartsWith out.new.items out.old.items }
{
    for k in 0..end - start {
        push_comma(out, k)?;
        push_fixed_size_list(out, array, start + k, form, columns)?;
    }
    Ok(())
}

/// The same of the values of a dictionary.
#[cycle(slots)]
fn push_dictionaries(
    out: &mut Vec<u8>,
    array: &DictionaryArray,
    start: usize,
    end: usize,
    form: &IntegerForm,
    columns: &[Column],
) -> Appended
    requires order { start ≤ end }
    requires within { end ≤ length array.now.slots }
    requires form { IsForm form.now array.now.data_type }
    requires columns { AreWithin array.now.data_type columns.now }
    ensures ok { OnOk result
        (out.new.items
        ≡ out.old.items
        ++ joined (map (text array.now.data_type)
        (take (end - start) (drop start array.now.slots)))) }
    ensures kept { StartsWith out.new.items out.old.items }
{
    for k in 0..end - start {
        push_comma(out, k)?;
        push_dictionary(out, array, start + k, form, columns)?;
    }
    Ok(())
}

/// The same of structs.
#[cycle(slots)]
fn push_structs(
    out: &mut Vec<u8>,
    array: &StructArray,
    start: usize,
    end: usize,
    columns: &[Column],
) -> Appended
    requires order { start ≤ end }
    requires within { end ≤ length array.now.slots }
    requires columns { AreWithin array.now.data_type columns.now }
    ensures ok { OnOk result
        (out.new.items
        ≡ out.old.items
        ++ joined (map (text array.now.data_type)
        (take (end - start) (drop start array.now.slots)))) }
    ensures kept { StartsWith out.new.items out.old.items }
{
    for k in 0..end - start {
        push_comma(out, k)?;
        push_struct(out, array, start + k, columns)?;
    }
    Ok(())
}

/// Appends the object of the arrays' slots at index `i`, a member for each of these columns.
///
/// `AllocError` where there is no memory. What stood in `out` stays: on `Ok` the text follows it, on
/// an error a part of the text.
#[cycle(slots)]
pub fn push_object(out: &mut Vec<u8>, arrays: &[Array], i: usize, columns: &[Column]) -> Appended
    requires slots { HaveSlots (i + 1) arrays.now }
    requires columns { AreColumns arrays.now columns.now }
    ensures ok { OnOk result
        (out.new.items ≡ out.old.items ++ columns_object arrays.now columns.now i) }
    ensures kept { StartsWith out.new.items out.old.items }
{
    if arrays.is_empty() {
        return push(out, b"{}");
    }
    let mut rest = columns;
    for array in arrays {
        let [column, more @ ..] = rest else {
            unreachable!()
        };
        push_key(out, &column.key)?;
        let (within, after) = more.split_at(column.within);
        push_value(out, array, i, &column.form, within)?;
        rest = after;
    }
    push(out, b"}")
}
