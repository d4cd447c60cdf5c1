//! The texts of runs of items of one flat kind.
ghost use Rattle.std.specs.Prelude.{◌≡◌, ◌-◌, ◌≤◌, ◌++◌, length, map, take, drop, OnOk};
ghost use Rattle.std.specs.Io.{StartsWith};
ghost use Rattle.json_text.specs.Columns.{IsForm};
ghost use Rattle.json_text.specs.JsonText.{text, joined};

use crate::bytes::{Appended, push_boolean_if, push_comma, push_null, push_string_if};
use crate::integers::IntegerForm;
use crate::numbers::Printed;
use arrow_array::{
    BinaryArray, BooleanArray, FixedSizeBinaryArray, NullArray, PrimitiveArray, Utf8Array,
};
use arrow_core::Offset;

/// Appends the texts of the values from `start` to `end`, of integers of this form, with commas
/// between them.
pub(crate) fn push_numbers<T: Printed>(
    out: &mut Vec<u8>,
    array: &PrimitiveArray<T>,
    start: usize,
    end: usize,
    form: &IntegerForm,
) -> Appended
    requires order { start ≤ end }
    requires within { end ≤ length array.now.slots }
    requires form { IsForm form.now array.now.data_type }
    ensures ok { OnOk result
        (out.new.items
        ≡ out.old.items
        ++ joined (map (text array.now.data_type)
        (take (end - start) (drop start array.now.slots)))) }
    ensures kept { StartsWith out.new.items out.old.items }
{
    let _ = array.data_type();
    for k in 0..end - start {
        push_comma(out, k)?;
        let i = start + k;
        array.value(i).push_if(out, form, array.is_valid(i))?;
    }
    Ok(())
}

/// The same of strings.
pub(crate) fn push_strings<O: Offset>(
    out: &mut Vec<u8>,
    array: &Utf8Array<O>,
    start: usize,
    end: usize,
) -> Appended
    requires order { start ≤ end }
    requires within { end ≤ length array.now.slots }
    ensures ok { OnOk result
        (out.new.items
        ≡ out.old.items
        ++ joined (map (text array.now.data_type)
        (take (end - start) (drop start array.now.slots)))) }
    ensures kept { StartsWith out.new.items out.old.items }
{
    for k in 0..end - start {
        push_comma(out, k)?;
        let i = start + k;
        push_string_if(out, array.is_valid(i), array.value(i))?;
    }
    Ok(())
}

/// The same of booleans.
pub(crate) fn push_booleans(
    out: &mut Vec<u8>,
    array: &BooleanArray,
    start: usize,
    end: usize,
) -> Appended
    requires order { start ≤ end }
    requires within { end ≤ length array.now.slots }
    ensures ok { OnOk result
        (out.new.items
        ≡ out.old.items
        ++ joined (map (text array.now.data_type)
        (take (end - start) (drop start array.now.slots)))) }
    ensures kept { StartsWith out.new.items out.old.items }
{
    for k in 0..end - start {
        push_comma(out, k)?;
        let i = start + k;
        push_boolean_if(out, array.is_valid(i), array.value(i))?;
    }
    Ok(())
}

/// The same of nulls.
pub(crate) fn push_nulls(out: &mut Vec<u8>, array: &NullArray, start: usize, end: usize) -> Appended
    requires order { start ≤ end }
    requires within { end ≤ length array.now.slots }
    ensures ok { OnOk result
        (out.new.items
        ≡ out.old.items
        ++ joined (map (text array.now.data_type)
        (take (end - start) (drop start array.now.slots)))) }
    ensures kept { StartsWith out.new.items out.old.items }
{
    for k in 0..end - start {
        push_comma(out, k)?;
        let i = start + k;
        // It says that the slot is null.
        let _ = array.is_valid(i);
        push_null(out)?;
    }
    Ok(())
}

/// The same of binary values, for which `null` stands.
pub(crate) fn push_binaries<O: Offset>(
    out: &mut Vec<u8>,
    array: &BinaryArray<O>,
    start: usize,
    end: usize,
) -> Appended
    requires order { start ≤ end }
    requires within { end ≤ length array.now.slots }
    ensures ok { OnOk result
        (out.new.items
        ≡ out.old.items
        ++ joined (map (text array.now.data_type)
        (take (end - start) (drop start array.now.slots)))) }
    ensures kept { StartsWith out.new.items out.old.items }
{
    for k in 0..end - start {
        push_comma(out, k)?;
        let i = start + k;
        let _ = array.is_valid(i);
        let _ = array.value(i);
        push_null(out)?;
    }
    Ok(())
}

/// The same of fixed-size binary values.
pub(crate) fn push_fixed_size_binaries(
    out: &mut Vec<u8>,
    array: &FixedSizeBinaryArray,
    start: usize,
    end: usize,
) -> Appended
    requires order { start ≤ end }
    requires within { end ≤ length array.now.slots }
    ensures ok { OnOk result
        (out.new.items
        ≡ out.old.items
        ++ joined (map (text array.now.data_type)
        (take (end - start) (drop start array.now.slots)))) }
    ensures kept { StartsWith out.new.items out.old.items }
{
    for k in 0..end - start {
        push_comma(out, k)?;
        let i = start + k;
        let _ = array.is_valid(i);
        let _ = array.value(i);
        push_null(out)?;
    }
    Ok(())
}
