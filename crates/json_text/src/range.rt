//! Whether the dates that slots show are in the years 0 to 9999.
ghost use Rattle.std.specs.Prelude.{◌≡◌, ◌+◌, ◌-◌, ◌<◌, ◌≤◌, All, IsTrue, length, map, take, drop, true};
ghost use Rattle.std.specs.Bool.{OnTrue};
ghost use Rattle.std.specs.List.{list_all, range_with_len};
ghost use Rattle.arrow_array.specs.Arrays.{array_type, array_slots};
ghost use Rattle.arrow_array.specs.Slots.{is_held, slot_at};
ghost use Rattle.arrow_array.specs.Structs.{AreChildren, HaveSlots};
ghost use Rattle.json_text.specs.Columns.{IsForm};
ghost use Rattle.json_text.specs.Refusals.{in_range, all_in_range};

use crate::integers::{IntegerForm, integer_form, integer_in_range};
use crate::slots::fields_of;
use crate::types::holds_dates;
use arrow_array::{Array, StructArray};
use arrow_core::Field;

/// Whether the structs have no validity bitmap, so that none is null. Where they have one it isn't
/// looked at, whether or not a struct is null.
fn has_no_null(array: &StructArray) -> bool
    ensures { OnTrue result (All (λ x. IsTrue (is_held x)) array.now.slots) }
{
    array.validity().is_none()
}

/// Whether the dates that the slots from `start` to `end` show are in range. An array of a type
/// without dates isn't looked at.
#[cycle(range)]
pub(crate) fn dates_in_range(array: &Array, start: usize, end: usize) -> bool
    requires order { start ≤ end }
    requires within { end ≤ length (array_slots array.now) }
    ensures { result
        ≡ list_all (in_range (array_type array.now))
        (take (end - start) (drop start (array_slots array.now))) }
{
    if !holds_dates(array.data_type()) {
        return true;
    }
    let form = integer_form(array.data_type());
    run_in_range(array, start, end, &form)
}

/// The same, where the form of the array's integers is known. Structs without a validity bitmap are
/// looked at child by child, so that the form of each child is found once for all of them.
#[cycle(range)]
fn run_in_range(array: &Array, start: usize, end: usize, form: &IntegerForm) -> bool
    requires order { start ≤ end }
    requires within { end ≤ length (array_slots array.now) }
    requires form { IsForm form.now (array_type array.now) }
    ensures { result
        ≡ list_all (in_range (array_type array.now))
        (take (end - start) (drop start (array_slots array.now))) }
{
    if let Array::Struct(array) = array {
        if has_no_null(array) {
            let fields = fields_of(array.data_type());
            return children_in_range(fields, array.values(), start, end);
        }
    }
    slots_in_range(array, start, end, form)
}

/// The same, slot by slot.
#[cycle(range)]
fn slots_in_range(array: &Array, start: usize, end: usize, form: &IntegerForm) -> bool
    requires order { start ≤ end }
    requires within { end ≤ length (array_slots array.now) }
    requires form { IsForm form.now (array_type array.now) }
    ensures { result
        ≡ list_all (in_range (array_type array.now))
        (take (end - start) (drop start (array_slots array.now))) }
{
    for k in 0..end - start {
        if !in_range(array, start + k, form) {
            return false;
        }
    }
    true
}

/// Whether the dates that slot `i` of the array shows, whose integers have this form, are in range.
#[cycle(range)]
fn in_range(array: &Array, i: usize, form: &IntegerForm) -> bool
    requires within { i < length (array_slots array.now) }
    requires form { IsForm form.now (array_type array.now) }
    ensures { result ≡ in_range (array_type array.now) (slot_at (array_slots array.now) i) }
{
    if !array.is_valid(i) {
        return true;
    }
    let _ = array.data_type();
    match array {
        Array::Int32(array) => {
            let _ = array.data_type();
            integer_in_range(form, array.value(i) as i64)
        }
        Array::Int64(array) => {
            let _ = array.data_type();
            integer_in_range(form, array.value(i))
        }
        Array::List(array) => {
            let part = array.value(i);
            run_in_range(part.array, part.start, part.end, form)
        }
        Array::LargeList(array) => {
            let part = array.value(i);
            run_in_range(part.array, part.start, part.end, form)
        }
        Array::FixedSizeList(array) => {
            let part = array.value(i);
            run_in_range(part.array, part.start, part.end, form)
        }
        Array::Struct(array) => {
            // There are no more slots than a `usize` counts.
            let _ = array.len();
            children_in_range(fields_of(array.data_type()), array.values(), i, i + 1)
        }
        Array::Dictionary(array) => match array.keys().index(i) {
            Some(index) => in_range(array.values(), index, form),
            None => true,
        },
        _ => true,
    }
}

/// Whether those of the children's slots from `start` to `end` are, child by child.
#[cycle(range)]
fn children_in_range(fields: &[Field], children: &[Array], start: usize, end: usize) -> bool
    requires children { (n : _) × AreChildren n fields.now children.now }
    requires order { start ≤ end }
    requires slots { HaveSlots end children.now }
    ensures { result
        ≡ list_all (λ i. all_in_range fields.now
        (map (λ slots. slot_at slots i) (map array_slots children.now)))
        (range_with_len start (end - start)) }
{
    let _fields = fields;
    for child in children {
        if !dates_in_range(child, start, end) {
            return false;
        }
    }
    true
}
