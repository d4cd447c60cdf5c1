//! Whether two arrays are equal.
ghost use Rattle.std.specs.Prelude.{◌≡◌, ◌+◌, ◌<◌, ◌↔◌, IsTrue, length, map};
ghost use Rattle.arrow_core.specs.declared.slot.Slot.TheVariants.{Integer as IntegerSlot};
ghost use Rattle.arrow_array.specs.Arrays.{array_type, array_slots};
ghost use Rattle.arrow_array.specs.Lent.{IsPart, part_slots};
ghost use Rattle.arrow_array.specs.Slots.{slot_at};
ghost use Rattle.arrow_array.specs.Structs.{HaveSlots, record_at};
ghost use Rattle.arrow_columns.specs.Cells.{cell_slot, interval_slot, CellFits};

use crate::cell::{Cell, cell_at};
use arrow_array::{Array, Part};
use arrow_core::MonthsDaysNs;

/// Whether slot `i` of the array is the integer.
fn is_integer(array: &Array, i: usize, number: i128) -> bool
    requires { i < length (array_slots array.now) }
    ensures { IsTrue result ↔ (slot_at (array_slots array.now) i ≡ IntegerSlot number) }
{
    match cell_at(array, i) {
        Cell::Integer(found) => found == number,
        _ => false,
    }
}

/// Whether the struct of the slots at index `i` is that of the interval's three integers.
fn is_interval(children: &[Array], i: usize, interval: MonthsDaysNs) -> bool
    requires { HaveSlots (i + 1) children.now }
    ensures { IsTrue result
        ↔ (record_at (map array_slots children.now) i ≡ interval_slot interval) }
{
    if children.len() != 3 {
        return false;
    }
    if !is_integer(&children[0], i, interval.months as i128) {
        return false;
    }
    if !is_integer(&children[1], i, interval.days as i128) {
        return false;
    }
    is_integer(&children[2], i, interval.ns as i128)
}

/// Whether two cells hold the same.
#[cycle(same)]
fn same_cells(left: &Cell<'_>, right: &Cell<'_>) -> bool
    requires left { CellFits left.now }
    requires right { CellFits right.now }
    ensures { IsTrue result ↔ (cell_slot left.now ≡ cell_slot right.now) }
{
    match left {
        Cell::Null => matches!(right, Cell::Null),
        Cell::Boolean(boolean) => match right {
            Cell::Boolean(boolean_2) => *boolean == *boolean_2,
            _ => false,
        },
        Cell::Integer(number) => match right {
            Cell::Integer(number_2) => *number == *number_2,
            _ => false,
        },
        Cell::Interval(interval) => match right {
            Cell::Interval(interval_2) => *interval == *interval_2,
            Cell::Struct(children, i) => is_interval(children, *i, *interval),
            _ => false,
        },
        Cell::String(string) => match right {
            Cell::String(string_2) => *string == *string_2,
            _ => false,
        },
        Cell::Binary(bytes) => match right {
            Cell::Binary(bytes_2) => *bytes == *bytes_2,
            _ => false,
        },
        Cell::List(part) => match right {
            Cell::List(part_2) => same_parts(part, part_2),
            _ => false,
        },
        Cell::Struct(children, i) => match right {
            Cell::Struct(children_2, j) => same_structs(children, *i, children_2, *j),
            Cell::Interval(interval) => is_interval(children, *i, *interval),
            _ => false,
        },
    }
}

/// Whether two parts have the same slots.
#[cycle(same)]
fn same_parts(left: &Part<'_>, right: &Part<'_>) -> bool
    requires left { IsPart left.now }
    requires right { IsPart right.now }
    ensures { IsTrue result ↔ (part_slots left.now ≡ part_slots right.now) }
{
    let count = left.end - left.start;
    if count != right.end - right.start {
        return false;
    }
    for k in 0..count {
        if !same_slot(left.array, left.start + k, right.array, right.start + k) {
            return false;
        }
    }
    true
}

/// Whether the struct of the slots at index `i` is that of the others at index `j`.
#[cycle(same)]
fn same_structs(left: &[Array], i: usize, right: &[Array], j: usize) -> bool
    requires left { HaveSlots (i + 1) left.now }
    requires right { HaveSlots (j + 1) right.now }
    ensures { IsTrue result
        ↔ (record_at (map array_slots left.now) i ≡ record_at (map array_slots right.now) j) }
{
    if left.len() != right.len() {
        return false;
    }
    for k in 0..left.len() {
        if !same_slot(&left[k], i, &right[k], j) {
            return false;
        }
    }
    true
}

/// Whether slot `i` of one array holds the same as slot `j` of the other.
#[cycle(same)]
fn same_slot(left: &Array, i: usize, right: &Array, j: usize) -> bool
    requires left { i < length (array_slots left.now) }
    requires right { j < length (array_slots right.now) }
    ensures { IsTrue result
        ↔ (slot_at (array_slots left.now) i ≡ slot_at (array_slots right.now) j) }
{
    let left = cell_at(left, i);
    let right = cell_at(right, j);
    same_cells(&left, &right)
}

/// Whether two arrays have the same slots.
fn same_slots(left: &Array, right: &Array) -> bool
    ensures { IsTrue result ↔ (array_slots left.now ≡ array_slots right.now) }
{
    let left = Part {
        array: left,
        start: 0,
        end: left.len(),
    };
    let right = Part {
        array: right,
        start: 0,
        end: right.len(),
    };
    same_parts(&left, &right)
}

/// Whether two arrays have the same data type and the same slots. What their buffers hold beneath
/// nulls plays no part. It takes no memory.
pub fn equal(lhs: &Array, rhs: &Array) -> bool
    ensures { IsTrue result
        ↔ ((array_type lhs.now ≡ array_type rhs.now)
        × (array_slots lhs.now ≡ array_slots rhs.now)) }
{
    if !lhs.data_type().is_same(rhs.data_type()) {
        return false;
    }
    same_slots(lhs, rhs)
}
