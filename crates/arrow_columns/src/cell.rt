//! What a slot of an array holds.
ghost use Rattle.std.specs.Prelude.{◌≡◌, ◌<◌, ◌≤◌, length};
ghost use Rattle.arrow_core.specs.declared.types.DataType.{size-DataType};
ghost use Rattle.arrow_array.specs.Arrays.{array_type, array_slots};
ghost use Rattle.arrow_array.specs.Slots.{slot_at};
ghost use Rattle.arrow_columns.specs.Cells.{cell_slot, CellFits, cell_depth};

use arrow_array::{Array, Part};
use arrow_core::MonthsDaysNs;

/// What a slot of an array holds, lent by the array.
#[derive(Drop)]
pub enum Cell<'a> {
    /// Nothing.
    Null,
    /// A boolean.
    Boolean(bool),
    /// An integer.
    Integer(i128),
    /// An interval, whose slot is a struct of its three integers.
    Interval(MonthsDaysNs),
    /// A UTF-8 string.
    String(&'a str),
    /// Bytes.
    Binary(&'a [u8]),
    /// A list: the slots of the part.
    List(Part<'a>),
    /// A struct: the slots of these arrays at the index.
    Struct(&'a [Array], usize),
}

/// What slot `i` of the array holds, without a copy: of a dictionary, what the value at its key
/// holds.
pub fn cell_at(array: &Array, i: usize) -> Cell<'_>
    requires { i < length (array_slots array.now) }
    ensures slot { cell_slot result ≡ slot_at (array_slots array.now) i }
    ensures fits { CellFits result }
    ensures depth { cell_depth result ≤ size-DataType (array_type array.now) }
{
    if !array.is_valid(i) {
        return Cell::Null;
    }
    match array {
        Array::Null(array) => {
            // No slot of nulls is valid, so that this end isn't reached.
            let _held = array.is_valid(i);
            Cell::Null
        }
        Array::Boolean(array) => Cell::Boolean(array.value(i)),
        Array::Int8(array) => Cell::Integer(array.value(i) as i128),
        Array::Int16(array) => Cell::Integer(array.value(i) as i128),
        Array::Int32(array) => Cell::Integer(array.value(i) as i128),
        Array::Int64(array) => Cell::Integer(array.value(i) as i128),
        Array::UInt8(array) => Cell::Integer(array.value(i) as i128),
        Array::UInt16(array) => Cell::Integer(array.value(i) as i128),
        Array::UInt32(array) => Cell::Integer(array.value(i) as i128),
        Array::UInt64(array) => Cell::Integer(array.value(i) as i128),
        Array::Int128(array) => Cell::Integer(array.value(i)),
        Array::MonthDayNano(array) => Cell::Interval(array.value(i)),
        Array::Utf8(array) => Cell::String(array.value(i)),
        Array::LargeUtf8(array) => Cell::String(array.value(i)),
        Array::Binary(array) => Cell::Binary(array.value(i)),
        Array::LargeBinary(array) => Cell::Binary(array.value(i)),
        Array::FixedSizeBinary(array) => Cell::Binary(array.value(i)),
        Array::List(array) => Cell::List(array.value(i)),
        Array::LargeList(array) => Cell::List(array.value(i)),
        Array::FixedSizeList(array) => Cell::List(array.value(i)),
        Array::Struct(array) => Cell::Struct(array.values(), i),
        Array::Dictionary(array) => match array.keys().index(i) {
            Some(index) => cell_at(array.values(), index),
            None => Cell::Null,
        },
    }
}
