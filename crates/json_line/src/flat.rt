//! Values that are lent go to builders without children.
ghost use Rattle.json_lend.specs.Standing.{lent_value};
ghost use Rattle.json_line.specs.Builders.{IsGiven};

use crate::content::{push_bytes, push_text};
use crate::plain::{push_as_null, push_boolean, push_int64, push_integer};
use arrow_builders::MutableArray;
use json_lend::{GivenUp, Lent};

/// Appends the slot that a value means under the builder's type, to a builder without children.
///
/// `GivenUp` may come at any time, and then the builder has any slots: where the builder is of
/// another kind, where the value doesn't fit it, and where there is no memory.
#[inline(always)]
pub(crate) fn push_flat<'a>(
    buffer: &mut String,
    builder: &mut MutableArray,
    lent: &Lent<'a>,
) -> Result<(), GivenUp>
    ensures { IsGiven (lent_value lent.now) builder.old builder.new result }
{
    match builder {
        MutableArray::Null(nulls) => push_as_null(nulls),
        MutableArray::Boolean(booleans) => push_boolean(booleans, lent),
        MutableArray::Int8(integers) => push_integer(integers, lent),
        MutableArray::Int16(integers) => push_integer(integers, lent),
        MutableArray::Int32(integers) => push_integer(integers, lent),
        MutableArray::Int64(integers) => push_int64(integers, lent),
        MutableArray::UInt8(integers) => push_integer(integers, lent),
        MutableArray::UInt16(integers) => push_integer(integers, lent),
        MutableArray::UInt32(integers) => push_integer(integers, lent),
        MutableArray::UInt64(integers) => push_integer(integers, lent),
        MutableArray::Utf8(strings) => push_text(buffer, strings, lent),
        MutableArray::LargeUtf8(strings) => push_text(buffer, strings, lent),
        MutableArray::Binary(values) => push_bytes(buffer, values, lent),
        MutableArray::LargeBinary(values) => push_bytes(buffer, values, lent),
        _ => Err(GivenUp),
    }
}
