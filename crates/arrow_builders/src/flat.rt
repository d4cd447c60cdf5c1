//! What a builder of any kind without children does.

ghost use Rattle.std.specs.Prelude.{◌≡◌, ◌∷◌, [], map};
ghost use Rattle.arrow_array.specs.declared.array.Array.{Array as AnyArray};
ghost use Rattle.arrow_builders.specs.Calls.{Boxes, Clears, PushesNull, Reserves};
ghost use Rattle.arrow_builders.specs.MutableArrays.{nodes, lengths_of};
ghost use Rattle.arrow_builders.specs.Shapes.{IsFlat};

use crate::array::MutableArray;
use arrow_array::Array;
use arrow_core::Result;
use arrow_flat::NodeLengths;

/// The same of a builder of any kind without children.
macro_rules! for_each_flat_kind {
    ($array:expr, $builder:ident => $call:expr) => {
        match $array {
            MutableArray::Null($builder) => $call,
            MutableArray::Boolean($builder) => $call,
            MutableArray::Int8($builder) => $call,
            MutableArray::Int16($builder) => $call,
            MutableArray::Int32($builder) => $call,
            MutableArray::Int64($builder) => $call,
            MutableArray::UInt8($builder) => $call,
            MutableArray::UInt16($builder) => $call,
            MutableArray::UInt32($builder) => $call,
            MutableArray::UInt64($builder) => $call,
            MutableArray::Int128($builder) => $call,
            MutableArray::MonthDayNano($builder) => $call,
            MutableArray::Utf8($builder) => $call,
            MutableArray::LargeUtf8($builder) => $call,
            MutableArray::Binary($builder) => $call,
            MutableArray::LargeBinary($builder) => $call,
            MutableArray::FixedSizeBinary($builder) => $call,
            MutableArray::Dictionary($builder) => $call,
            MutableArray::List(_) => unreachable!(),
            MutableArray::LargeList(_) => unreachable!(),
            MutableArray::FixedSizeList(_) => unreachable!(),
            MutableArray::Struct(_) => unreachable!(),
        }
    };
}

impl MutableArray {
    /// How much the one node holds.
    pub(crate) fn flat_lengths(&self) -> NodeLengths
        requires { IsFlat self.now }
        ensures { map lengths_of (nodes self.now) ≡ result ∷ [] }
    {
        for_each_flat_kind!(self, builder => builder.lengths())
    }

    /// Appends a null.
    pub(crate) fn append_flat_null(&mut self) -> Result<()>
        requires { IsFlat self.old }
        ensures { PushesNull self.old self.new result }
    {
        for_each_flat_kind!(self, builder => builder.push_null())
    }

    /// Makes spare capacity for so many more slots and content bytes.
    pub(crate) fn reserve_flat(&mut self, additional: usize) -> Result<()>
        requires { IsFlat self.old }
        ensures { Reserves additional self.old self.new result }
    {
        for_each_flat_kind!(self, builder => builder.reserve_for(additional))
    }

    /// Drops every slot and keeps the capacity.
    pub(crate) fn clear_flat(&mut self)
        requires { IsFlat self.old }
        ensures { Clears self.old self.new }
    {
        for_each_flat_kind!(self, builder => builder.clear())
    }

    /// The array of the slots. The builder is then empty.
    pub(crate) fn box_flat(&mut self) -> Result<Array>
        requires { IsFlat self.old }
        ensures { Boxes (λ (a : AnyArray). a) self.old self.new result }
    {
        match self {
            MutableArray::Null(builder) => Ok(Array::Null(builder.as_box()?)),
            MutableArray::Boolean(builder) => Ok(Array::Boolean(builder.as_box()?)),
            MutableArray::Int8(builder) => Ok(Array::Int8(builder.as_box()?)),
            MutableArray::Int16(builder) => Ok(Array::Int16(builder.as_box()?)),
            MutableArray::Int32(builder) => Ok(Array::Int32(builder.as_box()?)),
            MutableArray::Int64(builder) => Ok(Array::Int64(builder.as_box()?)),
            MutableArray::UInt8(builder) => Ok(Array::UInt8(builder.as_box()?)),
            MutableArray::UInt16(builder) => Ok(Array::UInt16(builder.as_box()?)),
            MutableArray::UInt32(builder) => Ok(Array::UInt32(builder.as_box()?)),
            MutableArray::UInt64(builder) => Ok(Array::UInt64(builder.as_box()?)),
            MutableArray::Int128(builder) => Ok(Array::Int128(builder.as_box()?)),
            MutableArray::MonthDayNano(builder) => Ok(Array::MonthDayNano(builder.as_box()?)),
            MutableArray::Utf8(builder) => Ok(Array::Utf8(builder.as_box()?)),
            MutableArray::LargeUtf8(builder) => Ok(Array::LargeUtf8(builder.as_box()?)),
            MutableArray::Binary(builder) => Ok(Array::Binary(builder.as_box()?)),
            MutableArray::LargeBinary(builder) => Ok(Array::LargeBinary(builder.as_box()?)),
            MutableArray::FixedSizeBinary(builder) => Ok(Array::FixedSizeBinary(builder.as_box()?)),
            MutableArray::Dictionary(builder) => Ok(Array::Dictionary(builder.as_box()?)),
            MutableArray::List(_) => unreachable!(),
            MutableArray::LargeList(_) => unreachable!(),
            MutableArray::FixedSizeList(_) => unreachable!(),
            MutableArray::Struct(_) => unreachable!(),
        }
    }
}
