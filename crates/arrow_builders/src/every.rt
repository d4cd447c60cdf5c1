//! What a builder of any kind does at each of its nodes.

ghost use Rattle.std.specs.Prelude.{◌≡◌};
ghost use Rattle.arrow_array.specs.declared.array.Array.{Array as AnyArray};
ghost use Rattle.arrow_builders.specs.Calls.{Boxes, Clears, PushesNull, Reserves};
ghost use Rattle.arrow_builders.specs.Found.{found_at};
ghost use Rattle.arrow_builders.specs.MutableArrays.{nodes};

use crate::array::MutableArray;
use crate::find::here_or;
use arrow_array::Array;
use arrow_core::Result;
use arrow_flat::NodeLengths;

impl MutableArray {
    /// What the node of this number holds, or how far the number is past the last one.
    #[cycle(searches)]
    pub(crate) fn find_node(&self, node: usize) -> std::result::Result<NodeLengths, usize>
        ensures { result ≡ found_at (nodes self.now) node }
    {
        match self {
            MutableArray::List(builder) => builder.find_node(node),
            MutableArray::LargeList(builder) => builder.find_node(node),
            MutableArray::FixedSizeList(builder) => builder.find_node(node),
            MutableArray::Struct(builder) => builder.find_node(node),
            _ => here_or(self.flat_lengths(), node),
        }
    }

    /// `push_null`, with the nulls beneath.
    #[cycle(nulls)]
    pub(crate) fn append_null(&mut self) -> Result<()>
        ensures { PushesNull self.old self.new result }
    {
        match self {
            MutableArray::List(builder) => builder.push_null(),
            MutableArray::LargeList(builder) => builder.push_null(),
            MutableArray::FixedSizeList(builder) => builder.push_null(),
            MutableArray::Struct(builder) => builder.push_null(),
            _ => self.append_flat_null(),
        }
    }

    /// `reserve_for`, in the children too.
    #[cycle(reserves)]
    pub(crate) fn reserve_nodes(&mut self, additional: usize) -> Result<()>
        ensures { Reserves additional self.old self.new result }
    {
        match self {
            MutableArray::List(builder) => builder.reserve_for(additional),
            MutableArray::LargeList(builder) => builder.reserve_for(additional),
            MutableArray::FixedSizeList(builder) => builder.reserve_for(additional),
            MutableArray::Struct(builder) => builder.reserve_for(additional),
            _ => self.reserve_flat(additional),
        }
    }

    /// `clear`, of the children too.
    #[cycle(clears)]
    pub(crate) fn clear_nodes(&mut self)
        ensures { Clears self.old self.new }
    {
        match self {
            MutableArray::List(builder) => builder.clear(),
            MutableArray::LargeList(builder) => builder.clear(),
            MutableArray::FixedSizeList(builder) => builder.clear(),
            MutableArray::Struct(builder) => builder.clear(),
            _ => self.clear_flat(),
        }
    }

    /// `as_box`, with the arrays of the children.
    #[cycle(boxes)]
    pub(crate) fn box_nodes(&mut self) -> Result<Array>
        ensures { Boxes (λ (a : AnyArray). a) self.old self.new result }
    {
        match self {
            MutableArray::List(builder) => match builder.as_box() {
                Ok(array) => Ok(Array::List(array)),
                Err(error) => Err(error),
            },
            MutableArray::LargeList(builder) => match builder.as_box() {
                Ok(array) => Ok(Array::LargeList(array)),
                Err(error) => Err(error),
            },
            MutableArray::FixedSizeList(builder) => match builder.as_box() {
                Ok(array) => Ok(Array::FixedSizeList(array)),
                Err(error) => Err(error),
            },
            MutableArray::Struct(builder) => match builder.as_box() {
                Ok(array) => Ok(Array::Struct(array)),
                Err(error) => Err(error),
            },
            _ => self.box_flat(),
        }
    }
}
