//! A builder of any kind.

ghost use Rattle.std.specs.Prelude.{◌≡◌, false, ◌≤◌, ◌++◌, ◌∷◌, [], length, option_map, slice_get, IsOk, IfOk, IfErr, OnOk, OnErr};
ghost use Rattle.std.specs.List.{All, AllZip};
ghost use Rattle.arrow_core.specs.Errors.{OnlyOutOfMemory};
ghost use Rattle.arrow_core.specs.declared.error.Error.TheVariants.{OutOfMemory};
ghost use Rattle.arrow_core.specs.Layouts.{physical_type};
ghost use Rattle.arrow_core.specs.declared.slot.Slot.TheVariants.{Null as NullSlot};
ghost use Rattle.arrow_array.specs.Arrays.{array_type, array_slots, dictionaries_of};
ghost use Rattle.arrow_array.specs.Parts.{IsRefusalOf, is_extension};
ghost use Rattle.arrow_flat.specs.Nodes.{NoLessSpare, Emptied, HasSpare, IsEmpty};
ghost use Rattle.arrow_builders.specs.Calls.{PushesNull};
ghost use Rattle.arrow_builders.specs.Fits.{ChildrenFit, TypesFit};
ghost use Rattle.arrow_builders.specs.FixedContent.{HasFixedContent};
ghost use Rattle.arrow_builders.specs.MutableArrays.{builder_type, builder_slots, builder_dictionaries, builder_kind, nodes, lengths_of, slots_at};
ghost use Rattle.arrow_builders.specs.NormalizedArrays.{IsNormalized};
ghost use Rattle.arrow_builders.specs.Shapes.{shape, nulls_at, AllTake, AllGetNulls, AllGetBytes, FitsIn, BytesFitIn, IsFlat};
ghost use Rattle.arrow_builders.specs.Tight.{IsTight};

use crate::fixed_size_list::MutableFixedSizeListArray;
use crate::large_list::DynMutableLargeListArray;
use crate::list::DynMutableListArray;
use crate::structs::DynMutableStructArray;
use arrow_array::Array;
use arrow_core::{DataType, MonthsDaysNs, Result};
use arrow_flat::{
    FixedItemsUtf8Dictionary, MutableBinaryArray, MutableBooleanArray, MutableFixedSizeBinaryArray,
    MutableNullArray, MutablePrimitiveArray, MutableUtf8Array, NodeLengths,
};

/// A builder of any kind: it takes slots one after the other and hands out the array of them.
#[cycle(builders)]
#[derive(Drop)]
pub enum MutableArray {
    /// Nulls.
    Null(MutableNullArray),
    /// Booleans.
    Boolean(MutableBooleanArray),
    /// Integers of 8 bits, of any type whose values are stored so.
    Int8(MutablePrimitiveArray<i8>),
    /// Integers of 16 bits, of any type whose values are stored so.
    Int16(MutablePrimitiveArray<i16>),
    /// Integers of 32 bits, of any type whose values are stored so.
    Int32(MutablePrimitiveArray<i32>),
    /// Integers of 64 bits, of any type whose values are stored so.
    Int64(MutablePrimitiveArray<i64>),
    /// Unsigned integers of 8 bits.
    UInt8(MutablePrimitiveArray<u8>),
    /// Unsigned integers of 16 bits.
    UInt16(MutablePrimitiveArray<u16>),
    /// Unsigned integers of 32 bits.
    UInt32(MutablePrimitiveArray<u32>),
    /// Unsigned integers of 64 bits.
    UInt64(MutablePrimitiveArray<u64>),
    /// Integers of 128 bits, of any type whose values are stored so.
    Int128(MutablePrimitiveArray<i128>),
    /// Intervals.
    MonthDayNano(MutablePrimitiveArray<MonthsDaysNs>),
    /// Strings with offsets of 32 bits.
    Utf8(MutableUtf8Array<i32>),
    /// Strings with offsets of 64 bits.
    LargeUtf8(MutableUtf8Array<i64>),
    /// Binary values with offsets of 32 bits.
    Binary(MutableBinaryArray<i32>),
    /// Binary values with offsets of 64 bits.
    LargeBinary(MutableBinaryArray<i64>),
    /// Fixed-size binary values.
    FixedSizeBinary(MutableFixedSizeBinaryArray),
    /// Lists with offsets of 32 bits.
    List(DynMutableListArray),
    /// Lists with offsets of 64 bits.
    LargeList(DynMutableLargeListArray),
    /// Fixed-size lists.
    FixedSizeList(MutableFixedSizeListArray),
    /// Structs.
    Struct(DynMutableStructArray),
    /// Strings by their keys among given ones.
    Dictionary(FixedItemsUtf8Dictionary),
}

/// The same of a builder of any kind.
macro_rules! for_each_kind {
    ($array:expr, $builder:ident => $call:expr) => {
        match $array {
            MutableArray::Null($builder) => $call,
            MutableArray::Boolean($builder) => $call,
            MutableArray::Int8($builder) => $call,
            MutableArray::Int16($builder) => $call,
            MutableArray::Int32($builder) => $call,
            MutableArray::Int64($builder) => $call,
            MutableArray::UInt8($builder) => $call,
            MutableArray::UInt16($builder) => $call,
            MutableArray::UInt32($builder) => $call,
            MutableArray::UInt64($builder) => $call,
            MutableArray::Int128($builder) => $call,
            MutableArray::MonthDayNano($builder) => $call,
            MutableArray::Utf8($builder) => $call,
            MutableArray::LargeUtf8($builder) => $call,
            MutableArray::Binary($builder) => $call,
            MutableArray::LargeBinary($builder) => $call,
            MutableArray::FixedSizeBinary($builder) => $call,
            MutableArray::List($builder) => $call,
            MutableArray::LargeList($builder) => $call,
            MutableArray::FixedSizeList($builder) => $call,
            MutableArray::Struct($builder) => $call,
            MutableArray::Dictionary($builder) => $call,
        }
    };
}

impl MutableArray {
    /// How many slots there are, nulls among them. It takes no memory.
    pub fn len(&self) -> usize
        ensures { result ≡ length (builder_slots self.now) }
    {
        for_each_kind!(self, builder => builder.len())
    }

    /// The data type: of a builder without children one that is kept as the builder's kind. It
    /// takes no memory.
    pub fn data_type(&self) -> &DataType
        ensures same { result.now ≡ builder_type self.now }
        ensures kind { IsFlat self.now
            → physical_type (builder_type self.now) ≡ builder_kind self.now }
        ensures plain { IsFlat self.now → is_extension (builder_type self.now) ≡ false }
    {
        for_each_kind!(self, builder => builder.data_type())
    }

    /// How much the node of this number holds, counted in preorder from 0; `None` exactly where
    /// there is no such node. It takes no memory.
    pub fn node_lengths(&self, node: usize) -> Option<NodeLengths>
        ensures { result ≡ option_map lengths_of (slice_get (nodes self.now) node) }
    {
        match self.find_node(node) {
            Ok(here) => Some(here),
            Err(_) => None,
        }
    }

    /// Law: in each builder of fixed-size binary values, this one and those at any depth beneath,
    /// the content bytes are its slots times the width of its type. It looks at each child once,
    /// changes nothing, and takes no memory.
    #[cycle(contents)]
    pub fn fixed_content_is_whole(&self)
        ensures { HasFixedContent self.now }
    {
        match self {
            MutableArray::FixedSizeBinary(builder) => {
                let _ = builder.len();
            }
            MutableArray::List(builder) => builder.fixed_content_is_whole(),
            MutableArray::LargeList(builder) => builder.fixed_content_is_whole(),
            MutableArray::FixedSizeList(builder) => builder.fixed_content_is_whole(),
            MutableArray::Struct(builder) => builder.fixed_content_is_whole(),
            _ => {}
        }
    }

    /// Appends a null. Of fixed-size binary values it takes as many content bytes as a value.
    ///
    /// Beneath a null struct each child takes a null, and beneath a null fixed-size list as
    /// many as a list has items; beneath another null list the child takes none.
    ///
    /// `OutOfMemory` leaves slots and content bytes of a flat kind as they are, and where only
    /// slots lack capacity, it changes nothing. A nested kind takes only `node_lengths`, `clear`
    /// and drop after it.
    #[inline(always)]
    pub fn push_null(&mut self) -> Result<()>
        ensures shape { shape self.new ≡ shape self.old }
        ensures kind { builder_kind self.new ≡ builder_kind self.old }
        ensures data_type { builder_type self.new ≡ builder_type self.old }
        ensures ok { OnOk result
            (builder_slots self.new ≡ builder_slots self.old ++ NullSlot ∷ []) }
        ensures below { OnOk result
            (AllGetNulls (nulls_at 1 self.old) (slots_at self.old) (slots_at self.new)) }
        ensures bytes { OnOk result
            (AllGetBytes (nulls_at 1 self.old) (nodes self.old) (nodes self.new)) }
        ensures tight { OnOk result (IsTight self.old → IsTight self.new) }
        ensures refused { OnErr result
            (IsFlat self.old → builder_slots self.new ≡ builder_slots self.old) }
        ensures refused_capacity { OnErr result
            (IsFlat self.old → AllZip NoLessSpare (nodes self.old) (nodes self.new)) }

        // Where only slots lack capacity, not even the capacity changes.
        ensures err { OnErr result (IsFlat self.old
            → AllZip BytesFitIn (nulls_at 1 self.old) (nodes self.old)
            → self.new ≡ self.old) }

        ensures memory { OnlyOutOfMemory result }
        ensures takes { AllTake (nulls_at 1 self.old) (nodes self.old) (nodes self.new) }
        ensures has_capacity { AllZip FitsIn (nulls_at 1 self.old) (nodes self.old) → IsOk result }
    {
        self.append_any_null()
    }

    /// Appends a null, with the nulls beneath. Kinds that are null often take no call.
    #[inline(always)]
    fn append_any_null(&mut self) -> Result<()>
        ensures { PushesNull self.old self.new result }
    {
        match self {
            MutableArray::Boolean(builder) => builder.push_null(),
            MutableArray::Int32(builder) => builder.push_null(),
            MutableArray::Int64(builder) => builder.push_null(),
            MutableArray::Utf8(builder) => builder.push_null(),
            _ => self.append_null(),
        }
    }

    /// Makes spare capacity at every node for so many more slots and so many more content bytes.
    ///
    /// The slots at every node stay as they are, after `OutOfMemory` too.
    pub fn reserve_for(&mut self, additional: usize) -> Result<()>
        ensures shape { shape self.new ≡ shape self.old }
        ensures kind { builder_kind self.new ≡ builder_kind self.old }
        ensures data_type { builder_type self.new ≡ builder_type self.old }
        ensures slots { builder_slots self.new ≡ builder_slots self.old }
        ensures slots_at { slots_at self.new ≡ slots_at self.old }
        ensures tight { IsTight self.old → IsTight self.new }
        ensures capacity { AllZip NoLessSpare (nodes self.old) (nodes self.new) }
        ensures ok { OnOk result (All (HasSpare additional) (nodes self.new)) }
        ensures memory { OnlyOutOfMemory result }
    {
        self.reserve_nodes(additional)
    }

    /// Drops every slot and keeps the capacity. It takes no memory.
    pub fn clear(&mut self)
        ensures shape { shape self.new ≡ shape self.old }
        ensures kind { builder_kind self.new ≡ builder_kind self.old }
        ensures data_type { builder_type self.new ≡ builder_type self.old }
        ensures slots { builder_slots self.new ≡ [] }
        ensures tight { IsTight self.new }
        ensures capacity { AllZip Emptied (nodes self.old) (nodes self.new) }
    {
        self.clear_nodes();
    }

    /// The array of the slots, over the builder's buffers. The builder is then empty.
    ///
    /// Each dictionary has the values that its builder was made with. Where each child has exactly
    /// the slots that its lists reach, the array's offsets begin at 0, and nothing lies past the
    /// last.
    ///
    /// `InvalidArgumentError(ArrayParts)` where its children, which it lent out, no longer fit its
    /// type or its length. `OutOfMemory`. After either the builder may have lost its slots: it
    /// takes only `node_lengths`, `clear` and drop.
    pub fn as_box(&mut self) -> Result<Array>
        ensures shape { shape self.new ≡ shape self.old }
        ensures kind { builder_kind self.new ≡ builder_kind self.old }
        ensures data_type { builder_type self.new ≡ builder_type self.old }
        ensures array_type { IfOk result (λ a. array_type a ≡ builder_type self.old) }
        ensures array_slots { IfOk result (λ a. array_slots a ≡ builder_slots self.old) }
        ensures dictionaries { IfOk result
            (λ a. dictionaries_of a ≡ builder_dictionaries self.old) }
        ensures normalized { IsTight self.old → IfOk result IsNormalized }
        ensures slots { OnOk result (builder_slots self.new ≡ []) }
        ensures tight { OnOk result (IsTight self.new) }
        ensures emptied { OnOk result (All IsEmpty (nodes self.new)) }
        ensures fits { OnOk result (ChildrenFit self.old) }
        ensures err { IfErr result (IsRefusalOf (ChildrenFit self.old)) }
        ensures memory { TypesFit (shape self.old)
            → IsTight self.old
            → OnlyOutOfMemory result }
    {
        self.box_nodes()
    }
}
