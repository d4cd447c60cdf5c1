//! An array of any kind.
ghost use Rattle.std.specs.Prelude.{◌≡◌, ◌+◌, ◌<◌, ◌≤◌, false, IfOk, [], length, take, drop, All};
ghost use Rattle.std.specs.Option.{option_copied};
ghost use Rattle.arrow_core.specs.Errors.{OnlyOutOfMemory};
ghost use Rattle.arrow_core.specs.declared.error.Error.TheVariants.{OutOfMemory};
ghost use Rattle.arrow_array.specs.Arrays.{TellsValidity, array_type, array_slots, dictionaries_of};
ghost use Rattle.arrow_array.specs.HoldsDictionary.{holds_dictionary};
ghost use Rattle.arrow_array.specs.Kinds.{array_kind};
ghost use Rattle.arrow_array.specs.Parts.{IsOfKind};
ghost use Rattle.arrow_array.specs.SlotTypes.{SlotOf};
ghost use Rattle.arrow_array.specs.Slots.{is_held, slot_at};

use crate::Bitmap;
use crate::binary::BinaryArray;
use crate::boolean::BooleanArray;
use crate::dictionary::DictionaryArray;
use crate::fixed_size_binary::FixedSizeBinaryArray;
use crate::fixed_size_list::FixedSizeListArray;
use crate::list::{LargeListArray, ListArray};
use crate::null::NullArray;
use crate::primitive::PrimitiveArray;
use crate::structs::StructArray;
use crate::utf8::Utf8Array;
use arrow_core::{DataType, MonthsDaysNs, Result};
use std::alloc::Global;

/// An array of any kind, over shared buffers. The kind is how slots lie in memory, and not their
/// type: `Int32` has dates too.
#[cycle(arrays)]
#[derive(Drop)]
pub enum Array {
    /// Nulls.
    Null(NullArray),
    /// Booleans.
    Boolean(BooleanArray),
    /// Integers of 8 bits, of any type that lies in memory so.
    Int8(PrimitiveArray<i8>),
    /// Integers of 16 bits, of any type that lies in memory so.
    Int16(PrimitiveArray<i16>),
    /// Integers of 32 bits, of any type that lies in memory so.
    Int32(PrimitiveArray<i32>),
    /// Integers of 64 bits, of any type that lies in memory so.
    Int64(PrimitiveArray<i64>),
    /// Unsigned integers of 8 bits.
    UInt8(PrimitiveArray<u8>),
    /// Unsigned integers of 16 bits.
    UInt16(PrimitiveArray<u16>),
    /// Unsigned integers of 32 bits.
    UInt32(PrimitiveArray<u32>),
    /// Unsigned integers of 64 bits.
    UInt64(PrimitiveArray<u64>),
    /// Integers of 128 bits, of any type that lies in memory so.
    Int128(PrimitiveArray<i128>),
    /// Intervals.
    MonthDayNano(PrimitiveArray<MonthsDaysNs>),
    /// Strings with offsets of 32 bits.
    Utf8(Utf8Array<i32>),
    /// Strings with offsets of 64 bits.
    LargeUtf8(Utf8Array<i64>),
    /// Binary values with offsets of 32 bits.
    Binary(BinaryArray<i32>),
    /// Binary values with offsets of 64 bits.
    LargeBinary(BinaryArray<i64>),
    /// Fixed-size binary values.
    FixedSizeBinary(FixedSizeBinaryArray),
    /// Lists with offsets of 32 bits.
    List(ListArray),
    /// Lists with offsets of 64 bits.
    LargeList(LargeListArray),
    /// Fixed-size lists.
    FixedSizeList(FixedSizeListArray),
    /// Structs.
    Struct(StructArray),
    /// Values by their indices in an array of values.
    Dictionary(DictionaryArray),
}

impl Array {
    /// How many slots there are, nulls among them.
    pub fn len(&self) -> usize
        ensures { result ≡ length (array_slots self.now) }
    {
        match self {
            Array::Null(array) => array.len(),
            Array::Boolean(array) => array.len(),
            Array::Int8(array) => array.len(),
            Array::Int16(array) => array.len(),
            Array::Int32(array) => array.len(),
            Array::Int64(array) => array.len(),
            Array::UInt8(array) => array.len(),
            Array::UInt16(array) => array.len(),
            Array::UInt32(array) => array.len(),
            Array::UInt64(array) => array.len(),
            Array::Int128(array) => array.len(),
            Array::MonthDayNano(array) => array.len(),
            Array::Utf8(array) => array.len(),
            Array::LargeUtf8(array) => array.len(),
            Array::Binary(array) => array.len(),
            Array::LargeBinary(array) => array.len(),
            Array::FixedSizeBinary(array) => array.len(),
            Array::List(array) => array.len(),
            Array::LargeList(array) => array.len(),
            Array::FixedSizeList(array) => array.len(),
            Array::Struct(array) => array.len(),
            Array::Dictionary(array) => array.len(),
        }
    }

    /// The data type, whose slots lie in memory as the array's kind says, and which is no
    /// extension.
    pub fn data_type(&self) -> &DataType
        ensures data_type { result.now ≡ array_type self.now }
        ensures kind { IsOfKind (array_kind self.now) (array_type self.now) }
    {
        match self {
            Array::Null(array) => array.data_type(),
            Array::Boolean(array) => array.data_type(),
            Array::Int8(array) => array.data_type(),
            Array::Int16(array) => array.data_type(),
            Array::Int32(array) => array.data_type(),
            Array::Int64(array) => array.data_type(),
            Array::UInt8(array) => array.data_type(),
            Array::UInt16(array) => array.data_type(),
            Array::UInt32(array) => array.data_type(),
            Array::UInt64(array) => array.data_type(),
            Array::Int128(array) => array.data_type(),
            Array::MonthDayNano(array) => array.data_type(),
            Array::Utf8(array) => array.data_type(),
            Array::LargeUtf8(array) => array.data_type(),
            Array::Binary(array) => array.data_type(),
            Array::LargeBinary(array) => array.data_type(),
            Array::FixedSizeBinary(array) => array.data_type(),
            Array::List(array) => array.data_type(),
            Array::LargeList(array) => array.data_type(),
            Array::FixedSizeList(array) => array.data_type(),
            Array::Struct(array) => array.data_type(),
            Array::Dictionary(array) => array.data_type(),
        }
    }

    /// Which slots aren't null, and of a dictionary which keys. It is `None` of a `Null` array, and
    /// of any other only where no slot, or no key, is null.
    pub fn validity(&self) -> Option<&Bitmap>
        ensures { TellsValidity self.now (option_copied result) }
    {
        match self {
            Array::Null(array) => array.validity(),
            Array::Boolean(array) => array.validity(),
            Array::Int8(array) => array.validity(),
            Array::Int16(array) => array.validity(),
            Array::Int32(array) => array.validity(),
            Array::Int64(array) => array.validity(),
            Array::UInt8(array) => array.validity(),
            Array::UInt16(array) => array.validity(),
            Array::UInt32(array) => array.validity(),
            Array::UInt64(array) => array.validity(),
            Array::Int128(array) => array.validity(),
            Array::MonthDayNano(array) => array.validity(),
            Array::Utf8(array) => array.validity(),
            Array::LargeUtf8(array) => array.validity(),
            Array::Binary(array) => array.validity(),
            Array::LargeBinary(array) => array.validity(),
            Array::FixedSizeBinary(array) => array.validity(),
            Array::List(array) => array.validity(),
            Array::LargeList(array) => array.validity(),
            Array::FixedSizeList(array) => array.validity(),
            Array::Struct(array) => array.validity(),
            Array::Dictionary(array) => array.validity(),
        }
    }

    /// Whether slot `i` isn't null.
    #[cycle(valid)]
    pub fn is_valid(&self, i: usize) -> bool
        requires { i < length (array_slots self.now) }
        ensures { result ≡ is_held (slot_at (array_slots self.now) i) }
    {
        match self {
            Array::Null(array) => array.is_valid(i),
            Array::Boolean(array) => array.is_valid(i),
            Array::Int8(array) => array.is_valid(i),
            Array::Int16(array) => array.is_valid(i),
            Array::Int32(array) => array.is_valid(i),
            Array::Int64(array) => array.is_valid(i),
            Array::UInt8(array) => array.is_valid(i),
            Array::UInt16(array) => array.is_valid(i),
            Array::UInt32(array) => array.is_valid(i),
            Array::UInt64(array) => array.is_valid(i),
            Array::Int128(array) => array.is_valid(i),
            Array::MonthDayNano(array) => array.is_valid(i),
            Array::Utf8(array) => array.is_valid(i),
            Array::LargeUtf8(array) => array.is_valid(i),
            Array::Binary(array) => array.is_valid(i),
            Array::LargeBinary(array) => array.is_valid(i),
            Array::FixedSizeBinary(array) => array.is_valid(i),
            Array::List(array) => array.is_valid(i),
            Array::LargeList(array) => array.is_valid(i),
            Array::FixedSizeList(array) => array.is_valid(i),
            Array::Struct(array) => array.is_valid(i),
            Array::Dictionary(array) => array.is_valid(i),
        }
    }

    /// Tells that each slot is one of the data type: of its kind, in its range, as long as it says,
    /// and its items and fields of their types. It looks at each child once, and changes nothing.
    #[cycle(typed)]
    pub fn slots_are_typed(&self)
        ensures { All (SlotOf (array_type self.now)) (array_slots self.now) }
    {
        match self {
            Array::Null(array) => array.slots_are_typed(),
            Array::Boolean(array) => array.slots_are_typed(),
            Array::Int8(array) => array.slots_are_typed(),
            Array::Int16(array) => array.slots_are_typed(),
            Array::Int32(array) => array.slots_are_typed(),
            Array::Int64(array) => array.slots_are_typed(),
            Array::UInt8(array) => array.slots_are_typed(),
            Array::UInt16(array) => array.slots_are_typed(),
            Array::UInt32(array) => array.slots_are_typed(),
            Array::UInt64(array) => array.slots_are_typed(),
            Array::Int128(array) => array.slots_are_typed(),
            Array::MonthDayNano(array) => array.slots_are_typed(),
            Array::Utf8(array) => array.slots_are_typed(),
            Array::LargeUtf8(array) => array.slots_are_typed(),
            Array::Binary(array) => array.slots_are_typed(),
            Array::LargeBinary(array) => array.slots_are_typed(),
            Array::FixedSizeBinary(array) => array.slots_are_typed(),
            Array::List(array) => array.slots_are_typed(),
            Array::LargeList(array) => array.slots_are_typed(),
            Array::FixedSizeList(array) => array.slots_are_typed(),
            Array::Struct(array) => array.slots_are_typed(),
            Array::Dictionary(array) => array.slots_are_typed(),
        }
    }

    /// Law: an array whose type holds no dictionary holds none. It looks at each child once, and
    /// changes nothing.
    #[cycle(plain)]
    pub fn holds_no_dictionary(&self)
        ensures { holds_dictionary (array_type self.now) ≡ false → dictionaries_of self.now ≡ [] }
    {
        match self {
            Array::List(array) => array.holds_no_dictionary(),
            Array::LargeList(array) => array.holds_no_dictionary(),
            Array::FixedSizeList(array) => array.holds_no_dictionary(),
            Array::Struct(array) => array.holds_no_dictionary(),
            Array::Dictionary(array) => array.type_holds_dictionary(),
            _ => {}
        }
    }

    /// The `count` slots from index `offset` on. It shares the buffers.
    ///
    /// `OutOfMemory` alone.
    #[cycle(slices)]
    pub fn slice(&self, alloc: Global, offset: usize, count: usize) -> Result<Array>
        requires { offset + count ≤ length (array_slots self.now) }
        ensures data_type { IfOk result (λ a. array_type a ≡ array_type self.now) }
        ensures slots { IfOk result
            (λ a. array_slots a ≡ take count (drop offset (array_slots self.now))) }
        ensures memory { OnlyOutOfMemory result }
    {
        Ok(match self {
            Array::Null(array) => Array::Null(array.slice(alloc, offset, count)?),
            Array::Boolean(array) => Array::Boolean(array.slice(alloc, offset, count)?),
            Array::Int8(array) => Array::Int8(array.slice(alloc, offset, count)?),
            Array::Int16(array) => Array::Int16(array.slice(alloc, offset, count)?),
            Array::Int32(array) => Array::Int32(array.slice(alloc, offset, count)?),
            Array::Int64(array) => Array::Int64(array.slice(alloc, offset, count)?),
            Array::UInt8(array) => Array::UInt8(array.slice(alloc, offset, count)?),
            Array::UInt16(array) => Array::UInt16(array.slice(alloc, offset, count)?),
            Array::UInt32(array) => Array::UInt32(array.slice(alloc, offset, count)?),
            Array::UInt64(array) => Array::UInt64(array.slice(alloc, offset, count)?),
            Array::Int128(array) => Array::Int128(array.slice(alloc, offset, count)?),
            Array::MonthDayNano(array) => Array::MonthDayNano(array.slice(alloc, offset, count)?),
            Array::Utf8(array) => Array::Utf8(array.slice(alloc, offset, count)?),
            Array::LargeUtf8(array) => Array::LargeUtf8(array.slice(alloc, offset, count)?),
            Array::Binary(array) => Array::Binary(array.slice(alloc, offset, count)?),
            Array::LargeBinary(array) => Array::LargeBinary(array.slice(alloc, offset, count)?),
            Array::FixedSizeBinary(array) => Array::FixedSizeBinary(array.slice(
                alloc, offset, count,
            )?),
            Array::List(array) => Array::List(array.slice(alloc, offset, count)?),
            Array::LargeList(array) => Array::LargeList(array.slice(alloc, offset, count)?),
            Array::FixedSizeList(array) => Array::FixedSizeList(array.slice(alloc, offset, count)?),
            Array::Struct(array) => Array::Struct(array.slice(alloc, offset, count)?),
            Array::Dictionary(array) => Array::Dictionary(array.slice(alloc, offset, count)?),
        })
    }
}
