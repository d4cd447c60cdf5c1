//! Slots with nothing beneath them.
ghost use Rattle.std.specs.Prelude.{◌≡◌, ℕ, ◌<◌, List, ◌++◌, ◌∷◌, [], cond, length, IsTrue, OnOk};
ghost use Rattle.arrow_core.specs.declared.physical.PhysicalType.TheVariants as physical;
ghost use Rattle.arrow_core.specs.declared.physical.PrimitiveType.TheVariants as primitive;
ghost use Rattle.arrow_core.specs.declared.slot.Slot.{Slot};
ghost use Rattle.arrow_array.specs.Arrays.{array_slots};
ghost use Rattle.arrow_array.specs.Kinds.{array_kind};
ghost use Rattle.arrow_array.specs.Slots.{is_held, slot_at};
ghost use Rattle.avro_encode.specs.Flat.{FitsFlat, IsFlatKind, flat_plain};
ghost use Rattle.avro_encode.specs.Pairs.{PairsDuration};
ghost use Rattle.avro_encode.specs.Plain.{parts_of, plain_duration};

use crate::decimal::append_decimal;
use crate::duration::append_duration;
use crate::numbers::{append_bytes, append_counted, append_counted_after, append_number};
use arrow_array::{
    Array, BinaryArray, BooleanArray, FixedSizeBinaryArray, PrimitiveArray, Utf8Array,
};
use arrow_core::{MonthsDaysNs, Offset};
use std::alloc::AllocError;

/// Appends an interval, which isn't null. `AllocError` alone.
fn append_interval(
    array: &PrimitiveArray<MonthsDaysNs>,
    i: usize,
    out: &mut Vec<u8>,
) -> Result<(), AllocError>
    requires within { i < length array.now.slots }
    requires fits { PairsDuration (slot_at array.now.slots i) }
    ensures ok { OnOk result (out.new.items
        ≡ out.old.items ++ plain_duration (parts_of (slot_at array.now.slots i))) }
{
    let interval = array.value(i);
    append_duration(interval.months, interval.days, interval.ns, out)
}

/// Appends the byte of a boolean. `AllocError` alone.
#[inline(always)]
fn append_boolean(value: bool, out: &mut Vec<u8>) -> Result<(), AllocError>
    ensures ok { OnOk result (out.new.items ≡ out.old.items ++ cond value 1 0 ∷ []) }
{
    out.push(u8::from(value))?;
    Ok(())
}

/// Arrays of slots with nothing beneath them.
pub(crate) trait FlatArray {
    // the slots
    ghost slots: { Self → List Slot };

    // the canonical encoding of a slot that isn't null
    ghost encoding: { Slot → List ℕ };

    // which slots that aren't null have one
    ghost has_encoding: { Slot → Type 0 };

    /// Whether slot `i` isn't null.
    fn has_value(&self, i: usize) -> bool
        requires { i < length (slots self.now) }
        ensures { result ≡ is_held (slot_at (slots self.now) i) };

    /// Appends slot `i`, which isn't null. `AllocError` alone.
    fn append_value(&self, i: usize, out: &mut Vec<u8>) -> Result<(), AllocError>
        requires within { i < length (slots self.now) }
        requires held { IsTrue (is_held (slot_at (slots self.now) i)) }
        requires fits { has_encoding (slot_at (slots self.now) i) }
        ensures ok { OnOk result (out.new.items
            ≡ out.old.items ++ encoding (slot_at (slots self.now) i)) };

    /// Appends a byte, and then slot `i`, which isn't null. `AllocError` alone.
    #[inline(always)]
    fn append_value_after(&self, byte: u8, i: usize, out: &mut Vec<u8>) -> Result<(), AllocError>
        requires within { i < length (slots self.now) }
        requires held { IsTrue (is_held (slot_at (slots self.now) i)) }
        requires fits { has_encoding (slot_at (slots self.now) i) }
        ensures ok { OnOk result (out.new.items
            ≡ out.old.items ++ byte ∷ encoding (slot_at (slots self.now) i)) }
    {
        out.push(byte)?;
        self.append_value(i, out)
    }
}

impl FlatArray for BooleanArray {
    ghost slots = { λ a. a.slots };

    ghost encoding = { flat_plain physical.Boolean };

    ghost has_encoding = { FitsFlat physical.Boolean };

    #[inline(always)]
    fn has_value(&self, i: usize) -> bool {
        self.is_valid(i)
    }

    #[inline(always)]
    fn append_value(&self, i: usize, out: &mut Vec<u8>) -> Result<(), AllocError> {
        append_boolean(self.value(i), out)
    }
}

impl FlatArray for PrimitiveArray<i32> {
    ghost slots = { λ a. a.slots };

    ghost encoding = { flat_plain (physical.Primitive primitive.Int32) };

    ghost has_encoding = { FitsFlat (physical.Primitive primitive.Int32) };

    #[inline(always)]
    fn has_value(&self, i: usize) -> bool {
        self.is_valid(i)
    }

    #[inline(always)]
    fn append_value(&self, i: usize, out: &mut Vec<u8>) -> Result<(), AllocError> {
        append_number(self.value(i) as i64, out)
    }
}

impl FlatArray for PrimitiveArray<i64> {
    ghost slots = { λ a. a.slots };

    ghost encoding = { flat_plain (physical.Primitive primitive.Int64) };

    ghost has_encoding = { FitsFlat (physical.Primitive primitive.Int64) };

    #[inline(always)]
    fn has_value(&self, i: usize) -> bool {
        self.is_valid(i)
    }

    #[inline(always)]
    fn append_value(&self, i: usize, out: &mut Vec<u8>) -> Result<(), AllocError> {
        append_number(self.value(i), out)
    }
}

impl FlatArray for PrimitiveArray<i128> {
    ghost slots = { λ a. a.slots };

    ghost encoding = { flat_plain (physical.Primitive primitive.Int128) };

    ghost has_encoding = { FitsFlat (physical.Primitive primitive.Int128) };

    #[inline(always)]
    fn has_value(&self, i: usize) -> bool {
        self.is_valid(i)
    }

    #[inline(always)]
    fn append_value(&self, i: usize, out: &mut Vec<u8>) -> Result<(), AllocError> {
        append_decimal(self.value(i), out)
    }
}

impl FlatArray for PrimitiveArray<MonthsDaysNs> {
    ghost slots = { λ a. a.slots };

    ghost encoding = { flat_plain (physical.Primitive primitive.MonthDayNano) };

    ghost has_encoding = { FitsFlat (physical.Primitive primitive.MonthDayNano) };

    #[inline(always)]
    fn has_value(&self, i: usize) -> bool {
        self.is_valid(i)
    }

    #[inline(always)]
    fn append_value(&self, i: usize, out: &mut Vec<u8>) -> Result<(), AllocError> {
        append_interval(self, i, out)
    }
}

impl<O: Offset> FlatArray for Utf8Array<O> {
    ghost slots = { λ a. a.slots };

    ghost encoding = { flat_plain physical.Utf8 };

    ghost has_encoding = { FitsFlat physical.Utf8 };

    #[inline(always)]
    fn has_value(&self, i: usize) -> bool {
        self.is_valid(i)
    }

    #[inline(always)]
    fn append_value(&self, i: usize, out: &mut Vec<u8>) -> Result<(), AllocError> {
        append_counted(self.value(i).as_bytes(), out)
    }

    #[inline(always)]
    fn append_value_after(&self, byte: u8, i: usize, out: &mut Vec<u8>) -> Result<(), AllocError> {
        append_counted_after(byte, self.value(i).as_bytes(), out)
    }
}

impl<O: Offset> FlatArray for BinaryArray<O> {
    ghost slots = { λ a. a.slots };

    ghost encoding = { flat_plain physical.Binary };

    ghost has_encoding = { FitsFlat physical.Binary };

    #[inline(always)]
    fn has_value(&self, i: usize) -> bool {
        self.is_valid(i)
    }

    #[inline(always)]
    fn append_value(&self, i: usize, out: &mut Vec<u8>) -> Result<(), AllocError> {
        append_counted(self.value(i), out)
    }

    #[inline(always)]
    fn append_value_after(&self, byte: u8, i: usize, out: &mut Vec<u8>) -> Result<(), AllocError> {
        append_counted_after(byte, self.value(i), out)
    }
}

impl FlatArray for FixedSizeBinaryArray {
    ghost slots = { λ a. a.slots };

    ghost encoding = { flat_plain physical.FixedSizeBinary };

    ghost has_encoding = { FitsFlat physical.FixedSizeBinary };

    #[inline(always)]
    fn has_value(&self, i: usize) -> bool {
        self.is_valid(i)
    }

    #[inline(always)]
    fn append_value(&self, i: usize, out: &mut Vec<u8>) -> Result<(), AllocError> {
        append_bytes(self.value(i), out)
    }
}

/// Appends slot `i` of the array, which isn't null, by the array's kind alone. `AllocError` alone.
#[inline(always)]
pub(crate) fn append_flat(array: &Array, i: usize, out: &mut Vec<u8>) -> Result<(), AllocError>
    requires within { i < length (array_slots array.now) }
    requires held { IsTrue (is_held (slot_at (array_slots array.now) i)) }
    requires kind { IsFlatKind (array_kind array.now) }
    requires fits { FitsFlat (array_kind array.now) (slot_at (array_slots array.now) i) }
    ensures ok { OnOk result (out.new.items
        ≡ out.old.items ++ flat_plain (array_kind array.now) (slot_at (array_slots array.now) i)) }
{
    match array {
        Array::Boolean(array) => array.append_value(i, out),
        Array::Int32(array) => array.append_value(i, out),
        Array::Int64(array) => array.append_value(i, out),
        Array::Int128(array) => array.append_value(i, out),
        Array::MonthDayNano(array) => array.append_value(i, out),
        Array::Utf8(array) => array.append_value(i, out),
        Array::LargeUtf8(array) => array.append_value(i, out),
        Array::Binary(array) => array.append_value(i, out),
        Array::LargeBinary(array) => array.append_value(i, out),
        Array::FixedSizeBinary(array) => array.append_value(i, out),
        _ => unreachable!(),
    }
}

/// Appends a byte, and then slot `i` of the array, which isn't null, by the array's kind alone.
/// `AllocError` alone.
#[inline(always)]
pub(crate) fn append_flat_after(
    byte: u8,
    array: &Array,
    i: usize,
    out: &mut Vec<u8>,
) -> Result<(), AllocError>
    requires within { i < length (array_slots array.now) }
    requires held { IsTrue (is_held (slot_at (array_slots array.now) i)) }
    requires kind { IsFlatKind (array_kind array.now) }
    requires fits { FitsFlat (array_kind array.now) (slot_at (array_slots array.now) i) }
    ensures ok { OnOk result (out.new.items
        ≡ out.old.items ++ byte ∷ flat_plain (array_kind array.now)
        (slot_at (array_slots array.now) i)) }
{
    match array {
        Array::Utf8(array) => array.append_value_after(byte, i, out),
        Array::LargeUtf8(array) => array.append_value_after(byte, i, out),
        Array::Binary(array) => array.append_value_after(byte, i, out),
        Array::LargeBinary(array) => array.append_value_after(byte, i, out),
        _ => {
            out.push(byte)?;
            append_flat(array, i, out)
        }
    }
}
