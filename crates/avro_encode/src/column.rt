//! Columns by their kind, which is looked at once for a slot, or for a run of slots.
ghost use Rattle.std.specs.Prelude.{◌≡◌, ℕ, ◌<◌, ◌++◌, length, drop, flat_map, IsTrue, OnOk};
ghost use Rattle.arrow_array.specs.Arrays.{array_slots, array_type};
ghost use Rattle.arrow_array.specs.Kinds.{array_kind};
ghost use Rattle.arrow_array.specs.Slots.{is_held, slot_at};
ghost use Rattle.avro_encode.specs.Columns.{FitColumn, FitsColumn, column_encoding, column_slots, flat_kind};
ghost use Rattle.avro_encode.specs.Flat.{IsFlatKind};
ghost use Rattle.avro_encode.specs.Nullable.{FitsNulls, nullable_encoding};
ghost use Rattle.avro_encode.specs.Pairs.{Pairs};
ghost use Rattle.avro_encode.specs.PairTypes.{PairsType};
ghost use Rattle.avro_encode.specs.Plain.{plain};
ghost use Rattle.avro_encode.specs.declared.nulls.Nulls.TheVariants as nulls;

use crate::append::append_slot;
use crate::flat::FlatArray;
use crate::nulls::{Nulls, index_byte};
use arrow_array::{
    Array, BinaryArray, BooleanArray, FixedSizeBinaryArray, PrimitiveArray, Utf8Array,
};
use arrow_core::MonthsDaysNs;
use avro_schema::AvroSchema;
use std::alloc::AllocError;

/// A column by how its slots lie in memory: those with nothing beneath them as the array of their
/// kind, and others as any array beside the schema of its slots.
#[derive(Drop)]
pub(crate) enum ColumnKind<'a> {
    Boolean(&'a BooleanArray),
    Int32(&'a PrimitiveArray<i32>),
    Int64(&'a PrimitiveArray<i64>),
    Int128(&'a PrimitiveArray<i128>),
    MonthDayNano(&'a PrimitiveArray<MonthsDaysNs>),
    Utf8(&'a Utf8Array<i32>),
    LargeUtf8(&'a Utf8Array<i64>),
    Binary(&'a BinaryArray<i32>),
    LargeBinary(&'a BinaryArray<i64>),
    FixedSizeBinary(&'a FixedSizeBinaryArray),
    Nested(&'a Array, AvroSchema),
}

/// The kind of an array of slots with nothing beneath them.
pub(crate) fn flat_kind(array: &Array) -> ColumnKind<'_>
    requires kind { IsFlatKind (array_kind array.now) }
    ensures slots { column_slots result ≡ array_slots array.now }
    ensures kind { flat_kind result ≡ array_kind array.now }
{
    match array {
        Array::Boolean(array) => ColumnKind::Boolean(array),
        Array::Int32(array) => ColumnKind::Int32(array),
        Array::Int64(array) => ColumnKind::Int64(array),
        Array::Int128(array) => ColumnKind::Int128(array),
        Array::MonthDayNano(array) => ColumnKind::MonthDayNano(array),
        Array::Utf8(array) => ColumnKind::Utf8(array),
        Array::LargeUtf8(array) => ColumnKind::LargeUtf8(array),
        Array::Binary(array) => ColumnKind::Binary(array),
        Array::LargeBinary(array) => ColumnKind::LargeBinary(array),
        Array::FixedSizeBinary(array) => ColumnKind::FixedSizeBinary(array),
        _ => unreachable!(),
    }
}

/// Appends slot `i` under a union of null and another member: the index, and then the value, if
/// there is one. `AllocError` alone.
#[inline(always)]
fn append_optional<A: FlatArray>(
    array: &A,
    null_first: bool,
    i: usize,
    out: &mut Vec<u8>,
) -> Result<(), AllocError>
    requires within { i < length (A.slots array.now) }
    requires fits { IsTrue (is_held (slot_at (A.slots array.now) i))
        → A.has_encoding (slot_at (A.slots array.now) i) }
    ensures ok { OnOk result (out.new.items ≡ out.old.items
        ++ nullable_encoding (nulls.Optional null_first) A.encoding
        (slot_at (A.slots array.now) i)) }
{
    let held = array.has_value(i);
    let index = index_byte(null_first, held);
    if !held {
        out.push(index)?;
        return Ok(());
    }
    array.append_value_after(index, i, out)
}

/// Appends slot `i`. `AllocError` alone.
#[inline(always)]
fn append_nullable<A: FlatArray>(
    array: &A,
    nulls: Nulls,
    i: usize,
    out: &mut Vec<u8>,
) -> Result<(), AllocError>
    requires within { i < length (A.slots array.now) }
    requires fits { FitsNulls nulls A.has_encoding (slot_at (A.slots array.now) i) }
    ensures ok { OnOk result (out.new.items
        ≡ out.old.items ++ nullable_encoding nulls A.encoding (slot_at (A.slots array.now) i)) }
{
    match nulls {
        Nulls::Required => array.append_value(i, out),
        Nulls::Optional(null_first) => append_optional(array, null_first, i, out),
    }
}

/// Appends the slots from `start` to the end of the array. `AllocError` alone.
fn append_run<A: FlatArray>(
    array: &A,
    nulls: Nulls,
    start: usize,
    end: usize,
    out: &mut Vec<u8>,
) -> Result<(), AllocError>
    requires end { end ≡ length (A.slots array.now) }
    requires fit { (i : ℕ) → i < length (A.slots array.now)
        → FitsNulls nulls A.has_encoding (slot_at (A.slots array.now) i) }
    ensures ok { OnOk result (out.new.items ≡ out.old.items
        ++ flat_map (nullable_encoding nulls A.encoding) (drop start (A.slots array.now))) }
{
    for i in start..end {
        append_nullable(array, nulls, i, out)?;
    }
    Ok(())
}

/// The same of slots of any array, item by item.
fn append_items_from(
    array: &Array,
    schema: &AvroSchema,
    start: usize,
    end: usize,
    out: &mut Vec<u8>,
) -> Result<(), AllocError>
    requires end { end ≡ length (array_slots array.now) }
    requires fit { (i : ℕ) → i < length (array_slots array.now)
        → PairsType schema.now (array_type array.now)
        × Pairs schema.now (slot_at (array_slots array.now) i) }
    ensures ok { OnOk result (out.new.items
        ≡ out.old.items ++ flat_map (plain schema.now) (drop start (array_slots array.now))) }
{
    for i in start..end {
        append_slot(array, i, schema, out)?;
    }
    Ok(())
}

impl<'a> ColumnKind<'a> {
    /// Appends slot `i`. `AllocError` alone.
    #[inline(always)]
    pub(crate) fn append(&self, nulls: Nulls, i: usize, out: &mut Vec<u8>) -> Result<(), AllocError>
        requires within { i < length (column_slots self.now) }
        requires fits { FitsColumn nulls self.now (slot_at (column_slots self.now) i) }
        ensures ok { OnOk result (out.new.items
            ≡ out.old.items ++ column_encoding nulls self.now (slot_at (column_slots self.now) i)) }
    {
        match self {
            ColumnKind::Boolean(array) => append_nullable(*array, nulls, i, out),
            ColumnKind::Int32(array) => append_nullable(*array, nulls, i, out),
            ColumnKind::Int64(array) => append_nullable(*array, nulls, i, out),
            ColumnKind::Int128(array) => append_nullable(*array, nulls, i, out),
            ColumnKind::MonthDayNano(array) => append_nullable(*array, nulls, i, out),
            ColumnKind::Utf8(array) => append_nullable(*array, nulls, i, out),
            ColumnKind::LargeUtf8(array) => append_nullable(*array, nulls, i, out),
            ColumnKind::Binary(array) => append_nullable(*array, nulls, i, out),
            ColumnKind::LargeBinary(array) => append_nullable(*array, nulls, i, out),
            ColumnKind::FixedSizeBinary(array) => append_nullable(*array, nulls, i, out),
            ColumnKind::Nested(array, schema) => append_slot(array, i, schema, out),
        }
    }

    /// Appends the slots from `start` to the end of the column. `AllocError` alone.
    pub(crate) fn append_from(
        &self,
        nulls: Nulls,
        start: usize,
        end: usize,
        out: &mut Vec<u8>,
    ) -> Result<(), AllocError>
        requires end { end ≡ length (column_slots self.now) }
        requires fit { FitColumn nulls self.now }
        ensures ok { OnOk result (out.new.items ≡ out.old.items
            ++ flat_map (column_encoding nulls self.now) (drop start (column_slots self.now))) }
    {
        match self {
            ColumnKind::Boolean(array) => append_run(*array, nulls, start, end, out),
            ColumnKind::Int32(array) => append_run(*array, nulls, start, end, out),
            ColumnKind::Int64(array) => append_run(*array, nulls, start, end, out),
            ColumnKind::Int128(array) => append_run(*array, nulls, start, end, out),
            ColumnKind::MonthDayNano(array) => append_run(*array, nulls, start, end, out),
            ColumnKind::Utf8(array) => append_run(*array, nulls, start, end, out),
            ColumnKind::LargeUtf8(array) => append_run(*array, nulls, start, end, out),
            ColumnKind::Binary(array) => append_run(*array, nulls, start, end, out),
            ColumnKind::LargeBinary(array) => append_run(*array, nulls, start, end, out),
            ColumnKind::FixedSizeBinary(array) => append_run(*array, nulls, start, end, out),
            ColumnKind::Nested(array, schema) => {
                append_items_from(array, schema, start, end, out)
            }
        }
    }
}
