//! Slots of any array.
ghost use Rattle.std.specs.Prelude.{◌≡◌, ◌+◌, ◌<◌, ◌++◌, ◌∷◌, length, map, OnOk};
ghost use Rattle.std.specs.List.{AllByRecursion};
ghost use Rattle.arrow_core.specs.declared.slot.Slot.TheVariants as slot;
ghost use Rattle.arrow_array.specs.Arrays.{array_slots, array_type};
ghost use Rattle.arrow_array.specs.Kinds.{array_kind};
ghost use Rattle.arrow_array.specs.Lent.{IsPart, part_slots};
ghost use Rattle.arrow_array.specs.Parts.{IsOfKind};
ghost use Rattle.arrow_array.specs.Slots.{slot_at};
ghost use Rattle.arrow_array.specs.Structs.{HaveSlots};
ghost use Rattle.avro_schema.specs.Carried.{IsNoUnion};
ghost use Rattle.avro_encode.specs.Flat.{HasNoParts, IsListKind, IsStructKind};
ghost use Rattle.avro_encode.specs.Listed.{PairsFieldsOf, PairsMemberTypeOf, PairsTypesOf, PairsUnionOf, plain_fields_of, plain_union_of, slots_across};
ghost use Rattle.avro_encode.specs.Pairs.{IsCounted, Pairs};
ghost use Rattle.avro_encode.specs.PairTypes.{PairsType};
ghost use Rattle.avro_encode.specs.Plain.{one_block, parts_of, plain};
ghost use Rattle.avro_encode.specs.Steps.{PairsList, PairsStruct};

use crate::flat::{append_flat, append_flat_after};
use crate::nulls::{beside_null, index_byte};
use crate::numbers::append_number;
use arrow_array::{Array, Part};
use avro_schema::{AvroField, AvroSchema};
use std::alloc::AllocError;

/// Appends the canonical encoding of slot `i` of an array whose type pairs with the schema, where
/// the slot does too. It takes no memory but the bytes'.
///
/// `AllocError` where there is no memory, and then the bytes are only to be dropped.
// It is inlined wherever a slot is appended, so that a flat one, beneath a union too, takes no call
// into the cycle: `append_list` and `append_struct`, which the others go through, are not.
#[cycle(append)]
#[inline(always)]
pub fn append_slot(
    array: &Array,
    i: usize,
    schema: &AvroSchema,
    out: &mut Vec<u8>,
) -> Result<(), AllocError>
    requires within { i < length (array_slots array.now) }
    requires types { PairsType schema.now (array_type array.now) }
    requires slots { Pairs schema.now (slot_at (array_slots array.now) i) }
    ensures ok { OnOk result (out.new.items
        ≡ out.old.items ++ plain schema.now (slot_at (array_slots array.now) i)) }
{
    match schema {
        AvroSchema::Union(members) => append_member(array, i, members.as_slice(), out),
        _ => append_value(array, i, schema, out),
    }
}

/// Appends the index of the member in a union, and its value.
#[cycle(append)]
#[inline(always)]
fn append_member(
    array: &Array,
    i: usize,
    members: &[AvroSchema],
    out: &mut Vec<u8>,
) -> Result<(), AllocError>
    requires within { i < length (array_slots array.now) }
    requires types { PairsMemberTypeOf members.now (array_type array.now) }
    requires slots { PairsUnionOf members.now (slot_at (array_slots array.now) i) }
    ensures ok { OnOk result (out.new.items
        ≡ out.old.items ++ plain_union_of members.now (slot_at (array_slots array.now) i)) }
{
    let (null_first, member) = beside_null(members);
    let held = array.is_valid(i);
    let index = index_byte(null_first, held);
    if !held {
        out.push(index)?;
        return Ok(());
    }
    append_value_after(index, array, i, member, out)
}

/// Appends a byte, and then a slot that isn't null, under a schema that is no union.
#[cycle(append)]
#[inline(always)]
fn append_value_after(
    byte: u8,
    array: &Array,
    i: usize,
    schema: &AvroSchema,
    out: &mut Vec<u8>,
) -> Result<(), AllocError>
    requires within { i < length (array_slots array.now) }
    requires no_union { IsNoUnion schema.now }
    requires types { PairsType schema.now (array_type array.now) }
    requires slots { Pairs schema.now (slot_at (array_slots array.now) i) }
    ensures ok { OnOk result (out.new.items
        ≡ out.old.items ++ byte ∷ plain schema.now (slot_at (array_slots array.now) i)) }
{
    // It tells how slots of the type lie in memory.
    let _ = array.data_type();
    match schema {
        AvroSchema::Array(_) | AvroSchema::Record(_) => {
            out.push(byte)?;
            append_value(array, i, schema, out)
        }
        _ => append_plain_after(byte, array, i, schema, out),
    }
}

/// Appends a slot that isn't null, under a schema that is no union.
#[cycle(append)]
#[inline(always)]
fn append_value(
    array: &Array,
    i: usize,
    schema: &AvroSchema,
    out: &mut Vec<u8>,
) -> Result<(), AllocError>
    requires within { i < length (array_slots array.now) }
    requires no_union { IsNoUnion schema.now }
    requires types { PairsType schema.now (array_type array.now) }
    requires slots { Pairs schema.now (slot_at (array_slots array.now) i) }
    ensures ok { OnOk result (out.new.items
        ≡ out.old.items ++ plain schema.now (slot_at (array_slots array.now) i)) }
{
    // It tells how slots of the type lie in memory.
    let _ = array.data_type();
    match schema {
        AvroSchema::Array(item) => append_list(array, i, item.get(), out),
        AvroSchema::Record(record) => append_struct(array, i, record.fields.as_slice(), out),
        _ => append_plain(array, i, schema, out),
    }
}

/// Appends a slot that isn't null, under a schema without others in it.
#[inline(always)]
fn append_plain(
    array: &Array,
    i: usize,
    schema: &AvroSchema,
    out: &mut Vec<u8>,
) -> Result<(), AllocError>
    requires within { i < length (array_slots array.now) }
    requires flat { HasNoParts schema.now }
    requires kind { IsOfKind (array_kind array.now) (array_type array.now) }
    requires types { PairsType schema.now (array_type array.now) }
    requires slots { Pairs schema.now (slot_at (array_slots array.now) i) }
    ensures ok { OnOk result (out.new.items
        ≡ out.old.items ++ plain schema.now (slot_at (array_slots array.now) i)) }
{
    append_flat(array, i, out)
}

/// Appends a byte, and then a slot that isn't null, under a schema without others in it.
#[inline(always)]
fn append_plain_after(
    byte: u8,
    array: &Array,
    i: usize,
    schema: &AvroSchema,
    out: &mut Vec<u8>,
) -> Result<(), AllocError>
    requires within { i < length (array_slots array.now) }
    requires flat { HasNoParts schema.now }
    requires kind { IsOfKind (array_kind array.now) (array_type array.now) }
    requires types { PairsType schema.now (array_type array.now) }
    requires slots { Pairs schema.now (slot_at (array_slots array.now) i) }
    ensures ok { OnOk result (out.new.items
        ≡ out.old.items ++ byte ∷ plain schema.now (slot_at (array_slots array.now) i)) }
{
    append_flat_after(byte, array, i, out)
}

/// Appends a list.
#[cycle(append)]
#[inline(never)]
fn append_list(
    array: &Array,
    i: usize,
    item: &AvroSchema,
    out: &mut Vec<u8>,
) -> Result<(), AllocError>
    requires within { i < length (array_slots array.now) }
    requires kind { IsListKind (array_kind array.now) }
    requires pairs { PairsList item.now array.now (slot_at (array_slots array.now) i) }
    ensures ok { OnOk result (out.new.items
        ≡ out.old.items ++ one_block (plain item.now)
        (parts_of (slot_at (array_slots array.now) i))) }
{
    match array {
        Array::List(array) => append_items(&array.value(i), item, out),
        Array::LargeList(array) => append_items(&array.value(i), item, out),
        _ => unreachable!(),
    }
}

/// Appends the items of a list as one block, and the end of blocks.
// It is inlined, so that the ends of the part stay in registers.
#[cycle(append)]
#[inline(always)]
fn append_items(part: &Part<'_>, item: &AvroSchema, out: &mut Vec<u8>) -> Result<(), AllocError>
    requires part { IsPart part.now }
    requires types { PairsType item.now (array_type part.now.array.now) }
    requires counted { IsCounted (part_slots part.now) }
    requires slots { AllByRecursion (Pairs item.now) (part_slots part.now) }
    ensures ok { OnOk result (out.new.items
        ≡ out.old.items ++ one_block (plain item.now) (part_slots part.now)) }
{
    let count = part.end - part.start;
    if count > 0 {
        append_number(count as i64, out)?;
        for k in 0..count {
            append_slot(part.array, part.start + k, item, out)?;
        }
    }
    append_number(0, out)
}

/// Appends a struct.
#[cycle(append)]
#[inline(never)]
fn append_struct(
    array: &Array,
    i: usize,
    fields: &[AvroField],
    out: &mut Vec<u8>,
) -> Result<(), AllocError>
    requires within { i < length (array_slots array.now) }
    requires kind { IsStructKind (array_kind array.now) }
    requires pairs { PairsStruct fields.now array.now (slot_at (array_slots array.now) i) }
    ensures ok { OnOk result (out.new.items
        ≡ out.old.items ++ plain_fields_of fields.now
        (parts_of (slot_at (array_slots array.now) i))) }
{
    match array {
        Array::Struct(array) => append_fields(array.values(), i, fields, out),
        _ => unreachable!(),
    }
}

/// Appends the slots of the arrays at index `i`, each under its field's schema.
// It is inlined into its one caller.
#[cycle(append)]
#[inline(always)]
fn append_fields(
    children: &[Array],
    i: usize,
    fields: &[AvroField],
    out: &mut Vec<u8>,
) -> Result<(), AllocError>
    requires within { HaveSlots (i + 1) children.now }
    requires types { PairsTypesOf fields.now (map array_type children.now) }
    requires slots { PairsFieldsOf fields.now (slots_across children.now i) }
    ensures ok { OnOk result (out.new.items
        ≡ out.old.items ++ plain_fields_of fields.now (slots_across children.now i)) }
{
    for k in 0..fields.len() {
        append_slot(&children[k], i, &fields[k].schema, out)?;
    }
    Ok(())
}
