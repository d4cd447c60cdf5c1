//! Values that are skipped. No more of them is looked at than tells how long they are, and the byte
//! of each boolean; the rest is skipped.

ghost use Rattle.std.specs.Prelude.{◌≡◌, ◌≢◌, ◌⊎◌, ◌+◌, ◌<◌, ◌≤◌, length, pos, OnOk};
ghost use Rattle.avro_schema.specs.Carried.{Carried, CarriedList, IsNoUnion};
ghost use Rattle.avro_schema.specs.Encodes.{IsNull};
ghost use Rattle.avro_schema.specs.Listed.{CarriedMembersOf};
ghost use Rattle.avro_reference.specs.Skip.{skip, skip_items as skip_items_at, skip_block_items as skip_block_items_at, skip_array};
ghost use Rattle.avro_reference.specs.Listed.{skip_union_of, skip_fields_of};
ghost use Rattle.avro_reference.specs.Costs.{Moves};
ghost use Rattle.avro_skip.specs.Skipping.{Passes, PassesMore, member_at};

use crate::fault::SkipFault;
use crate::flat::{fixed_size, skip_byte, skip_bytes, skip_number, skip_sized, skip_sized_items};
use avro_reference::ByteReader;
use avro_schema::{AvroField, AvroSchema};

/// Skips one value of a carried schema (Avro 1.11, "Binary Encoding").
///
/// `NegativeSize` comes where a block of an array states a size below 0, and `Bytes` where the
/// bytes are no such value otherwise: whichever fault is the first from the left. Items of blocks
/// that state their size are passed by one jump, and so are the bytes of strings, of binary values
/// and of fixed-size ones.
// It is inlined wherever a value is skipped, so that a flat one, beneath a union too, takes no call
// into the cycle: `skip_fields` and `skip_blocks`, which the others go through, are not.
#[cycle(skips)]
#[inline(always)]
pub fn skip_value<A: ByteReader>(cursor: &mut A, schema: &AvroSchema) -> Result<(), SkipFault>
    requires carried { Carried schema.now }
    ensures same { A.identity cursor.new ≡ A.identity cursor.old }
    ensures moves { Moves A.rest A.calls cursor.old cursor.new }
    ensures shorter { OnOk result (length (A.rest cursor.new) < length (A.rest cursor.old)) }
    ensures passes { Passes A.rest A.shown A.calls cursor.old cursor.new result
        (skip schema.now (A.rest cursor.old)) }
{
    match schema {
        AvroSchema::Union(members) => skip_union(cursor, members.as_slice()),
        _ => skip_no_union(cursor, schema),
    }
}

/// Skips one value of a schema that is no union.
// It and what it calls for flat values are inlined wherever a value is skipped, since the calls would
// cost as much as the skipping; and all kinds stand in one match, since a second one would be a second
// jump.
#[cycle(skips)]
#[inline(always)]
#[tactic(auto, using(crate::proofs::Sets::flats))]
fn skip_no_union<A: ByteReader>(cursor: &mut A, schema: &AvroSchema) -> Result<(), SkipFault>
    requires carried { Carried schema.now }
    requires no_union { IsNoUnion schema.now }
    ensures same { A.identity cursor.new ≡ A.identity cursor.old }
    ensures moves { Moves A.rest A.calls cursor.old cursor.new }
    ensures shorter { OnOk result (length (A.rest cursor.new) < length (A.rest cursor.old)) }
    ensures passes { Passes A.rest A.shown A.calls cursor.old cursor.new result
        (skip schema.now (A.rest cursor.old)) }
{
    match schema {
        AvroSchema::Boolean => skip_byte(cursor),
        AvroSchema::Int(_) | AvroSchema::Long(_) | AvroSchema::Enum(_) => skip_number(cursor),
        AvroSchema::Float => skip_bytes(cursor, 4),
        AvroSchema::Double => skip_bytes(cursor, 8),
        AvroSchema::Bytes(_) | AvroSchema::String(_) => skip_sized(cursor),
        AvroSchema::Fixed(fixed) => skip_bytes(cursor, fixed_size(fixed)),
        AvroSchema::Record(record) => skip_fields(cursor, record.fields.as_slice()),
        AvroSchema::Array(item) => skip_blocks(cursor, item.get()),
        _ => unreachable!(),
    }
}

#[cycle(skips)]
#[inline(always)]
#[tactic(auto, using(crate::proofs::Sets::unions))]
fn skip_union<A: ByteReader>(cursor: &mut A, members: &[AvroSchema]) -> Result<(), SkipFault>
    requires carried { CarriedMembersOf members.now }
    ensures same { A.identity cursor.new ≡ A.identity cursor.old }
    ensures moves { Moves A.rest A.calls cursor.old cursor.new }
    ensures shorter { OnOk result (length (A.rest cursor.new) < length (A.rest cursor.old)) }
    ensures passes { Passes A.rest A.shown A.calls cursor.old cursor.new result
        (skip_union_of members.now (A.rest cursor.old)) }
{
    let [first, second] = members else {
        unreachable!()
    };
    let Some(member) = cursor.number() else {
        return Err(SkipFault::Bytes);
    };
    if member == 0 {
        skip_member(cursor, first)
    } else if member == 1 {
        skip_member(cursor, second)
    } else {
        Err(SkipFault::Bytes)
    }
}

/// Skips the value of one member. Null has no bytes.
#[cycle(skips)]
#[inline(always)]
#[tactic(auto, using(crate::proofs::Sets::nulls))]
fn skip_member<A: ByteReader>(cursor: &mut A, schema: &AvroSchema) -> Result<(), SkipFault>
    requires member { IsNull schema.now ⊎ (Carried schema.now × IsNoUnion schema.now) }
    ensures same { A.identity cursor.new ≡ A.identity cursor.old }
    ensures moves { Moves A.rest A.calls cursor.old cursor.new }
    ensures passes { Passes A.rest A.shown A.calls cursor.old cursor.new result
        (member_at schema.now (A.rest cursor.old)) }
{
    if matches!(schema, AvroSchema::Null) {
        Ok(())
    } else {
        skip_no_union(cursor, schema)
    }
}

/// Skips the fields of a record, in order.
#[cycle(skips)]
#[inline(never)]
fn skip_fields<A: ByteReader>(cursor: &mut A, fields: &[AvroField]) -> Result<(), SkipFault>
    requires carried { CarriedList fields.now }
    ensures same { A.identity cursor.new ≡ A.identity cursor.old }
    ensures moves { Moves A.rest A.calls cursor.old cursor.new }
    ensures shorter { OnOk result (length (A.rest cursor.new) + length fields.now
        ≤ length (A.rest cursor.old)) }
    ensures passes { PassesMore A.rest A.shown A.calls cursor.old cursor.new result
        (λ before. skip_fields_of fields.now before (A.rest cursor.old)) }
{
    for i in 0..fields.len() {
        skip_value(cursor, &fields[i].schema)?;
    }
    Ok(())
}

/// Skips the blocks of an array, up to the number 0 that ends them.
#[cycle(skips)]
#[inline(never)]
fn skip_blocks<A: ByteReader>(cursor: &mut A, item: &AvroSchema) -> Result<(), SkipFault>
    requires carried { Carried item.now }
    ensures same { A.identity cursor.new ≡ A.identity cursor.old }
    ensures moves { Moves A.rest A.calls cursor.old cursor.new }
    ensures shorter { OnOk result (length (A.rest cursor.new) < length (A.rest cursor.old)) }
    ensures passes { Passes A.rest A.shown A.calls cursor.old cursor.new result
        (skip_array (skip item.now) (A.rest cursor.old)) }
{
    loop {
        let Some(count) = cursor.number() else {
            return Err(SkipFault::Bytes);
        };
        if count == 0 {
            return Ok(());
        }
        skip_block_items(cursor, item, count)?;
    }
}

/// Skips the items of a block after its count. Where the count is below 0 their size stands before
/// them.
#[cycle(skips)]
fn skip_block_items<A: ByteReader>(
    cursor: &mut A,
    item: &AvroSchema,
    count: i64,
) -> Result<(), SkipFault>
    requires carried { Carried item.now }
    requires some { count ≢ pos 0 }
    ensures same { A.identity cursor.new ≡ A.identity cursor.old }
    ensures moves { Moves A.rest A.calls cursor.old cursor.new }
    ensures passes { PassesMore A.rest A.shown A.calls cursor.old cursor.new result
        (λ before. skip_block_items_at (skip item.now) count before (A.rest cursor.old)) }
{
    if count > 0 {
        skip_items(cursor, item, count as u64)
    } else if count == i64::MIN {
        // No such count has an opposite: the items would be more than a number can count.
        Err(SkipFault::Bytes)
    } else {
        skip_sized_items(cursor)
    }
}

/// Skips `count` items. There may be fewer bytes ahead than items: only where they end is it told
/// which fault comes first.
#[cycle(skips)]
fn skip_items<A: ByteReader>(cursor: &mut A, item: &AvroSchema, count: u64) -> Result<(), SkipFault>
    requires carried { Carried item.now }
    ensures same { A.identity cursor.new ≡ A.identity cursor.old }
    ensures moves { Moves A.rest A.calls cursor.old cursor.new }
    ensures passes { PassesMore A.rest A.shown A.calls cursor.old cursor.new result
        (λ before. skip_items_at (skip item.now) count before (A.rest cursor.old)) }
{
    for _ in 0..count {
        skip_value(cursor, item)?;
    }
    Ok(())
}
