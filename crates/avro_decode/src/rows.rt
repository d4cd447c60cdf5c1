//! Rows, each value into the builder of its column.

ghost use Rattle.std.specs.Prelude.{◌≡◌, ◌≤◌, length, map, true, false};
ghost use Rattle.arrow_builders.specs.MutableArrays.{builder_slots};
ghost use Rattle.arrow_builders.specs.Shapes.{shape};
ghost use Rattle.arrow_builders.specs.Tight.{IsTight};
ghost use Rattle.avro_schema.specs.Carried.{Carried};
ghost use Rattle.avro_reference.specs.Read.{push_one, items, read};
ghost use Rattle.avro_reference.specs.Skip.{skip};
ghost use Rattle.avro_reference.specs.Block.{row, rows as rows_at, block};
ghost use Rattle.avro_reference.specs.Costs.{Moves};
ghost use Rattle.avro_decode.specs.Decoding.{BlockHasMemory, GivesField, PassesField, GivesRow, GivesRows, GivesBlock};
ghost use Rattle.avro_decode.specs.Growth.{AllOffsetsReach};
ghost use Rattle.avro_decode.specs.Keeping.{KeepsField};
ghost use Rattle.avro_decode.specs.Masks.{mask};
ghost use Rattle.avro_decode.specs.Plans.{PlanFits, KeepsRows};
ghost use Rattle.avro_decode.specs.Suits.{Suits};

use crate::decode::{decode_items, decode_value};
use crate::fault::BlockFault;
use crate::kept_rows::{all_kept, decode_kept_rows};
use crate::plan::Plan;
use crate::steps::MOST_STEPS;
use arrow_builders::MutableArray;
use avro_flat::DecodeFault;
use avro_reference::ByteReader;
use avro_schema::AvroSchema;
use avro_skip::{SkipFault, skip_value};

/// Reads the rows of a whole block.
#[inline(always)]
pub fn decode_block<C: ByteReader>(
    cursor: &mut C,
    rows: usize,
    plan: &Plan,
    builders: &mut [MutableArray],
) -> Result<(), BlockFault>
    requires plan { PlanFits plan.now (length (C.rest cursor.old)) builders.old }
    requires enough { rows ≤ length (C.rest cursor.old) }
    ensures keeps { KeepsRows C.rest C.calls C.identity plan.now cursor.old cursor.new
        builders.old builders.new result }
    ensures reads { GivesBlock C.rest C.shown C.calls cursor.old cursor.new
        (map builder_slots builders.old) (map builder_slots builders.new) result
        (block rows plan.now.avro_fields.now plan.now.projection.now (C.rest cursor.old)) }
{
    decode_rows(cursor, rows, plan, builders)?;
    if cursor.left() > 0 {
        return Err(BlockFault::Bytes);
    }
    Ok(())
}

/// Reads so many rows. Where there is one field and it is kept, they are the items of one column,
/// and no field has to be found again for each row. Where each field is kept, and they are no more
/// than there are steps, how a field is read is told once and not again for each row.
#[inline(always)]
fn decode_rows<C: ByteReader>(
    cursor: &mut C,
    rows: usize,
    plan: &Plan,
    builders: &mut [MutableArray],
) -> Result<(), BlockFault>
    requires plan { PlanFits plan.now (length (C.rest cursor.old)) builders.old }
    ensures keeps { KeepsRows C.rest C.calls C.identity plan.now cursor.old cursor.new
        builders.old builders.new result }
    ensures reads { GivesRows C.rest C.shown C.calls cursor.old cursor.new
        (map builder_slots builders.old) (map builder_slots builders.new) result
        (rows_at rows plan.now.avro_fields.now plan.now.projection.now (C.rest cursor.old)) }
{
    let Plan {
        avro_fields,
        projection,
    } = *plan;
    if avro_fields.len() == 1 && projection[0] {
        return decode_only_field(cursor, rows, &avro_fields[0].schema, &mut builders[0]);
    }
    if avro_fields.len() <= MOST_STEPS && all_kept(projection) {
        return decode_kept_rows(cursor, rows, plan, builders);
    }
    decode_each_row(cursor, rows, plan, builders)
}

#[inline(always)]
fn decode_each_row<C: ByteReader>(
    cursor: &mut C,
    rows: usize,
    plan: &Plan,
    builders: &mut [MutableArray],
) -> Result<(), BlockFault>
    requires plan { PlanFits plan.now (length (C.rest cursor.old)) builders.old }
    ensures keeps { KeepsRows C.rest C.calls C.identity plan.now cursor.old cursor.new
        builders.old builders.new result }
    ensures reads { GivesRows C.rest C.shown C.calls cursor.old cursor.new
        (map builder_slots builders.old) (map builder_slots builders.new) result
        (rows_at rows plan.now.avro_fields.now plan.now.projection.now (C.rest cursor.old)) }
{
    for _ in 0..rows {
        decode_row(cursor, plan, builders)?;
    }
    Ok(())
}

/// Reads the rows of the one field that there is.
fn decode_only_field<C: ByteReader>(
    cursor: &mut C,
    rows: usize,
    schema: &AvroSchema,
    builder: &mut MutableArray,
) -> Result<(), BlockFault>
    requires suits { Suits schema.now (shape builder.old) }
    requires tight { IsTight builder.old }
    requires offsets { AllOffsetsReach (mask true schema.now) (length (C.rest cursor.old))
        builder.old }
    ensures keeps { KeepsField C.rest C.shown C.calls C.identity (mask false schema.now)
        cursor.old cursor.new builder.old builder.new result }
    ensures reads { GivesField (λ _. (builder_slots builder.new, C.rest cursor.new)) result
        (items (read schema.now) rows (builder_slots builder.old) (C.rest cursor.old)) }
{
    match decode_items(cursor, schema, rows as u64, builder) {
        Ok(()) => Ok(()),
        Err(DecodeFault::Bytes) => Err(BlockFault::Bytes),
        Err(DecodeFault::Memory) => Err(BlockFault::Memory),
    }
}

/// Reads one row: each kept field into its builder, each other field skipped.
#[inline(always)]
fn decode_row<C: ByteReader>(
    cursor: &mut C,
    plan: &Plan,
    builders: &mut [MutableArray],
) -> Result<(), BlockFault>
    requires plan { PlanFits plan.now (length (C.rest cursor.old)) builders.old }
    ensures keeps { KeepsRows C.rest C.calls C.identity plan.now cursor.old cursor.new
        builders.old builders.new result }
    ensures reads { GivesRow C.rest C.shown C.calls cursor.old cursor.new
        (map builder_slots builders.old) (map builder_slots builders.new) result
        (row plan.now.avro_fields.now plan.now.projection.now (C.rest cursor.old)) }
{
    let Plan {
        avro_fields,
        projection,
    } = *plan;
    let mut column = 0;
    for i in 0..avro_fields.len() {
        let field = &avro_fields[i];
        if projection[i] {
            decode_field(cursor, &field.schema, &mut builders[column])?;
            column += 1;
        } else {
            skip_field(cursor, &field.schema)?;
        }
    }
    Ok(())
}

/// Reads a kept field's value into one more slot of its builder.
#[inline(always)]
fn decode_field<C: ByteReader>(
    cursor: &mut C,
    schema: &AvroSchema,
    builder: &mut MutableArray,
) -> Result<(), BlockFault>
    requires suits { Suits schema.now (shape builder.old) }
    requires tight { IsTight builder.old }
    requires offsets { AllOffsetsReach (mask true schema.now) (length (C.rest cursor.old))
        builder.old }
    ensures keeps { KeepsField C.rest C.shown C.calls C.identity (mask false schema.now)
        cursor.old cursor.new builder.old builder.new result }
    ensures reads { GivesField (λ _. (builder_slots builder.new, C.rest cursor.new)) result
        (push_one (builder_slots builder.old) (read schema.now (C.rest cursor.old))) }
{
    match decode_value(cursor, schema, builder) {
        Ok(()) => Ok(()),
        Err(DecodeFault::Bytes) => Err(BlockFault::Bytes),
        Err(DecodeFault::Memory) => Err(BlockFault::Memory),
    }
}

/// Skips the value of a field that isn't kept.
#[inline(always)]
fn skip_field<C: ByteReader>(cursor: &mut C, schema: &AvroSchema) -> Result<(), BlockFault>
    requires carried { Carried schema.now }
    ensures memory { BlockHasMemory result }
    ensures same { C.identity cursor.new ≡ C.identity cursor.old }
    ensures moves { Moves C.rest C.calls cursor.old cursor.new }
    ensures passes { PassesField C.rest C.shown C.calls cursor.old cursor.new result
        (skip schema.now (C.rest cursor.old)) }
{
    match skip_value(cursor, schema) {
        Ok(()) => Ok(()),
        Err(SkipFault::Bytes) => Err(BlockFault::Bytes),
        Err(SkipFault::NegativeSize) => Err(BlockFault::NegativeSize),
    }
}
