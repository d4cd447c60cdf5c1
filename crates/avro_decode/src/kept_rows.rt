//! Rows of which each field is kept, by the steps of the fields.

ghost use Rattle.std.specs.Prelude.{◌≤◌, ◌↔◌, length, map, All, IsTrue};
ghost use Rattle.arrow_builders.specs.MutableArrays.{builder_slots};
ghost use Rattle.avro_reference.specs.Block.{row, rows as rows_at};
ghost use Rattle.avro_decode.specs.Decoding.{GivesRow, GivesRows};
ghost use Rattle.avro_decode.specs.Plans.{PlanFits, KeepsRows};
ghost use Rattle.avro_decode.specs.Steps.{StepsFit};

use crate::fault::BlockFault;
use crate::plan::Plan;
use crate::steps::{MOST_STEPS, Step, decode_by_step, steps_of};
use arrow_builders::MutableArray;
use avro_reference::ByteReader;

/// Whether each field is kept.
pub fn all_kept(projection: &[bool]) -> bool
    ensures { IsTrue result ↔ All IsTrue projection.now }
{
    for i in 0..projection.len() {
        if !projection[i] {
            return false;
        }
    }
    true
}

/// Reads so many rows of which each field is kept, by the steps of the fields.
pub fn decode_kept_rows<C: ByteReader>(
    cursor: &mut C,
    rows: usize,
    plan: &Plan,
    builders: &mut [MutableArray],
) -> Result<(), BlockFault>
    requires few { length plan.now.avro_fields.now ≤ MOST_STEPS }
    requires all { All IsTrue plan.now.projection.now }
    requires plan { PlanFits plan.now (length (C.rest cursor.old)) builders.old }
    ensures keeps { KeepsRows C.rest C.calls C.identity plan.now cursor.old cursor.new
        builders.old builders.new result }
    ensures reads { GivesRows C.rest C.shown C.calls cursor.old cursor.new
        (map builder_slots builders.old) (map builder_slots builders.new) result
        (rows_at rows plan.now.avro_fields.now plan.now.projection.now (C.rest cursor.old)) }
{
    // A copy, so that a row needn't load the plan again.
    let plan = *plan;
    let steps = steps_of(plan.avro_fields);
    for _ in 0..rows {
        decode_kept_row(cursor, &steps, &plan, builders)?;
    }
    Ok(())
}

/// Reads one row, each field into its builder.
#[inline(always)]
fn decode_kept_row<C: ByteReader>(
    cursor: &mut C,
    steps: &[Step],
    plan: &Plan,
    builders: &mut [MutableArray],
) -> Result<(), BlockFault>
    requires steps { StepsFit steps.now plan.now.avro_fields.now }
    requires enough { length plan.now.avro_fields.now ≤ length steps.now }
    requires all { All IsTrue plan.now.projection.now }
    requires plan { PlanFits plan.now (length (C.rest cursor.old)) builders.old }
    ensures keeps { KeepsRows C.rest C.calls C.identity plan.now cursor.old cursor.new
        builders.old builders.new result }
    ensures reads { GivesRow C.rest C.shown C.calls cursor.old cursor.new
        (map builder_slots builders.old) (map builder_slots builders.new) result
        (row plan.now.avro_fields.now plan.now.projection.now (C.rest cursor.old)) }
{
    let avro_fields = plan.avro_fields;
    for i in 0..avro_fields.len() {
        let field = &avro_fields[i];
        decode_by_step(cursor, steps[i], &field.schema, &mut builders[i])?;
    }
    Ok(())
}
