//! The rows, read back, and what their columns add up to.
ghost use Rattle.std.specs.Prelude.{◌≡◌, ◌∷◌, [], true, false, ℕ, List, length, map, IfOk};
ghost use Rattle.arrow_core.specs.Errors.{OnlyOutOfMemory};
ghost use Rattle.arrow_core.specs.declared.slot.Slot.{Slot};
ghost use Rattle.arrow_array.specs.Arrays.{array_slots};
ghost use Rattle.avro_schema.specs.Rows.{Rows, column};
ghost use Rattle.avro_schema.specs.ValidBlock.{kept};
ghost use Rattle.avro_schema.specs.Columns.{columns};
ghost use Rattle.avro_write.specs.Laws.{all_kept};
ghost use Rattle.sample_rows.specs.Fields.{row_fields};
ghost use Rattle.sample_rows.specs.Totals as spec;
ghost use Rattle.sample_rows.specs.declared.totals.Measure.TheVariants as measure;

use crate::memory::in_memory;
use crate::totals::{Measure, total};
use arrow_array::Chunk;
use arrow_core::{Error, Field, Result};
use avro_decode::deserialize;
use avro_schema::{AvroField, Block};
use std::alloc::Global;

/// What the columns of the rows add up to.
#[derive(Clone, Copy)]
pub struct Totals {
    /// The sum of the ids.
    pub ids: u128,
    /// How many users aren't null.
    pub users: u128,
    /// How many tags there are.
    pub tags: u128,
    /// How many booleans are true.
    pub oks: u128,
}

/// What the columns of ids and booleans add up to, where no other is read.
#[derive(Clone, Copy)]
pub struct KeptTotals {
    /// The sum of the ids.
    pub ids: u128,
    /// How many booleans are true.
    pub oks: u128,
}

/// The columns of the fields that are kept: those of the one table that the bytes are.
fn read_columns(
    alloc: Global,
    block: &Block,
    types: &[Field],
    fields: &[AvroField],
    projection: &[bool],
) -> Result<Chunk>
    ensures columns { (table : List (List Slot))
        → Rows block.now.number_of_rows fields.now projection.now block.now.bytes table
        → IfOk result (λ chunk. map array_slots chunk
        ≡ columns (length (kept fields.now projection.now)) table) }
    ensures memory { OnlyOutOfMemory result }
{
    in_memory(deserialize(alloc, block, types, fields, projection))
}

/// Reads the rows with all fields.
pub(crate) fn read_all(
    alloc: Global,
    block: &Block,
    types: &[Field],
    fields: &[AvroField],
) -> Result<Totals>
    requires fields { fields.now ≡ row_fields }
    ensures totals { (table : List (List Slot))
        → Rows block.now.number_of_rows row_fields (all_kept row_fields) block.now.bytes table
        → IfOk result (λ t. (t.ids ≡ spec.total measure.Number (column table 0))
        × (t.users ≡ spec.total measure.Held (column table 1))
        × (t.tags ≡ spec.total measure.Items (column table 2))
        × (t.oks ≡ spec.total measure.Trues (column table 3))) }
    ensures memory { OnlyOutOfMemory result }
{
    let chunk = read_columns(alloc, block, types, fields, &[true, true, true, true])?;
    let [ids, users, tags, oks] = chunk.arrays() else {
        // There is a column for each field.
        return Err(Error::OutOfMemory);
    };
    Ok(Totals {
        ids: total(ids, Measure::Number)?,
        users: total(users, Measure::Held)?,
        tags: total(tags, Measure::Items)?,
        oks: total(oks, Measure::Trues)?,
    })
}

/// Reads the rows without users and tags.
pub(crate) fn read_kept(
    alloc: Global,
    block: &Block,
    types: &[Field],
    fields: &[AvroField],
) -> Result<KeptTotals>
    requires fields { fields.now ≡ row_fields }
    ensures totals { (table : List (List Slot))
        → Rows block.now.number_of_rows row_fields (true ∷ false ∷ false ∷ true ∷ [])
        block.now.bytes table
        → IfOk result (λ t. (t.ids ≡ spec.total measure.Number (column table 0))
        × (t.oks ≡ spec.total measure.Trues (column table 1))) }
    ensures memory { OnlyOutOfMemory result }
{
    let chunk = read_columns(alloc, block, types, fields, &[true, false, false, true])?;
    let [ids, oks] = chunk.arrays() else {
        // There is a column for each field that is kept.
        return Err(Error::OutOfMemory);
    };
    Ok(KeptTotals {
        ids: total(ids, Measure::Number)?,
        oks: total(oks, Measure::Trues)?,
    })
}
