//! How rows are shown without columns.

ghost use Rattle.std.specs.Prelude.{◌≡◌, ◌≤◌, length, IfOk, IfSome, OnOk};
ghost use Rattle.arrow_core.specs.Errors.{OnlyOutOfMemory};
ghost use Rattle.avro_schema.specs.ValidBlock.{kept, small_limit};
ghost use Rattle.avro_line.specs.Rows.{HaveTexts, ShowsRowsOf};
ghost use Rattle.json_text.specs.Columns.{AreFields};
ghost use Rattle.avro_schema.specs.Projected.{CanBeDecoded};
ghost use Rattle.avro_ndjson.specs.Plan.{IsPlan};

use arrow_base::{Field, Result};
use avro_decode::{Decoder, MOST_BYTES};
use avro_line::{GivenUp, are_known, push_rows};
use avro_schema::{AvroField, Block};
use json_text::{Column, push_column};
use std::alloc::Global;

/// What rows are shown by.
#[derive(Drop)]
pub(crate) struct RowPlan {
    // Of the fields that are kept.
    columns: Vec<Column>,
}

impl RowPlan {
    /// Appends the lines of the rows of a block that this decoder takes, of no more bytes than
    /// offsets of 32 bits can count. The types of the kept fields have JSON texts.
    ///
    /// `GivenUp` may come at any time, and then anything may have been appended.
    pub(crate) fn push_block(
        &self,
        out: &mut Vec<u8>,
        decoder: &Decoder,
        block: &Block,
    ) -> std::result::Result<(), GivenUp>
        requires possible { CanBeDecoded decoder.now }
        requires texts { HaveTexts (kept decoder.now.avro_fields decoder.now.projection) }
        ensures small { OnOk result (length block.now.bytes ≤ small_limit) }
        ensures shown { OnOk result (ShowsRowsOf block.now.number_of_rows
            decoder.now.avro_fields decoder.now.projection self.now.columns.items
            block.now.bytes out.old.items out.new.items) }
    {
        let bytes = block.bytes.as_slice();
        if bytes.len() > MOST_BYTES {
            return Err(GivenUp);
        }
        push_rows(
            out,
            bytes,
            decoder.avro_fields(),
            decoder.projection(),
            &self.columns,
            block.number_of_rows,
        )
    }
}

/// The columns of the fields.
fn columns_of(alloc: Global, fields: &[Field]) -> Result<Vec<Column>>
    ensures ok { IfOk result (λ columns. AreFields fields.now columns.items) }
    ensures memory { OnlyOutOfMemory result }
{
    let mut columns = Vec::new(alloc);
    for field in fields {
        push_column(alloc, &mut columns, field.name.as_str(), &field.data_type)?;
    }
    Ok(columns)
}

/// How rows of these fields are shown, of which `kept` are those that the projection keeps; None
/// where a kept field is of a kind that isn't shown without columns.
pub(crate) fn plan_rows(
    alloc: Global,
    avro_fields: &[AvroField],
    projection: &[bool],
    kept: &[Field],
) -> Result<Option<RowPlan>>
    requires { length avro_fields.now ≡ length projection.now }
    ensures ok { IfOk result (λ plan. IfSome plan
        (IsPlan avro_fields.now projection.now kept.now)) }
    ensures memory { OnlyOutOfMemory result }
{
    if !are_known(avro_fields, projection) {
        return Ok(None);
    }
    let columns = columns_of(alloc, kept)?;
    Ok(Some(RowPlan { columns }))
}
