//! The blocks of a file as lines.

ghost use Rattle.std.specs.Prelude.{◌≡◌, ◌≤◌, ◌↔◌, [], length, Some, IsTrue, IsFalse, OnOk, IfOk, IfErr};
ghost use Rattle.std.specs.Option.{option_copied};
ghost use Rattle.avro_schema.specs.declared.schema.Record.{out-Record};
ghost use Rattle.avro_container.specs.File.{the_block};
ghost use Rattle.avro_container.specs.Written.{AppendsBlock};
ghost use Rattle.avro_ndjson.specs.Encoder.{IsEncoder};
ghost use Rattle.avro_ndjson.specs.Refusals.{CannotBeShown};
ghost use Rattle.avro_ndjson.specs.Shown.{CanBeShown, projected_of, ShowsBlock};
ghost use Rattle.avro_ndjson.specs.Taken.{BlockIsWrong};

use crate::fields::{check_texts, kept_fields};
use crate::keep::projection_of;
use crate::plan::{RowPlan, plan_rows};
use arrow_base::{Error, Reason, Result};
use avro_container::EncodesBlocks;
use avro_decode::{Decoder, check_carried};
use avro_schema::{Block, Record};
use avro_types::infer_schema;
use json_write::LineEncoder;
use std::alloc::Global;

/// Turns the blocks of one file into lines.
#[derive(Drop)]
pub(crate) struct BlockEncoder {
    decoder: Decoder,
    // Of the fields that are kept, by whose names rows are written.
    lines: LineEncoder,
    // Where rows can be shown without columns.
    plan: Option<RowPlan>,
}

/// Whether numbers are given, and none of them.
fn keeps_nothing(keep: Option<&[usize]>) -> bool
    ensures { IsTrue result ↔ (option_copied keep.entry ≡ Some []) }
{
    match keep {
        Some(numbers) => numbers.is_empty(),
        None => false,
    }
}

impl BlockEncoder {
    /// Of the blocks of rows of `root`, for the fields of these numbers, or for all.
    ///
    /// In this order: `NotYetImplemented(NoField)` where the record has no field,
    /// `NotYetImplemented(NotCarried)` where one isn't carried,
    /// `InvalidArgumentError(KeepNumber)` where a number is no field's, or is named twice,
    /// `InvalidArgumentError(NothingKept)` where there is no number,
    /// `NotYetImplemented(Float)` where a kept field holds a float or a double, and
    /// `NotYetImplemented(NoJsonText)` where the type of one has no JSON text. `OutOfMemory` at
    /// any time.
    pub(crate) fn new(alloc: Global, root: Record, keep: Option<&[usize]>) -> Result<BlockEncoder>
        ensures shown { IfOk result (λ encoder. CanBeShown (option_copied keep.entry)
            (out-Record root).fields encoder.decoder.fields) }
        ensures decoder { IfOk result (λ encoder. encoder.decoder
            ≡ projected_of (option_copied keep.entry) root encoder.decoder.fields) }
        ensures encoder { IfOk result IsEncoder }
        ensures err { IfErr result
            (CannotBeShown (option_copied keep.entry) (out-Record root).fields) }
    {
        check_carried(root.fields.as_slice())?;
        let projection = projection_of(alloc, keep, root.fields.as_slice().len())?;
        if keeps_nothing(keep) {
            return Err(Error::InvalidArgumentError(Reason::NothingKept));
        }
        let schema = infer_schema(alloc, &root)?;
        let kept = kept_fields(alloc, schema.fields.as_slice(), &projection)?;
        let Record {
            fields: avro_fields,
            ..
        } = root;
        let plan = plan_rows(alloc, avro_fields.as_slice(), &projection, kept.as_slice())?;
        let decoder = Decoder::new(alloc, schema.fields.into_vec(), avro_fields, projection)?;
        check_texts(kept.as_slice())?;
        let lines = LineEncoder::new(alloc, kept)?;
        Ok(BlockEncoder {
            decoder,
            lines,
            plan,
        })
    }

    /// Appends the lines of a block's rows.
    ///
    /// The errors are those of `Decoder::decode`, and `InvalidArgumentError(DateRange)` where a
    /// kept date or timestamp isn't in a year from 0 to 9999.
    pub(crate) fn push_block(&mut self, out: &mut Vec<u8>, block: &Block) -> Result<()>
        requires { IsEncoder self.old }
        ensures ok { OnOk result (AppendsBlock (ShowsBlock self.old.decoder)
            (the_block block.now.number_of_rows block.now.bytes) out.old.items out.new.items) }
        ensures few { OnOk result (block.now.number_of_rows ≤ length block.now.bytes) }
        ensures err { IfErr result (BlockIsWrong self.old.decoder
            (the_block block.now.number_of_rows block.now.bytes)) }
        ensures same { self.new ≡ self.old }
    {
        if self.push_rows(out, block) {
            return Ok(());
        }
        let chunk = self.decoder.decode(block)?;
        self.lines.push(out, &chunk)
    }

    /// Appends the lines of a block's rows without columns, and says whether it could; else `out` is
    /// as it was. It does so where nothing was appended before: a block that is given up may leave
    /// anything.
    fn push_rows(&self, out: &mut Vec<u8>, block: &Block) -> bool
        requires { IsEncoder self.now }
        ensures shown { IsTrue result → AppendsBlock (ShowsBlock self.now.decoder)
            (the_block block.now.number_of_rows block.now.bytes) out.old.items out.new.items }
        ensures few { IsTrue result → block.now.number_of_rows ≤ length block.now.bytes }
        ensures given_up { IsFalse result → out.new.items ≡ out.old.items }
    {
        let Some(plan) = &self.plan else {
            return false;
        };
        if !out.is_empty() {
            return false;
        }
        if plan.push_block(out, &self.decoder, block).is_ok() {
            return true;
        }
        out.clear();
        false
    }
}

impl EncodesBlocks for BlockEncoder {
    ghost use Rattle.avro_container.specs.Written.{WithAllRows};
    ghost use Rattle.avro_ndjson.specs.Encoder.{IsEncoder};
    ghost use Rattle.avro_ndjson.specs.Shown.{ShowsBlock};
    ghost use Rattle.avro_ndjson.specs.Taken.{BlockIsWrong};

    ghost ready = { IsEncoder };

    ghost shows = { λ encoder. WithAllRows (ShowsBlock encoder.decoder) };

    ghost wrong = { λ encoder. BlockIsWrong encoder.decoder };

    fn append_block(&mut self, out: &mut Vec<u8>, block: &Block) -> Result<usize> {
        self.push_block(out, block)?;
        Ok(block.number_of_rows)
    }
}
