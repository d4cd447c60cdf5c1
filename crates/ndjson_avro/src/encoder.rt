//! The rows of a batch into a block.
ghost use Rattle.std.specs.Prelude.{◌≡◌, false, length, All, IfOk, OnOk, IfErr};
ghost use Rattle.std.specs.Bool.{OnTrue};
ghost use Rattle.arrow_array.specs.Arrays.{array_slots, array_type};
ghost use Rattle.arrow_core.specs.declared.types.DataType.{DataType as RowType};
ghost use Rattle.avro_container.specs.File.{the_block};
ghost use Rattle.avro_encode.specs.Pairs.{Pairs};
ghost use Rattle.avro_schema.specs.declared.schema.Schema.{Schema as RootSchema};
ghost use Rattle.ndjson_avro.specs.Rows.{lacks_value, rows_block};
ghost use Rattle.ndjson_avro.specs.Steps.{AreBuildersOf, TextsRefused, EncodesRows, IsEncoderOf, RowsRefused, IsPlanFor, IsRootOf};
ghost use Rattle.ndjson_avro.specs.Target.{HasNoTarget};

use crate::rows::read_array;
use crate::target::make_target;
use arrow_array::Array;
use arrow_base::Text;
use arrow_core::{Bytes, DataType, Result, Schema};
use avro_schema::{AvroSchema, Block, Record};
use avro_write::{new_serializer, serialize};
use json_line::LineBuilders;
use line_encode::LinePlan;
use std::alloc::Global;

/// Turns the rows of batches into blocks of one file.
#[derive(Drop)]
pub(crate) struct BlockEncoder {
    // The Struct of the columns.
    pub(crate) row_type: DataType,
    // The record of the file.
    pub(crate) root: AvroSchema,
    // The columns' builders, where lines are read into them straight.
    pub(crate) lines: Option<LineBuilders>,
    // How lines are encoded without columns, where they are.
    pub(crate) plan: Option<LinePlan>,
    // The block at hand.
    pub(crate) block: Block,
}

/// Fills the block with the canonical encodings of the rows, as many as it states.
///
/// `InvalidArgumentError(NullUnderRequired)` where a null stands where the root requires a value;
/// `OutOfMemory`.
fn encode_rows(alloc: Global, rows: &Array, root: &AvroSchema, block: &mut Block) -> Result<()>
    requires root { IsRootOf root.now (array_type rows.now) }
    requires number { length (array_slots rows.now) ≡ block.old.number_of_rows }
    ensures ok { OnOk result (the_block block.new.number_of_rows block.new.bytes
        ≡ rows_block root.now (array_slots rows.now)) }
    ensures complete { OnOk result (lacks_value root.now (array_slots rows.now) ≡ false) }
    ensures paired { OnOk result (All (Pairs root.now) (array_slots rows.now)) }
    ensures err { IfErr result (RowsRefused root.now (array_slots rows.now)) }
{
    let serializer = new_serializer(alloc, rows, root)?;
    serialize(&mut [serializer], block)?;
    Ok(())
}

/// Fills the bytes with the canonical encodings of the rows that these texts are, without columns.
/// Whether it did: where there is no plan, or the texts are given up, the bytes are any.
fn encode_lines(alloc: Global, rows: &[Text], plan: &Option<LinePlan>, bytes: &mut Bytes) -> bool
    ensures { (row_type : RowType) (root : RootSchema) → IsPlanFor row_type root plan.now
        → OnTrue result (EncodesRows row_type root rows.now
        (the_block (length rows.now) bytes.new)) }
{
    match plan {
        Some(plan) => {
            bytes.clear();
            plan.encode_lines(alloc, rows, bytes.as_mut_vec()).is_ok()
        }
        None => false,
    }
}

impl BlockEncoder {
    /// An encoder of rows of these columns, and the record of their file, under this name.
    ///
    /// The errors are those of `make_target`.
    pub(crate) fn new(alloc: Global, schema: &Schema, name: &str) -> Result<(BlockEncoder, Record)>
        ensures ok { IfOk result
            (λ made. IsEncoderOf schema.now.fields name.now made.0 made.1) }
        ensures err { IfErr result (HasNoTarget schema.now.fields) }
    {
        let Schema { fields, .. } = schema.try_clone(alloc)?;
        let row_type = DataType::Struct(fields);
        let target = make_target(alloc, schema, &row_type, name)?;
        let root = target.try_clone(alloc)?;
        let Schema {
            fields: columns,
            ..
        } = schema.try_clone(alloc)?;
        let plan = LinePlan::new(alloc, columns.as_slice(), &target);
        let lines = LineBuilders::new(alloc, columns.into_vec())?;
        let encoder = BlockEncoder {
            row_type,
            root: AvroSchema::Record(root),
            lines,
            plan,
            block: Block {
                number_of_rows: 0,
                bytes: Bytes::new(alloc),
            },
        };
        Ok((encoder, target))
    }

    /// Fills the block with the rows that these texts are under the row type.
    ///
    /// In this order: the error of the first text that is no JSON text, or has more than 128 brackets
    /// open at once; `ExternalFormat(NotAnObject)` where one is no object,
    /// `NotYetImplemented(TextTimestamp)` where a string stands under a timestamp, `Overflow` where a
    /// value doesn't fit its type, or there are more items or bytes than can be counted, and
    /// `InvalidArgumentError(NullUnderRequired)` where a null stands where the root requires a
    /// value. `OutOfMemory` at any time.
    pub(crate) fn fill_block(&mut self, alloc: Global, rows: &[Text]) -> Result<()>
        requires root { IsRootOf self.old.root self.old.row_type }
        requires lines { AreBuildersOf self.old.row_type self.old.lines }
        requires plan { IsPlanFor self.old.row_type self.old.root self.old.plan }
        ensures ok { OnOk result (EncodesRows self.old.row_type self.old.root rows.now
            (the_block self.new.block.number_of_rows self.new.block.bytes)) }
        ensures err { IfErr result
            (TextsRefused self.old.row_type self.old.root rows.now) }
        ensures row_type { self.new.row_type ≡ self.old.row_type }
        ensures root { self.new.root ≡ self.old.root }
        ensures lines { self.new.lines ≡ self.old.lines }
        ensures plan { self.new.plan ≡ self.old.plan }
    {
        if encode_lines(alloc, rows, &self.plan, &mut self.block.bytes) {
            self.block.number_of_rows = rows.len();
            return Ok(());
        }
        let array = read_array(alloc, rows, &self.row_type, &mut self.lines)?;
        self.block.number_of_rows = rows.len();
        encode_rows(alloc, &array, &self.root, &mut self.block)?;
        Ok(())
    }
}
