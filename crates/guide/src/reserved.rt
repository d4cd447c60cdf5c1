//! Block after block into the same builders, whose capacity is reserved once.

ghost use Rattle.std.specs.Prelude.{◌≡◌, ◌≢◌, ◌≤◌, ℕ, length, map, sum_by, All, OnOk, IfOk, IfErr};
ghost use Rattle.arrow_core.specs.declared.error.Error.TheVariants.{OutOfMemory};
ghost use Rattle.arrow_builders.specs.Fits.{TypesFit};
ghost use Rattle.arrow_builders.specs.MutableArrays.{builder_type};
ghost use Rattle.arrow_builders.specs.Nodes.{IsEmpty, KeepsCapacity, HasSpare, Emptied};
ghost use Rattle.arrow_builders.specs.Shapes.{shape};
ghost use Rattle.arrow_builders.specs.Tight.{IsTight};
ghost use Rattle.avro_decode.specs.Capacity.{AtNodes, BetweenNodes};
ghost use Rattle.avro_schema.specs.Columns.{kept_types};
ghost use Rattle.avro_decode.specs.Masks.{BytesBoundContent};
ghost use Rattle.avro_decode.specs.Suits.{AllSuit};
ghost use Rattle.avro_schema.specs.Carried.{CarriedList};
ghost use Rattle.avro_schema.specs.Types.{Fits};
ghost use Rattle.avro_schema.specs.ValidBlock.{kept};

use arrow_builders::MutableArray;
use arrow_core::{Error, Field, Result};
use avro_read::{deserialize_into, reserved_capacity_stays};
use avro_schema::{AvroField, Block, SliceCursor};

/// Reserves capacity for blocks of so many bytes, in empty builders as `make_builders` gives them.
///
/// `OutOfMemory` alone.
pub fn reserve(builders: &mut [MutableArray], bytes: usize) -> Result<()>
    requires empty { AtNodes IsEmpty builders.old }
    requires tight { All IsTight builders.old }
    ensures capacity { OnOk result (AtNodes (HasSpare bytes) builders.new) }
    ensures empty { AtNodes IsEmpty builders.new }
    ensures tight { All IsTight builders.new }
    ensures data_types { map builder_type builders.new ≡ map builder_type builders.old }
    ensures shapes { map shape builders.new ≡ map shape builders.old }
{
    for i in 0..builders.len() {
        builders[i].reserve_for(bytes)?;
    }
    Ok(())
}

/// Decodes one block after another into the builders, and answers how many rows they have. With
/// capacity for the longest block there is no `OutOfMemory`.
///
/// The errors are those of `deserialize_into`, and `Overflow` where the rows can't be counted; no
/// clause says so.
pub fn count_rows(
    blocks: &[Block],
    fields: &[Field],
    avro_fields: &[AvroField],
    projection: &[bool],
    builders: &mut [MutableArray],
) -> Result<u64>
    requires lengths { length avro_fields.now ≡ length projection.now }
    requires carried { CarriedList avro_fields.now }
    requires fits { Fits fields.now avro_fields.now }
    requires data_types { map builder_type builders.old ≡ kept_types fields.now projection.now }
    requires suits { AllSuit (kept avro_fields.now projection.now) builders.old }
    requires types_fit { All (λ b. TypesFit (shape b)) builders.old }
    requires tight { All IsTight builders.old }
    requires empty { AtNodes IsEmpty builders.old }
    ensures rows { IfOk result (λ rows. rows ≡ sum_by (λ b. b.number_of_rows) blocks.now) }
    ensures memory { (bytes : ℕ) → AtNodes (HasSpare bytes) builders.old
        → All (λ b. length b.bytes ≤ bytes) blocks.now
        → BytesBoundContent (kept avro_fields.now projection.now)
        → IfErr result (λ e. e ≢ OutOfMemory) }
{
    let mut rows: u64 = 0;
    for i in 0..blocks.len() {
        let block = &blocks[i];
        decode(block, fields, avro_fields, projection, builders)?;
        // Here the builders hold the block's columns.
        let count = block.number_of_rows as u64;
        rows = rows.checked_add(count).ok_or(Error::Overflow)?;
        clear(builders);
        reserved_capacity_stays();
    }
    Ok(rows)
}

/// Decodes a block into empty builders.
fn decode(
    block: &Block,
    fields: &[Field],
    avro_fields: &[AvroField],
    projection: &[bool],
    builders: &mut [MutableArray],
) -> Result<()>
    requires lengths { length avro_fields.now ≡ length projection.now }
    requires carried { CarriedList avro_fields.now }
    requires fits { Fits fields.now avro_fields.now }
    requires data_types { map builder_type builders.old ≡ kept_types fields.now projection.now }
    requires suits { AllSuit (kept avro_fields.now projection.now) builders.old }
    requires types_fit { All (λ b. TypesFit (shape b)) builders.old }
    requires tight { All IsTight builders.old }
    requires empty { AtNodes IsEmpty builders.old }
    ensures data_types { map builder_type builders.new ≡ map builder_type builders.old }
    ensures shapes { map shape builders.new ≡ map shape builders.old }
    ensures capacity { BetweenNodes KeepsCapacity builders.old builders.new }
    ensures memory { (bytes : ℕ) → AtNodes (HasSpare bytes) builders.old
        → length block.now.bytes ≤ bytes
        → BytesBoundContent (kept avro_fields.now projection.now)
        → IfErr result (λ e. e ≢ OutOfMemory) }
{
    let mut cursor = SliceCursor::new(block.bytes.as_slice());
    let rows = block.number_of_rows;
    deserialize_into(&mut cursor, rows, fields, avro_fields, projection, builders)
}

/// Empties the builders, which keep their capacity.
fn clear(builders: &mut [MutableArray])
    ensures data_types { map builder_type builders.new ≡ map builder_type builders.old }
    ensures shapes { map shape builders.new ≡ map shape builders.old }
    ensures tight { All IsTight builders.new }
    ensures capacity { BetweenNodes Emptied builders.old builders.new }
{
    for i in 0..builders.len() {
        builders[i].clear();
    }
}
