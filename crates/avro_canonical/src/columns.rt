//! Rows of columns in their canonical encoding.
ghost use Rattle.std.specs.Prelude.{◌≡◌, length, map, All, IfOk, OnOk};
ghost use Rattle.arrow_core.specs.Errors.{OnlyOutOfMemory};
ghost use Rattle.arrow_array.specs.Arrays.{array_slots};
ghost use Rattle.avro_write.specs.Rows.{rows};
ghost use Rattle.avro_canonical.specs.Columns.{AreAccepted, HaveEncodings, encodings};

use arrow_array::Array;
use arrow_core::Result;
use avro_schema::{AvroField, Block};
use avro_write::{BoxSerializer, new_serializer, serialize};
use std::alloc::Global;

/// A serializer for each column, under the field beside it.
fn make_serializers<'a>(
    alloc: Global,
    columns: &'a [Array],
    fields: &[AvroField],
) -> Result<Vec<BoxSerializer<'a>>>
    requires { AreAccepted fields.now columns.now }
    ensures items { IfOk result
        (λ serializers. map (λ s. s.left) serializers.items
        ≡ encodings fields.now (map array_slots columns.now)) }
    ensures encoded { OnOk result (HaveEncodings fields.now columns.now) }
    ensures memory { OnlyOutOfMemory result }
{
    let mut serializers = Vec::new(alloc);
    for k in 0..columns.len() {
        serializers.push(new_serializer(alloc, &columns[k], &fields[k].schema)?)?;
    }
    Ok(serializers)
}

/// Fills the block with as many rows as it states, the canonical encodings of the columns' slots.
pub(crate) fn fill_block(
    alloc: Global,
    columns: &[Array],
    fields: &[AvroField],
    block: &mut Block,
) -> Result<()>
    requires accepted { AreAccepted fields.now columns.now }
    requires lengths { All (λ a. length (array_slots a) ≡ block.old.number_of_rows) columns.now }
    ensures bytes { OnOk result (block.new.bytes
        ≡ rows block.old.number_of_rows (encodings fields.now (map array_slots columns.now))) }
    ensures encoded { OnOk result (HaveEncodings fields.now columns.now) }
    ensures number { block.new.number_of_rows ≡ block.old.number_of_rows }
    ensures memory { OnlyOutOfMemory result }
{
    let mut serializers = make_serializers(alloc, columns, fields)?;
    serialize(serializers.as_mut_slice(), block)
}
