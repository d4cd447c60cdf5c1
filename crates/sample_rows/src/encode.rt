//! The rows as a block of Avro bytes.
ghost use Rattle.std.specs.Prelude.{◌≡◌, IfOk, OnOk, map, All};
ghost use Rattle.arrow_core.specs.Errors.{OnlyOutOfMemory};
ghost use Rattle.arrow_array.specs.Arrays.{array_slots};
ghost use Rattle.avro_encode.specs.Pairs.{Pairs};
ghost use Rattle.avro_encode.specs.Plain.{plain};
ghost use Rattle.avro_schema.specs.Rows.{Rows};
ghost use Rattle.avro_write.specs.Laws.{all_kept, plain_table};
ghost use Rattle.sample_rows.specs.Drawing.{drawn_table};
ghost use Rattle.sample_rows.specs.Fields.{row_fields};

use crate::draw_columns;
use crate::memory::in_memory;
use arrow_array::Array;
use arrow_core::{Bytes, Result};
use avro_schema::{AvroField, AvroSchema, Block};
use avro_write::{BoxSerializer, new_serializer, serialize};
use std::alloc::Global;

/// The canonical encodings of a column's slots.
fn serializer_of<'a>(
    alloc: Global,
    column: &'a Array,
    schema: &AvroSchema,
) -> Result<BoxSerializer<'a>>
    ensures items { IfOk result
        (λ s. s.left ≡ map (plain schema.now) (array_slots column.now)) }
    ensures pairs { OnOk result (All (Pairs schema.now) (array_slots column.now)) }
    ensures memory { OnlyOutOfMemory result }
{
    in_memory(new_serializer(alloc, column, schema))
}

/// The block of so many rows that are drawn from this state on, under the fields of the rows.
pub(crate) fn encode_rows(
    alloc: Global,
    start: u32,
    rows: usize,
    fields: &[AvroField],
) -> Result<Block>
    requires fields { fields.now ≡ row_fields }
    ensures number { IfOk result (λ block. block.number_of_rows ≡ rows) }
    ensures bytes { IfOk result
        (λ block. block.bytes ≡ plain_table row_fields (drawn_table start rows)) }
    ensures rows { IfOk result (λ block.
        Rows rows row_fields (all_kept row_fields) block.bytes (drawn_table start rows)) }
    ensures memory { OnlyOutOfMemory result }
{
    let columns = draw_columns(alloc, start, rows)?;
    let ids = serializer_of(alloc, &columns.ids, &fields[0].schema)?;
    let users = serializer_of(alloc, &columns.users, &fields[1].schema)?;
    let tags = serializer_of(alloc, &columns.tags, &fields[2].schema)?;
    let oks = serializer_of(alloc, &columns.oks, &fields[3].schema)?;
    let mut block = Block {
        number_of_rows: rows,
        bytes: Bytes::new(alloc),
    };
    serialize(&mut [ids, users, tags, oks], &mut block)?;
    Ok(block)
}
