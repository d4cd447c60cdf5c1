//! Rows that are drawn, encoded and read back.
ghost use Rattle.std.specs.Prelude.{◌≡◌, IfOk};
ghost use Rattle.arrow_core.specs.Errors.{OnlyOutOfMemory};
ghost use Rattle.avro_schema.specs.declared.schema.Record.{out-Record};
ghost use Rattle.sample_rows.specs.Fields as spec;
ghost use Rattle.sample_rows.specs.Made as made;

use crate::encode::encode_rows;
use crate::fields::row_fields;
use crate::lines::write_lines;
use crate::memory::in_memory;
use crate::read::{read_all, read_kept};
use crate::totals::sum_of;
use arrow_core::{Result, Text};
use avro_schema::Record;
use avro_types::infer_schema;
use std::alloc::Global;

/// The record of the rows.
fn row_record(alloc: Global) -> Result<Record>
    ensures fields { IfOk result (λ root. (out-Record root).fields ≡ spec.row_fields) }
    ensures memory { OnlyOutOfMemory result }
{
    Ok(Record {
        name: Text::try_from_str(alloc, "row")?,
        namespace: None,
        doc: None,
        fields: row_fields(alloc)?,
    })
}

/// Draws so many rows from this state on, encodes them as one block, reads this back with all
/// fields and again with the ids and booleans alone, and tells in lines how many rows and bytes
/// there are, the sum of the bytes, and what the columns add up to.
///
/// `OutOfMemory` alone, also where offsets of 32 bits can't count what a column holds.
pub fn make_lines(alloc: Global, start: u32, rows: usize) -> Result<Vec<u8>>
    ensures lines { IfOk result (λ text. text.items ≡ made.made_lines start rows) }
    ensures memory { OnlyOutOfMemory result }
{
    let root = row_record(alloc)?;
    let types = in_memory(infer_schema(alloc, &root))?;
    let types = types.fields.as_slice();
    let fields = root.fields.as_slice();
    let block = encode_rows(alloc, start, rows, fields)?;
    let totals = read_all(alloc, &block, types, fields)?;
    let kept = read_kept(alloc, &block, types, fields)?;
    let bytes = block.bytes.as_slice();
    write_lines(alloc, rows, bytes.len(), sum_of(bytes)?, totals, kept)
}
