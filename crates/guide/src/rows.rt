//! Rows as JSON.

ghost use Rattle.std.specs.Prelude.{OnOk};
ghost use Rattle.std.specs.Io.KnownBytes.{Appends};
ghost use Rattle.json_text.specs.JsonText.{array};
ghost use Rattle.json_write.specs.Rows.{names_of, objects};

use arrow_array::Chunk;
use arrow_base::{Result, Sink};
use arrow_core::Schema;
use json_write::{RecordSerializer, write};
use std::alloc::Global;

/// Writes the rows of a chunk as one JSON array of objects, whose names are those of the fields.
///
/// The errors are those of `RecordSerializer::new` and of `write`; no clause says so.
pub fn write_rows<K: Sink>(alloc: Global, sink: &mut K, schema: Schema, chunk: &Chunk) -> Result<()>
    ensures written { OnOk result (Appends (K.held sink.old) (K.held sink.new)
        (array (objects (names_of schema.fields) chunk.now))) }
{
    let rows = RecordSerializer::new(alloc, schema, chunk, Vec::new(alloc))?;
    write(sink, rows)
}
