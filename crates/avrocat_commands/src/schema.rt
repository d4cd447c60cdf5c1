//! The command `schema`: the schema of an Avro file.
ghost use Rattle.std.specs.Prelude.{OnOk, IfErr};
ghost use Rattle.avro_container.specs.Changes.{change_of};
ghost use Rattle.avrocat_commands.specs.Schema.{SchemaDone, SchemaFails};

use crate::input::BYTE_LIMIT;
use crate::note::write_both;
use arrow_base::{Result, Sink, Source};
use avro_inspect::schema_of;
use std::alloc::Global;

/// Reads the header of an Avro file, and writes the text of its schema and a line feed. No byte is
/// taken past the header.
///
/// The errors are those of `schema_of`, then `WriteFault`.
pub fn run_schema<S: Source, K: Sink>(alloc: Global, source: &mut S, sink: &mut K) -> Result<()>
    ensures done { OnOk result (SchemaDone
        (change_of (S.left source.old) (S.faults source.old) (S.left source.new)
        (S.faults source.new))
        (change_of (K.held sink.old) (K.faults sink.old) (K.held sink.new) (K.faults sink.new))) }
    ensures fails { IfErr result (SchemaFails
        (change_of (S.left source.old) (S.faults source.old) (S.left source.new)
        (S.faults source.new))
        (change_of (K.held sink.old) (K.faults sink.old) (K.held sink.new) (K.faults sink.new))) }
{
    let text = schema_of(alloc, source, BYTE_LIMIT as u64)?;
    write_both(sink, text.as_slice(), b"\n")
}
