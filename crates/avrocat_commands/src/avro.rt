//! The command `avro`: JSON lines into an Avro file.
ghost use Rattle.std.specs.Prelude.{◌<◌, OnOk, IfErr};
ghost use Rattle.avro_container.specs.Changes.{change_of};
ghost use Rattle.avrocat_commands.specs.Avro.{AvroDone, AvroFails};

use crate::input::BYTE_LIMIT;
use arrow_base::{Result, Sink, Source};
use avro_schema::Record;
use avro_types::infer_schema;
use cli_words::AvroWords;
use ndjson_avro::ndjson_to_avro;
use std::alloc::Global;

/// Reads JSON lines to the source's end, and writes them as an Avro file of the fields' columns, so
/// many rows to a block, under the name and the marker.
///
/// The errors: before anything is read `NotYetImplemented(MapOrUnion)` where the fields have no
/// columns; then those of `ndjson_to_avro`.
pub fn run_avro<S: Source, K: Sink>(
    alloc: Global,
    words: AvroWords,
    source: &mut S,
    sink: &mut K,
) -> Result<()>
    requires { 0 < words.rows_per_block }
    ensures done { OnOk result (AvroDone words
        (change_of (S.left source.old) (S.faults source.old) (S.left source.new)
        (S.faults source.new))
        (change_of (K.held sink.old) (K.faults sink.old) (K.held sink.new) (K.faults sink.new))) }
    ensures fails { IfErr result (AvroFails words
        (change_of (S.left source.old) (S.faults source.old) (S.left source.new)
        (S.faults source.new))
        (change_of (K.held sink.old) (K.faults sink.old) (K.held sink.new) (K.faults sink.new))) }
{
    let AvroWords {
        name,
        rows_per_block,
        marker,
        avro_fields,
    } = words;
    let record = Record {
        name,
        namespace: None,
        doc: None,
        fields: avro_fields,
    };
    let schema = infer_schema(alloc, &record)?;
    match ndjson_to_avro(
        alloc,
        source,
        sink,
        &schema,
        record.name.as_str(),
        marker,
        rows_per_block,
        BYTE_LIMIT as u64,
    ) {
        Ok(_) => Ok(()),
        Err(error) => Err(error),
    }
}
