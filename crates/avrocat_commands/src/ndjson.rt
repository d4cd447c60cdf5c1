//! The command `ndjson`: the rows of an Avro file as JSON lines.
ghost use Rattle.std.specs.Prelude.{OnOk, IfErr};
ghost use Rattle.avro_container.specs.Changes.{change_of};
ghost use Rattle.avrocat_commands.specs.Ndjson.{NdjsonDone, NdjsonFails};

use crate::input::BYTE_LIMIT;
use arrow_base::{Items, Result, Sink, Source};
use avro_ndjson::avro_to_ndjson;
use std::alloc::Global;

/// Reads the source to its end as an Avro file, and writes a line for each row, with the fields of
/// these numbers, or with all where there are none. Lines are written block by block.
///
/// The errors are those of `avro_to_ndjson`.
pub fn run_ndjson<S: Source, K: Sink>(
    alloc: Global,
    numbers: Items<usize>,
    source: &mut S,
    sink: &mut K,
) -> Result<()>
    ensures done { OnOk result (NdjsonDone numbers
        (change_of (S.left source.old) (S.faults source.old) (S.left source.new)
        (S.faults source.new))
        (change_of (K.held sink.old) (K.faults sink.old) (K.held sink.new) (K.faults sink.new))) }
    ensures fails { IfErr result (NdjsonFails numbers
        (change_of (S.left source.old) (S.faults source.old) (S.left source.new)
        (S.faults source.new))
        (change_of (K.held sink.old) (K.faults sink.old) (K.held sink.new) (K.faults sink.new))) }
{
    let numbers = numbers.as_slice();
    let keep = if numbers.is_empty() {
        None
    } else {
        Some(numbers)
    };
    match avro_to_ndjson(alloc, source, sink, keep, BYTE_LIMIT as u64) {
        Ok(_) => Ok(()),
        Err(error) => Err(error),
    }
}
