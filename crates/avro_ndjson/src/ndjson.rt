//! Avro files into JSON lines.

ghost use Rattle.std.specs.Prelude.{◌≡◌, ◌≤◌, IfOk, IfErr};
ghost use Rattle.std.specs.Option.{option_copied};
ghost use Rattle.avro_container.specs.Changes.{change_of};
ghost use Rattle.avro_ndjson.specs.Refusals.{Converts, ConversionFails};

use crate::lines::BlockEncoder;
use arrow_base::{Result, Sink, Source};
use avro_container::{BlockReader, write_blocks};
use avro_file::{FileMetadata, read_metadata};
use std::alloc::Global;

/// Reads an Avro file (Avro 1.11, "Object Container Files") to the source's end, and writes each of
/// its rows as a line: a JSON object (RFC 8259) of the kept fields, in the schema's order and under
/// their names, and a line feed. `keep` has the numbers of the fields to keep, counted from 0; None
/// keeps all. Answers how many rows were written. At most `byte_limit` bytes are taken, and one more
/// where the answer is `LimitExceeded`.
///
/// A block's lines are written once the whole block was decoded and all its lines made. The errors,
/// in this order: those of `read_metadata`; `NotYetImplemented(NoField)` where the record has no
/// field; `NotYetImplemented(NotCarried)` where a field isn't carried, be it kept or not;
/// `InvalidArgumentError(KeepNumber)` where a number is no field's, or is named twice;
/// `InvalidArgumentError(NothingKept)` where `keep` has no number; `NotYetImplemented(Float)` where
/// a kept field holds a float or a double; `NotYetImplemented(NoJsonText)` where the type of a kept
/// field has no JSON text. Then for each block those of `BlockReader::next`; those of `deserialize`
/// from `Overflow` on; `InvalidArgumentError(DateRange)` where a kept date or timestamp isn't in a
/// year from 0 to 9999; and `WriteFault`. `OutOfMemory` at any time. After any error but
/// `WriteFault` the sink got the lines of the whole blocks before; after `WriteFault` it got besides
/// a prefix of those of the block at hand.
pub fn avro_to_ndjson<S: Source, K: Sink>(
    alloc: Global,
    source: &mut S,
    sink: &mut K,
    keep: Option<&[usize]>,
    byte_limit: u64,
) -> Result<u64>
    ensures ok { IfOk result (Converts (option_copied keep.entry) byte_limit
        (change_of (S.left source.old) (S.faults source.old) (S.left source.new)
        (S.faults source.new))
        (change_of (K.held sink.old) (K.faults sink.old) (K.held sink.new) (K.faults sink.new))) }
    ensures err { IfErr result (ConversionFails (option_copied keep.entry) byte_limit
        (change_of (S.left source.old) (S.faults source.old) (S.left source.new)
        (S.faults source.new))
        (change_of (K.held sink.old) (K.faults sink.old) (K.held sink.new) (K.faults sink.new))) }
    ensures never_falls { S.faults source.old ≤ S.faults source.new }
    ensures never_falls_sink { K.faults sink.old ≤ K.faults sink.new }
    ensures same_sink { K.identity sink.new ≡ K.identity sink.old }
{
    let (metadata, taken) = read_metadata(alloc, source, byte_limit)?;
    let FileMetadata { root, marker, .. } = metadata;
    let mut encoder = BlockEncoder::new(alloc, root, keep)?;
    let mut reader = BlockReader::new(alloc, &mut *source, marker, byte_limit - taken);
    write_blocks(alloc, &mut reader, &mut encoder, sink)
}
