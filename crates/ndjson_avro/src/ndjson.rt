//! JSON lines into Avro files.
ghost use Rattle.std.specs.Prelude.{◌≡◌, ◌<◌, ◌≤◌, ℕ, List, IfOk, IfErr};
ghost use Rattle.arrow_core.specs.declared.types.Field.{Field};
ghost use Rattle.avro_container.specs.Changes.{change_of};
ghost use Rattle.ndjson_avro.specs.Conversion.{Converts, ConversionFails};
ghost use Rattle.ndjson_avro.specs.Steps.{AreBuildersOf, IsEncoderOf, IsPlanFor, IsRootOf};

use crate::batches::write_batches;
use crate::encoder::BlockEncoder;
use arrow_base::{Result, Sink, Source, Text};
use arrow_core::Schema;
use avro_file::write_metadata;
use avro_schema::Record;
use ndjson_read::FileReader;
use std::alloc::Global;

/// Reads JSON lines to the source's end, and writes them as an Avro file (Avro 1.11, "Object
/// Container Files"): each line that `str::trim` leaves something of is a JSON object (RFC 8259)
/// and becomes a row, whose columns are the members by the names of the schema's fields. A missing
/// member is a null, and a member that no field names is passed over. The file's record is the one
/// that `to_record` and `name_types` give, under the name `name`, and its sync marker is `marker`;
/// each block has `rows_per_block` rows, the last one as many as are left, and without rows there is
/// no block. All is in its one canonical encoding. Answers how many rows were written. At most
/// `byte_limit` bytes are taken, and one more where the answer is `LimitExceeded`. `rows_per_block`
/// is at least 1.
///
/// The errors, in this order. Before anything is read or written:
/// `InvalidArgumentError(DuplicateName)` where two fields, or two of a struct at any depth, have the
/// same name; `NotYetImplemented(NoField)` where there is no field; `NotYetImplemented(NoAvroType)`
/// where a type at any depth is Null or has no Avro schema; `NotYetImplemented(NoJsonReading)` where
/// JSON values aren't read under a type. Then `WriteFault` of the header. Then for each batch of
/// rows, each error over the whole batch before the next: those of `FileReader::advance`;
/// `ExternalFormat(Json)` or `LimitExceeded`, of the first row that is no JSON text, or has more
/// than 128 brackets open at once; `ExternalFormat(NotAnObject)`;
/// `NotYetImplemented(TextTimestamp)` where a string stands under a timestamp; `Overflow` where a
/// number doesn't fit its type, or there are more items or bytes than can be counted;
/// `InvalidArgumentError(NullUnderRequired)` where a null stands under a field that isn't nullable;
/// and `WriteFault`. `OutOfMemory` at any time. After any error but `WriteFault` the sink got
/// nothing, or the header and the blocks of the whole batches before; after `WriteFault` a prefix of
/// these and of the block at hand.
pub fn ndjson_to_avro<S: Source, K: Sink>(
    alloc: Global,
    source: &mut S,
    sink: &mut K,
    schema: &Schema,
    name: &str,
    marker: [u8; 16],
    rows_per_block: usize,
    byte_limit: u64,
) -> Result<u64>
    requires { 0 < rows_per_block }
    ensures ok { IfOk result (Converts schema.now.fields name.now marker rows_per_block byte_limit
        (change_of (S.left source.old) (S.faults source.old) (S.left source.new)
        (S.faults source.new))
        (change_of (K.held sink.old) (K.faults sink.old) (K.held sink.new) (K.faults sink.new))) }
    ensures err { IfErr result (ConversionFails schema.now.fields name.now marker rows_per_block
        byte_limit
        (change_of (S.left source.old) (S.faults source.old) (S.left source.new)
        (S.faults source.new))
        (change_of (K.held sink.old) (K.faults sink.old) (K.held sink.new) (K.faults sink.new))) }
    ensures never_falls_sink { K.faults sink.old ≤ K.faults sink.new }
    ensures same_sink { K.identity sink.new ≡ K.identity sink.old }
{
    let (mut encoder, target) = BlockEncoder::new(alloc, schema, name)?;
    write_file(
        alloc,
        source,
        sink,
        &target,
        &mut encoder,
        marker,
        rows_per_block,
        byte_limit,
    )
}

/// The same, by the record of the file and an encoder of its rows.
fn write_file<S: Source, K: Sink>(
    alloc: Global,
    source: &mut S,
    sink: &mut K,
    target: &Record,
    encoder: &mut BlockEncoder,
    marker: [u8; 16],
    rows_per_block: usize,
    byte_limit: u64,
) -> Result<u64>
    requires some { 0 < rows_per_block }
    requires root { IsRootOf encoder.old.root encoder.old.row_type }
    requires lines { AreBuildersOf encoder.old.row_type encoder.old.lines }
    requires plan { IsPlanFor encoder.old.row_type encoder.old.root encoder.old.plan }
    ensures ok { (fields : List Field) (name : List ℕ)
        → IsEncoderOf fields name encoder.old target.now
        → IfOk result (Converts fields name marker rows_per_block byte_limit
        (change_of (S.left source.old) (S.faults source.old) (S.left source.new)
        (S.faults source.new))
        (change_of (K.held sink.old) (K.faults sink.old) (K.held sink.new) (K.faults sink.new))) }
    ensures err { (fields : List Field) (name : List ℕ)
        → IsEncoderOf fields name encoder.old target.now
        → IfErr result (ConversionFails fields name marker rows_per_block byte_limit
        (change_of (S.left source.old) (S.faults source.old) (S.left source.new)
        (S.faults source.new))
        (change_of (K.held sink.old) (K.faults sink.old) (K.held sink.new) (K.faults sink.new))) }
    ensures never_falls_sink { K.faults sink.old ≤ K.faults sink.new }
    ensures same_sink { K.identity sink.new ≡ K.identity sink.old }
{
    let mut texts = Vec::new(alloc);
    texts.push(Text::from_string(String::new(alloc)))?;
    write_metadata(alloc, sink, target, marker)?;
    let mut reader = FileReader::new(alloc, &mut *source, texts, None, byte_limit);
    let answer = write_batches(alloc, &mut reader, encoder, sink, rows_per_block, marker);
    let (source, _texts) = reader.into_inner();
    // No effect at run time. The proof reads what the source holds from this use of it.
    let _ = &*source;
    answer
}
