//! Batch after batch of rows, as blocks into a sink.
ghost use Rattle.std.specs.Prelude.{◌≡◌, ◌<◌, ◌≤◌, IfOk, IfErr, OnOk};
ghost use Rattle.arrow_base.specs.Outside.{last_count};
ghost use Rattle.ndjson_read.specs.FileReader.{byte_limit_of, source_of, state_of};
ghost use Rattle.avro_container.specs.Changes.{change_of};
ghost use Rattle.ndjson_avro.specs.Batches.{BatchFails, StopsAtBatch};
ghost use Rattle.ndjson_avro.specs.Steps.{AllWritten, AreBuildersOf, IsPlanFor, IsRootOf, NextWritten};
ghost use Rattle.ndjson_avro.specs.BatchSteps.{IsOpen};

use crate::batch::{Batch, read_batch};
use crate::encoder::BlockEncoder;
use crate::sizes::{length_bound, tell_count};
use arrow_base::{Result, Sink, Source};
use avro_container::write_block;
use ndjson_read::FileReader;
use std::alloc::Global;

/// Takes the next rows, `wanted` of them, or fewer at the end of the source, and writes them as a
/// block; nothing where there is none. Answers how many there are.
fn write_next<S: Source, K: Sink>(
    alloc: Global,
    reader: &mut FileReader<S>,
    batch: &mut Batch,
    encoder: &mut BlockEncoder,
    sink: &mut K,
    wanted: usize,
    marker: [u8; 16],
) -> Result<usize>
    requires open { IsOpen reader.old }
    requires root { IsRootOf encoder.old.root encoder.old.row_type }
    requires lines { AreBuildersOf encoder.old.row_type encoder.old.lines }
    requires plan { IsPlanFor encoder.old.row_type encoder.old.root encoder.old.plan }
    ensures ok { IfOk result (NextWritten encoder.old.row_type encoder.old.root marker wanted
        (state_of S.left S.faults reader.old) (state_of S.left S.faults reader.new)
        (K.held sink.old) (K.held sink.new)) }
    ensures err { IfErr result (BatchFails encoder.old.row_type encoder.old.root marker wanted
        (state_of S.left S.faults reader.old) (state_of S.left S.faults reader.new)
        (change_of (K.held sink.old) (K.faults sink.old) (K.held sink.new) (K.faults sink.new))) }
    ensures open { OnOk result (IsOpen reader.new) }
    ensures row_type { encoder.new.row_type ≡ encoder.old.row_type }
    ensures root { encoder.new.root ≡ encoder.old.root }
    ensures lines { encoder.new.lines ≡ encoder.old.lines }
    ensures plan { encoder.new.plan ≡ encoder.old.plan }
    ensures never_falls_sink { K.faults sink.old ≤ K.faults sink.new }
    ensures same { S.identity (source_of reader.new) ≡ S.identity (source_of reader.old) }
    ensures same_sink { K.identity sink.new ≡ K.identity sink.old }
{
    read_batch(alloc, reader, batch, wanted)?;
    let texts = batch.rows.as_slice();
    let count = texts.len();
    if count == 0 {
        return Ok(0);
    }
    encoder.fill_block(alloc, texts)?;
    tell_count(texts);
    length_bound(encoder.block.bytes.as_slice());
    write_block(sink, &encoder.block, marker)?;
    Ok(count)
}

/// Writes the rows of all batches, and answers how many they are.
pub(crate) fn write_batches<S: Source, K: Sink>(
    alloc: Global,
    reader: &mut FileReader<S>,
    encoder: &mut BlockEncoder,
    sink: &mut K,
    wanted: usize,
    marker: [u8; 16],
) -> Result<u64>
    requires open { IsOpen reader.old }
    requires root { IsRootOf encoder.old.root encoder.old.row_type }
    requires lines { AreBuildersOf encoder.old.row_type encoder.old.lines }
    requires plan { IsPlanFor encoder.old.row_type encoder.old.root encoder.old.plan }
    requires wanted { 0 < wanted }
    requires bound { byte_limit_of reader.old ≤ last_count }
    ensures ok { IfOk result (AllWritten encoder.old.row_type encoder.old.root marker wanted
        (state_of S.left S.faults reader.old) (state_of S.left S.faults reader.new)
        (K.held sink.old) (K.held sink.new)) }
    ensures err { IfErr result (StopsAtBatch encoder.old.row_type encoder.old.root marker wanted
        (state_of S.left S.faults reader.old) (state_of S.left S.faults reader.new)
        (change_of (K.held sink.old) (K.faults sink.old) (K.held sink.new) (K.faults sink.new))) }
    ensures never_falls_sink { K.faults sink.old ≤ K.faults sink.new }
    ensures same { S.identity (source_of reader.new) ≡ S.identity (source_of reader.old) }
    ensures same_sink { K.identity sink.new ≡ K.identity sink.old }
{
    let mut batch = Batch::new(alloc);
    let mut count: u64 = 0;
    'batches: loop {
        let rows = write_next(alloc, reader, &mut batch, encoder, sink, wanted, marker)?;
        count += rows as u64;
        if rows < wanted {
            return Ok(count);
        }
    }
}
