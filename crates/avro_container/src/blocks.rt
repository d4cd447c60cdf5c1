//! Block after block of a file, each into the bytes that it becomes.

ghost use Rattle.std.specs.Prelude.{◌≡◌, ◌+◌, ◌<◌, ◌≤◌, ℕ, List, length, IfSome, IfOk, IfErr};
ghost use Rattle.arrow_core.specs.declared.error.Error.{Error};
ghost use Rattle.arrow_base.specs.Outside.{last_count};
ghost use Rattle.avro_container.specs.BlockReader.{source_of, marker_of, limit_of, IsOpen, state_of};
ghost use Rattle.avro_container.specs.File.{FileBlock, the_block};
ghost use Rattle.avro_container.specs.Blocks.{NextWritten};
ghost use Rattle.avro_container.specs.Changes.{change_of};
ghost use Rattle.avro_container.specs.Written.{AllWritten, AppendsRows, BlockFails, StopsAtBlock};

use crate::BlockReader;
use arrow_base::{Bytes, Result, Sink, Source, write_all};
use avro_schema::Block;
use std::alloc::Global;

/// What turns the blocks of one file into bytes.
pub trait EncodesBlocks {
    // Which blocks it takes.
    ghost ready: { Self → Type 0 };

    // Which bytes a block becomes, and how many rows these have.
    ghost shows: { Self → FileBlock → List ℕ → ℕ → Type 0 };

    // Why a block becomes none.
    ghost wrong: { Self → FileBlock → Error → Type 0 };

    /// Appends the bytes that a block becomes, and answers how many rows these have: no more than
    /// the block has bytes. After an error part of the bytes may have been appended.
    fn append_block(&mut self, out: &mut Vec<u8>, block: &Block) -> Result<usize>
        requires { ready self.old }
        ensures ok { IfOk result (AppendsRows (shows self.old)
            (the_block block.now.number_of_rows block.now.bytes) out.old.items out.new.items) }
        ensures few { IfOk result (λ rows. rows ≤ length block.now.bytes) }
        ensures err { IfErr result (wrong self.old
            (the_block block.now.number_of_rows block.now.bytes)) }
        ensures same { self.new ≡ self.old };
}

/// What one block is made of and into, kept from block to block.
#[derive(Drop)]
struct Buffers {
    block: Block,
    text: Vec<u8>,
}

/// Takes the next block and writes the bytes that it becomes, once all of them are made. Answers
/// how many rows these have, or None at the end.
fn write_next<S: Source, E: EncodesBlocks, K: Sink>(
    reader: &mut BlockReader<S>,
    encoder: &mut E,
    buffers: &mut Buffers,
    sink: &mut K,
) -> Result<Option<usize>>
    requires open { IsOpen reader.old }
    requires encoder { E.ready encoder.old }
    ensures ok { IfOk result (NextWritten (E.shows encoder.old) (marker_of reader.old)
        (state_of S.left S.faults reader.old) (state_of S.left S.faults reader.new)
        (K.held sink.old) (K.held sink.new)) }
    ensures err { IfErr result (BlockFails (E.shows encoder.old) (E.wrong encoder.old)
        (marker_of reader.old)
        (state_of S.left S.faults reader.old) (state_of S.left S.faults reader.new)
        (change_of (K.held sink.old) (K.faults sink.old) (K.held sink.new) (K.faults sink.new))) }
    ensures open { IfOk result (λ next. IfSome next (λ _. IsOpen reader.new)) }
    ensures fewer { IfOk result
        (λ next. IfSome next (λ _. limit_of reader.new < limit_of reader.old)) }
    ensures few { IfOk result
        (λ next. IfSome next (λ rows. rows + limit_of reader.new ≤ limit_of reader.old)) }
    ensures marker { marker_of reader.new ≡ marker_of reader.old }
    ensures encoder { encoder.new ≡ encoder.old }
    ensures never_falls { S.faults (source_of reader.old) ≤ S.faults (source_of reader.new) }
    ensures never_falls_sink { K.faults sink.old ≤ K.faults sink.new }
    ensures same { S.identity (source_of reader.new) ≡ S.identity (source_of reader.old) }
    ensures same_sink { K.identity sink.new ≡ K.identity sink.old }
{
    if !reader.next(&mut buffers.block)? {
        return Ok(None);
    }
    buffers.text.clear();
    let rows = encoder.append_block(&mut buffers.text, &buffers.block)?;
    write_all(sink, &buffers.text)?;
    Ok(Some(rows))
}

/// Takes blocks up to the source's end, writes the bytes that each becomes before the next one is
/// taken, and answers how many rows were written.
///
/// The errors, for each block in this order: those of `BlockReader::next`; those of
/// `EncodesBlocks::append_block`; `WriteFault`. After any error but `WriteFault` the sink got the
/// bytes of the whole blocks before; after `WriteFault` it got besides a prefix of those of the block
/// at hand.
pub fn write_blocks<S: Source, E: EncodesBlocks, K: Sink>(
    alloc: Global,
    reader: &mut BlockReader<S>,
    encoder: &mut E,
    sink: &mut K,
) -> Result<u64>
    requires open { IsOpen reader.old }
    requires encoder { E.ready encoder.old }
    requires bound { limit_of reader.old ≤ last_count }
    ensures ok { IfOk result (AllWritten (E.shows encoder.old) (marker_of reader.old)
        (state_of S.left S.faults reader.old) (state_of S.left S.faults reader.new)
        (K.held sink.old) (K.held sink.new)) }
    ensures err { IfErr result (StopsAtBlock (E.shows encoder.old) (E.wrong encoder.old)
        (marker_of reader.old)
        (state_of S.left S.faults reader.old) (state_of S.left S.faults reader.new)
        (change_of (K.held sink.old) (K.faults sink.old) (K.held sink.new) (K.faults sink.new))) }
    ensures never_falls { S.faults (source_of reader.old) ≤ S.faults (source_of reader.new) }
    ensures never_falls_sink { K.faults sink.old ≤ K.faults sink.new }
    ensures same { S.identity (source_of reader.new) ≡ S.identity (source_of reader.old) }
    ensures same_sink { K.identity sink.new ≡ K.identity sink.old }
{
    let mut buffers = Buffers {
        block: Block {
            number_of_rows: 0,
            bytes: Bytes::new(alloc),
        },
        text: Vec::new(alloc),
    };
    let mut count: u64 = 0;
    while let Some(rows) = write_next(reader, encoder, &mut buffers, sink)? {
        count += rows as u64;
    }
    Ok(count)
}
