//! Avro files into their canonical form.

ghost use Rattle.std.specs.Prelude.{◌≡◌, ◌≤◌, IfOk, IfErr};
ghost use Rattle.avro_container.specs.Changes.{change_of};
ghost use Rattle.avro_canonical.specs.Rewritten.{Rewrites, RewritingFails};

use crate::rewriter::BlockRewriter;
use arrow_base::{Result, Sink, Source};
use avro_container::{BlockReader, EncodesBlocks, write_blocks};
use avro_file::{FileMetadata, read_metadata, write_metadata};
use avro_schema::Block;
use std::alloc::Global;

impl EncodesBlocks for BlockRewriter {
    ghost use Rattle.avro_container.specs.Written.{WithAllRows};
    ghost use Rattle.avro_canonical.specs.Canonical.{BlockIsRefused, RewritesBlock};

    ghost ready = { λ _. Unit {0} };

    ghost shows = { λ rewriter. WithAllRows (RewritesBlock rewriter) };

    ghost wrong = { BlockIsRefused };

    fn append_block(&mut self, out: &mut Vec<u8>, block: &Block) -> Result<usize> {
        self.push_block(out, block)?;
        Ok(block.number_of_rows)
    }
}

/// Reads an Avro file (Avro 1.11, "Object Container Files") to the source's end, and writes the
/// canonical file of the same rows: under the record that `to_record` and `name_types` give the
/// columns of `infer_schema`, with this name and this sync marker, in the same cut into blocks, those
/// without rows left out, each slot in its one canonical encoding and each number in its shortest.
/// Answers how many rows were written. At most `byte_limit` bytes are taken, and one more where the
/// answer is `LimitExceeded`.
///
/// The errors, in this order: those of `read_metadata`; `NotYetImplemented(NoField)` where the record
/// has no field; `NotYetImplemented(NotCarried)` where a field isn't carried;
/// `NotYetImplemented(Float)` where one holds a float or a double; `NotYetImplemented(NoAvroType)`
/// where the type of a column has no Avro schema, as that of an enum. After these the sink got
/// nothing. Then `WriteFault`, and for each block those of `BlockReader::next`, those of
/// `deserialize` from `Overflow` on, and `WriteFault`. `OutOfMemory` at any time. After any error but
/// `WriteFault` the sink got nothing, or the header and the blocks of the whole blocks before; after
/// `WriteFault` it got a prefix of the header, or the header, these and a prefix of the block at hand.
pub fn avro_rewrite<S: Source, K: Sink>(
    alloc: Global,
    source: &mut S,
    sink: &mut K,
    name: &str,
    marker: [u8; 16],
    byte_limit: u64,
) -> Result<u64>
    ensures ok { IfOk result (Rewrites name.now marker byte_limit
        (change_of (S.left source.old) (S.faults source.old) (S.left source.new)
        (S.faults source.new))
        (change_of (K.held sink.old) (K.faults sink.old) (K.held sink.new) (K.faults sink.new))) }
    ensures err { IfErr result (RewritingFails name.now marker byte_limit
        (change_of (S.left source.old) (S.faults source.old) (S.left source.new)
        (S.faults source.new))
        (change_of (K.held sink.old) (K.faults sink.old) (K.held sink.new) (K.faults sink.new))) }
    ensures never_falls { S.faults source.old ≤ S.faults source.new }
    ensures never_falls_sink { K.faults sink.old ≤ K.faults sink.new }
    ensures same_sink { K.identity sink.new ≡ K.identity sink.old }
{
    let (metadata, taken) = read_metadata(alloc, source, byte_limit)?;
    let FileMetadata {
        root,
        marker: source_marker,
        ..
    } = metadata;
    let (mut rewriter, target) = BlockRewriter::new(alloc, root, name, marker)?;
    write_metadata(alloc, sink, &target, marker)?;
    let mut reader = BlockReader::new(alloc, &mut *source, source_marker, byte_limit - taken);
    write_blocks(alloc, &mut reader, &mut rewriter, sink)
}
