//! How many rows and blocks an Avro file has.

ghost use Rattle.std.specs.Prelude.{◌≡◌, ◌≤◌, IfOk, IfErr};
ghost use Rattle.arrow_base.specs.Outside.{last_count};
ghost use Rattle.avro_container.specs.BlockReader.{source_of, marker_of, limit_of, IsOpen, state_of};
ghost use Rattle.avro_container.specs.Changes.{change_of};
ghost use Rattle.avro_inspect.specs.Counts.{CountsFile, CountingFails};
ghost use Rattle.avro_inspect.specs.Taken.{CountsBlocks, StopsCounting};

use arrow_base::{Bytes, Result, Source};
use avro_container::BlockReader;
use avro_file::read_metadata;
use avro_schema::Block;
use std::alloc::Global;

/// How many rows and blocks a file has.
#[derive(Clone, Copy, Debug)]
pub struct FileCounts {
    /// How many rows its blocks state, in all. A block's number of rows isn't compared with its
    /// bytes, so this may be more than 64 bits hold.
    pub rows: u128,
    /// How many blocks it has, those without rows too.
    pub blocks: u64,
}

/// Takes blocks up to the source's end, and counts them and their rows.
fn count_blocks<S: Source>(alloc: Global, reader: &mut BlockReader<S>) -> Result<FileCounts>
    requires open { IsOpen reader.old }
    requires bound { limit_of reader.old ≤ last_count }
    ensures ok { IfOk result (CountsBlocks (marker_of reader.old)
        (state_of S.left S.faults reader.old) (state_of S.left S.faults reader.new)) }
    ensures err { IfErr result (StopsCounting (marker_of reader.old)
        (state_of S.left S.faults reader.old) (state_of S.left S.faults reader.new)) }
    ensures never_falls { S.faults (source_of reader.old) ≤ S.faults (source_of reader.new) }
    ensures same { S.identity (source_of reader.new) ≡ S.identity (source_of reader.old) }
{
    let mut block = Block {
        number_of_rows: 0,
        bytes: Bytes::new(alloc),
    };
    let mut rows: u128 = 0;
    let mut blocks: u64 = 0;
    while reader.next(&mut block)? {
        rows += block.number_of_rows as u128;
        blocks += 1;
    }
    Ok(FileCounts { rows, blocks })
}

/// Reads an Avro file (Avro 1.11, "Object Container Files") to the source's end, and answers how
/// many rows and blocks it has. No row is looked at: the rows are those that the blocks state, and
/// fields of any type are counted. At most `byte_limit` bytes are taken, and one more where the
/// answer is `LimitExceeded`.
///
/// The errors, in this order: those of `read_metadata`, and for each block those of
/// `BlockReader::next`.
pub fn count_rows<S: Source>(alloc: Global, source: &mut S, byte_limit: u64) -> Result<FileCounts>
    ensures ok { IfOk result (CountsFile byte_limit
        (change_of (S.left source.old) (S.faults source.old) (S.left source.new)
        (S.faults source.new))) }
    ensures err { IfErr result (CountingFails byte_limit
        (change_of (S.left source.old) (S.faults source.old) (S.left source.new)
        (S.faults source.new))) }
    ensures never_falls { S.faults source.old ≤ S.faults source.new }
{
    let (metadata, taken) = read_metadata(alloc, source, byte_limit)?;
    let marker = metadata.marker;
    let mut reader = BlockReader::new(alloc, &mut *source, marker, byte_limit - taken);
    count_blocks(alloc, &mut reader)
}
