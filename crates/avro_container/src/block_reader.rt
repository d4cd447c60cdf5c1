//! The blocks of a file, one after another.
ghost use Rattle.std.specs.Prelude.{◌≡◌, ◌≢◌, ◌<◌, ◌≤◌, ◌-◌, take, drop, length, max, vec_len, ◌+◌, IfOk, OnOk, IfErr, IfSome, Some, None, Ok, Err, IsTrue, MatchResult, true, false, not};
ghost use Rattle.std.specs.Bool.{OnTrue, OnFalse};
ghost use Rattle.avro_container.specs.File.{the_block};
ghost use Rattle.avro_container.specs.FileForms.{marked_block};
ghost use Rattle.avro_container.specs.Taking.{state_of, Passed, Stopped};

use crate::parts::{Allowance, Stop, count, fill_buffer};
use arrow_base::{Error, Reason, Result, Source};
use avro_schema::Block;
use std::alloc::Global;

// How many bytes a sync marker has.
const MARKER: usize = 16;

// Takes a block: its count of rows, and its bytes with the sixteen after them.
fn take_block<S: Source>(
    source: &mut S,
    allowed: &mut Allowance,
    bytes: &mut Vec<u8>,
) -> std::result::Result<usize, Stop>
    requires { allowed.old.size_left ≡ None }
    ensures ok { IfOk result (λ rows. Passed marked_block
        (state_of S.left S.faults source.old allowed.old)
        (state_of S.left S.faults source.new allowed.new) (
          the_block rows (take (length bytes.new.items - 16) bytes.new.items),
          drop (length bytes.new.items - 16) bytes.new.items,
        )) }
    ensures long { OnOk result (16 ≤ length bytes.new.items) }
    ensures fewer { OnOk result (allowed.new.limit < allowed.old.limit) }
    ensures stops { IfErr result (Stopped marked_block
        (state_of S.left S.faults source.old allowed.old)
        (state_of S.left S.faults source.new allowed.new)) }
    ensures grown { vec_len bytes.new
        ≤ max (vec_len bytes.old) (allowed.old.limit - allowed.new.limit + 65536) }
    ensures same { S.identity source.new ≡ S.identity source.old }
{
    let rows = count(source, allowed)?;
    let size = count(source, allowed)?;
    fill_buffer(source, allowed, bytes, size + MARKER)?;
    Ok(rows)
}

// Whether the bytes are the marker's.
fn is_marker(bytes: &[u8], marker: &[u8; MARKER]) -> bool
    ensures yes { OnTrue result (bytes.now ≡ marker.now) }
    ensures no { OnFalse result (bytes.now ≢ marker.now) }
{
    bytes == marker.as_slice()
}

/// The blocks of an Avro file (Avro 1.11, "Object Container Files"), one after another, from a
/// source that stands after the file's header.
#[derive(Drop)]
pub struct BlockReader<S> {
    source: S,
    marker: [u8; 16],
    limit: u64,
    ended: bool,
    failed: Option<Error>,
}

impl<S: Source> BlockReader<S> {
    ghost use Rattle.avro_container.specs.BlockReader.{source_of, marker_of, limit_of, has_ended, failure_of, IsOpen, state_of as reader_state, NoBlock, Next};

    /// A reader of blocks that are followed by `marker`. It takes at most `byte_limit` bytes of
    /// the source, over all calls together, and one more where it answers `LimitExceeded`. Numbers
    /// are read byte by byte: hand in a source that buffers, if a read is dear. It takes no memory.
    pub fn new(_alloc: Global, reader: S, marker: [u8; 16], byte_limit: u64) -> BlockReader<S>
        ensures source { source_of result ≡ reader }
        ensures marker { marker_of result ≡ marker }
        ensures limit { limit_of result ≡ byte_limit }
        ensures open { IsOpen result }
    {
        BlockReader {
            source: reader,
            marker,
            limit: byte_limit,
            ended: false,
            failed: None,
        }
    }

    /// True with the next block, without its marker; false where the source ended before a
    /// block's first byte, and from then on.
    ///
    /// `ReadFault` where a read failed; `LimitExceeded` where one byte more than `byte_limit` was
    /// taken; `ExternalFormat(Container)` where the bytes aren't a block, or the source ends within
    /// one; `ExternalFormat(Marker)` where a block is followed by sixteen other bytes than the
    /// marker; `OutOfMemory`. An error is answered before any byte is taken past the part that shows
    /// it, and no byte is taken past the block. After an error it is answered again by each call.
    /// A block's bytes are read into the memory that `block` has, which it keeps whatever is answered;
    /// after false or an error nothing is promised of what bytes it holds. The buffer is filled in
    /// pieces of at most 65536 bytes, each asked for once the ones before it were read: so `block` never
    /// has more than 65536 bytes beyond those that it had, or that this call took (`grown`).
    pub fn next(&mut self, block: &mut Block) -> Result<bool>
        ensures failed { IfSome (failure_of self.old)
            (λ e. (result ≡ Err e) × (self.new ≡ self.old)) }
        ensures ended { failure_of self.old ≡ None → IsTrue (has_ended self.old)
            → (result ≡ Ok false) × (self.new ≡ self.old) }
        ensures ok { IsOpen self.old → IfOk result (Next (marker_of self.old)
            (reader_state S.left S.faults self.old) (reader_state S.left S.faults self.new)
            block.new.number_of_rows block.new.bytes) }
        ensures err { IsOpen self.old → IfErr result (NoBlock (marker_of self.old)
            (reader_state S.left S.faults self.old) (reader_state S.left S.faults self.new)) }
        ensures now { IsOpen self.old → MatchResult result
            (λ more. (has_ended self.new ≡ not more) × (failure_of self.new ≡ None))
            (λ e. failure_of self.new ≡ Some e) }
        ensures fewer { IfOk result (λ more. IsTrue more → limit_of self.new < limit_of self.old) }
        // The limit falls by the bytes that were taken, the one past it aside.
        ensures grown { length block.new.bytes
            ≤ max (length block.old.bytes) (limit_of self.old - limit_of self.new + 65536) }
        ensures never_falls { S.faults (source_of self.old) ≤ S.faults (source_of self.new) }
        ensures marker { marker_of self.new ≡ marker_of self.old }
        ensures same { S.identity (source_of self.new) ≡ S.identity (source_of self.old) }
    {
        if let Some(error) = self.failed {
            return Err(error);
        }
        if self.ended {
            return Ok(false);
        }
        let answer = self.read_next(block);
        match answer {
            Ok(more) => self.ended = !more,
            Err(error) => self.failed = Some(error),
        }
        answer
    }

    // The next block, where there was neither an end nor an error.
    fn read_next(&mut self, block: &mut Block) -> Result<bool>
        ensures ok { IfOk result (Next (marker_of self.old)
            (reader_state S.left S.faults self.old) (reader_state S.left S.faults self.new)
            block.new.number_of_rows block.new.bytes) }
        ensures err { IfErr result (NoBlock (marker_of self.old)
            (reader_state S.left S.faults self.old) (reader_state S.left S.faults self.new)) }
        ensures fewer { IfOk result (λ more. IsTrue more → limit_of self.new < limit_of self.old) }
        ensures grown { length block.new.bytes
            ≤ max (length block.old.bytes) (limit_of self.old - limit_of self.new + 65536) }
        ensures kept { (marker_of self.new ≡ marker_of self.old)
            × (has_ended self.new ≡ has_ended self.old)
            × (failure_of self.new ≡ failure_of self.old) }
        ensures same { S.identity (source_of self.new) ≡ S.identity (source_of self.old) }
    {
        let bytes = block.bytes.as_mut_vec();
        let mut allowed = Allowance {
            limit: self.limit,
            size_left: None,
        };
        let taken = take_block(&mut self.source, &mut allowed, bytes);
        let before = self.limit;
        self.limit = allowed.limit;
        match taken {
            Ok(rows) => {
                let at = bytes.len() - MARKER;
                if !is_marker(&bytes[at..], &self.marker) {
                    return Err(Error::ExternalFormat(Reason::Marker));
                }
                bytes.truncate(at);
                block.number_of_rows = rows;
                Ok(true)
            }
            Err(Stop::Ended) => {
                if allowed.limit == before {
                    return Ok(false);
                }
                Err(Error::ExternalFormat(Reason::Container))
            }
            Err(Stop::Wrong) | Err(Stop::UsedUp) => Err(Error::ExternalFormat(Reason::Container)),
            Err(Stop::Limit) => Err(Error::LimitExceeded),
            Err(Stop::Fault) => Err(Error::ReadFault { line: None }),
            Err(Stop::Memory) => Err(Error::OutOfMemory),
        }
    }

    /// The source, of which no byte past the last block was taken, unless `next` failed. It takes no
    /// memory.
    pub fn into_inner(self) -> S
        ensures { result ≡ source_of self }
    {
        let BlockReader { source, .. } = self;
        source
    }
}
