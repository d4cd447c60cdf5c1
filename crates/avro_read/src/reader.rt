//! The blocks of a file as chunks, one after another.

ghost use Rattle.std.specs.Prelude.{◌≡◌, ◌≢◌, ◌⊎◌, ◌<◌, ◌≤◌, length, None, Some, OnOk, IfOk, IfErr, IfSome, IsOk};
ghost use Rattle.std.specs.Option.{ForNone};
ghost use Rattle.arrow_core.specs.Errors.{OnlyOutOfMemory};
ghost use Rattle.avro_schema.specs.declared.schema.Record.{out-Record};
ghost use Rattle.avro_container.specs.BlockReader.{failure_of};
ghost use Rattle.avro_read.specs.Projection.{projection_or_all, ReaderRefused};
ghost use Rattle.avro_schema.specs.Projected.{projected, CanBeDecoded};

use arrow_array::Chunk;
use arrow_base::Source;
use arrow_core::{Bytes, Error, Field, Items, Reason, Result};
use avro_container::BlockReader;
use avro_decode::Decoder;
use avro_file::FileMetadata;
use avro_schema::{Block, Record};
use std::alloc::Global;

/// Reads the blocks of an Avro file (Avro 1.11, "Object Container Files") as chunks, from a source
/// that stands after the file's header. The block's buffer and the builders are kept from block to
/// block; no clause says so.
#[derive(Drop)]
pub struct Reader<S> {
    blocks: BlockReader<S>,
    block: Block,
    decoder: Decoder,
    failed: Option<Error>,
    ghost told: { ForNone failed (failure_of blocks ≡ None) },
}

/// Which of so many fields are kept, where it isn't said: all of them.
fn projection_or_all(
    alloc: Global,
    projection: Option<Vec<bool>>,
    count: usize,
) -> Result<Vec<bool>>
    ensures ok { IfOk result (λ keeps. keeps.items ≡ projection_or_all projection count) }
    ensures memory { OnlyOutOfMemory result }
{
    match projection {
        Some(projection) => Ok(projection),
        None => Ok(vec![in alloc; true; count]?),
    }
}

impl<S: Source + Drop> Reader<S> {
    ghost use Rattle.avro_read.specs.Reader.{source_of, projected_of, marker_of, limit_of, IsOpen};

    /// A reader of the columns of a file's rows. The projection says which fields are kept, all
    /// where there is none. It takes at most `byte_limit` bytes of the source, over all calls
    /// together, and one more where it answers `LimitExceeded`.
    ///
    /// `NotYetImplemented(Codec)` where the blocks are compressed; then the errors of
    /// `Decoder::new`; `OutOfMemory`. What was given is then dropped.
    pub fn new(
        alloc: Global,
        source: S,
        metadata: FileMetadata,
        fields: Vec<Field>,
        projection: Option<Vec<bool>>,
        byte_limit: u64,
    ) -> Result<Reader<S>>
        ensures source { IfOk result (λ r. source_of r ≡ source) }
        ensures marker { IfOk result (λ r. marker_of r ≡ metadata.marker) }
        ensures limit { IfOk result (λ r. limit_of r ≡ byte_limit) }
        ensures open { IfOk result IsOpen }
        ensures projected { IfOk result (λ r. projected_of r ≡ projected fields.items
            (out-Record metadata.root).fields
            (projection_or_all projection (length (out-Record metadata.root).fields))) }
        ensures plain { OnOk result (metadata.compression ≡ None) }
        ensures possible { OnOk result (CanBeDecoded (projected fields.items
            (out-Record metadata.root).fields
            (projection_or_all projection (length (out-Record metadata.root).fields)))) }
        ensures err { IfErr result (ReaderRefused metadata.compression (projected fields.items
            (out-Record metadata.root).fields
            (projection_or_all projection (length (out-Record metadata.root).fields)))) }
    {
        if metadata.compression.is_some() {
            return Err(Error::NotYetImplemented(Reason::Codec));
        }
        let FileMetadata { root, marker, .. } = metadata;
        let Record {
            fields: avro_fields,
            ..
        } = root;
        let projection = projection_or_all(alloc, projection, avro_fields.as_slice().len())?;
        let decoder = Decoder::new(alloc, fields, avro_fields, projection)?;
        Ok(Reader {
            blocks: BlockReader::new(alloc, source, marker, byte_limit),
            block: Block {
                number_of_rows: 0,
                bytes: Bytes::new(alloc),
            },
            decoder,
            failed: None,
        })
    }
}

impl<S: Source> Reader<S> {
    ghost use Rattle.avro_read.specs.Reader.{source_of, projected_of, marker_of, limit_of, failure_of as reader_failure, IsOpen, HasEnded, state_of, Next, error_in};

    /// The chunk of the next block, also of one of no rows: the keys of an enum's column mean the
    /// same in each. None where the source ended before a
    /// block's first byte, or after an error, and from then on: no byte is taken then.
    ///
    /// The errors are those of `BlockReader::next`, and then those of `deserialize` from `Overflow`
    /// on. `failed` tells the error from then on.
    pub fn next(&mut self) -> Option<Result<Chunk>>
        ensures failed { IfSome (reader_failure self.old)
            (λ _. (result ≡ None) × (self.new ≡ self.old)) }
        ensures ended { HasEnded self.old
            → (result ≡ None) × HasEnded self.new × (source_of self.new ≡ source_of self.old) }
        ensures next { IsOpen self.old → Next (projected_of self.old) (marker_of self.old)
            (state_of S.left S.faults self.old) (state_of S.left S.faults self.new) result }
        ensures open { IsOpen self.old → IfSome result (λ answer. IsOk answer → IsOpen self.new) }
        // A block has a byte at least.
        ensures fewer { IfSome result
            (λ answer. IsOk answer → limit_of self.new < limit_of self.old) }
        ensures never_falls { S.faults (source_of self.old) ≤ S.faults (source_of self.new) }
        ensures now { IsOpen self.old → reader_failure self.new ≡ error_in result }
        ensures none { result ≡ None → HasEnded self.new ⊎ (reader_failure self.old ≢ None) }
        ensures projected { projected_of self.new ≡ projected_of self.old }
        ensures marker { marker_of self.new ≡ marker_of self.old }
        ensures same { S.identity (source_of self.new) ≡ S.identity (source_of self.old) }
    {
        if self.failed.is_some() {
            return None;
        }
        match self.blocks.next(&mut self.block) {
            Ok(true) => match self.decoder.decode(&self.block) {
                Ok(chunk) => Some(Ok(chunk)),
                Err(error) => {
                    self.failed = Some(error);
                    Some(Err(error))
                }
            },
            Ok(false) => None,
            Err(error) => {
                self.failed = Some(error);
                Some(Err(error))
            }
        }
    }

    /// The error that `next` answered, if it did. It takes no memory.
    pub fn failed(&self) -> Option<Error>
        ensures { result ≡ reader_failure self.now }
    {
        self.failed
    }

    /// The source, of which no byte past the last block was taken, unless `next` failed. It takes no
    /// memory.
    pub fn into_inner(self) -> S
        ensures { result ≡ source_of self }
    {
        let Reader { blocks, .. } = self;
        blocks.into_inner()
    }
}
