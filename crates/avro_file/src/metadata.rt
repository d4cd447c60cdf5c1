//! What the header of a file says, read and written.
ghost use Rattle.std.specs.Prelude.{◌≡◌, ◌≤◌, IfOk, OnOk, IfErr, OnErr, None};
ghost use Rattle.std.specs.Io.KnownBytes.{Appends};
ghost use Rattle.arrow_base.specs.Outside.{AppendsPrefix};
ghost use Rattle.avro_container.specs.ReadHeader.{change};
ghost use Rattle.avro_file.specs.File.{StandsFor, metadata_bytes};
ghost use Rattle.avro_file.specs.Metadata.{RootFails, ReadsMetadata, MetadataFails, WriteFails};

use crate::{read_schema_text, record_text};
use arrow_base::{Error, Reason, Result, Sink, Source};
use avro_container::{read_header, write_header};
use avro_schema::{AvroSchema, Record};
use std::alloc::Global;

/// How the blocks of a file may be compressed (Avro 1.11, "Required Codecs" and "Optional Codecs").
/// Here no file is read or written whose blocks are.
#[derive(Clone, Copy, PartialEq, Eq, Debug)]
pub enum Compression {
    /// The codec `deflate`.
    Deflate,
    /// The codec `snappy`.
    Snappy,
}

/// What the header of a file says (Avro 1.11, "Object Container Files").
#[derive(Drop)]
pub struct FileMetadata {
    /// The record that the file's rows are of.
    pub root: Record,
    /// How the blocks are compressed, where they are.
    pub compression: Option<Compression>,
    /// The sixteen bytes that follow each block.
    pub marker: [u8; 16],
}

// The record that the text of a schema stands for.
fn read_root(alloc: Global, text: &[u8]) -> Result<Record>
    ensures ok { IfOk result (StandsFor text.now) }
    ensures err { IfErr result (RootFails text.now) }
{
    match read_schema_text(alloc, text) {
        Ok(AvroSchema::Record(root)) => Ok(root),
        Ok(_) => Err(Error::NotYetImplemented(Reason::RootNotRecord)),
        Err(fault) => Err(Error::from(fault)),
    }
}

/// Reads the header of a file (Avro 1.11, "Object Container Files"), and answers what it says and
/// how many bytes it has. The compression is None. Of a key that is named twice the last value
/// counts; keys other than `avro.schema` and `avro.codec` are passed over.
///
/// While the header is read: `ReadFault` where a read failed; `LimitExceeded` where one byte more
/// than `byte_limit` was taken; `ExternalFormat(Magic)` where the first four bytes are missing or
/// others; `ExternalFormat(Header)` where what follows isn't a header, or ends within one, or has no
/// `avro.schema`. Of a whole header, in this order: `NotYetImplemented(Codec)` where the codec is
/// another one than `null`; what `read_schema_text` refuses of the schema's text, which is
/// `ExternalFormat(SchemaText)`, `NotYetImplemented(TypeReference)` or `LimitExceeded`;
/// `NotYetImplemented(RootNotRecord)` where the schema is no record. `OutOfMemory` may come at any
/// time. An error is answered before any byte is taken past the part that shows it, and no byte is
/// taken past the header. Each buffer of the header is filled by `fill_buffer`, and so grows by at most
/// 65536 bytes before those bytes were read (`grown` there).
pub fn read_metadata<S: Source>(
    alloc: Global,
    source: &mut S,
    byte_limit: u64,
) -> Result<(FileMetadata, u64)>
    ensures ok { IfOk result (λ r. ReadsMetadata
        (change S.left S.faults source.old source.new byte_limit) r.0.root r.0.marker r.1) }
    ensures no_compression { IfOk result (λ r. r.0.compression ≡ None) }
    ensures err { IfErr result (MetadataFails
        (change S.left S.faults source.old source.new byte_limit)) }
    ensures never_falls { S.faults source.old ≤ S.faults source.new }
    ensures same { S.identity source.new ≡ S.identity source.old }
{
    let (header, count) = read_header(alloc, source, byte_limit)?;
    let root = read_root(alloc, header.schema.as_slice())?;
    let marker = header.marker;
    let metadata = FileMetadata {
        root,
        compression: None,
        marker,
    };
    Ok((metadata, count))
}

/// Writes the header of a file of rows of `root` (Avro 1.11, "Object Container Files"): one entry,
/// the text of the schema. `WriteFault` where a write failed, and then the sink took a prefix of it;
/// `OutOfMemory`, and then it took nothing.
pub fn write_metadata<K: Sink>(
    alloc: Global,
    sink: &mut K,
    root: &Record,
    marker: [u8; 16],
) -> Result<()>
    ensures ok { OnOk result
        (Appends (K.held sink.old) (K.held sink.new) (metadata_bytes root.now marker)) }
    ensures err { IfErr result (WriteFails (K.held sink.old) (K.held sink.new)
        (K.faults sink.old) (K.faults sink.new) (metadata_bytes root.now marker)) }
    ensures never_falls { K.faults sink.old ≤ K.faults sink.new }
    ensures same { K.identity sink.new ≡ K.identity sink.old }
{
    let text = record_text(alloc, root)?;
    write_header(sink, text.as_slice(), marker)
}
