//! The header of a file.
ghost use Rattle.std.specs.Prelude.{◌≡◌, ◌≢◌, ◌≤◌, length, IfOk, OnOk, IfErr, None};
ghost use Rattle.std.specs.Bool.{OnTrue, OnFalse};
ghost use Rattle.avro_container.specs.File.{magic, IsPlain};
ghost use Rattle.avro_container.specs.FileForms.{magic_form, after_magic};
ghost use Rattle.avro_container.specs.Kept.{TakesHeader};
ghost use Rattle.avro_container.specs.ReadHeader.{error_of, change, ReadsHeader, HeaderFails};
ghost use Rattle.avro_container.specs.Taking.{state_of, Passed, Stopped};

use crate::entries::{Found, take_map};
use crate::parts::{Allowance, Stop, fill_buffer};
use arrow_base::{Bytes, Error, Reason, Result, Source};
use std::alloc::Global;

// Whether the bytes are the magic.
fn is_magic(bytes: &[u8]) -> bool
    ensures yes { OnTrue result (bytes.now ≡ magic) }
    ensures no { OnFalse result (bytes.now ≢ magic) }
{
    bytes == b"Obj\x01".as_slice()
}

// Takes the magic, four bytes.
fn take_magic<S: Source>(
    alloc: Global,
    source: &mut S,
    allowed: &mut Allowance,
) -> std::result::Result<(), Stop>
    ensures ok { OnOk result (Passed magic_form
        (state_of S.left S.faults source.old allowed.old)
        (state_of S.left S.faults source.new allowed.new)
        magic) }
    ensures stops { IfErr result (Stopped magic_form
        (state_of S.left S.faults source.old allowed.old)
        (state_of S.left S.faults source.new allowed.new)) }
    ensures same { S.identity source.new ≡ S.identity source.old }
{
    let mut bytes = Vec::new(alloc);
    fill_buffer(source, allowed, &mut bytes, 4)?;
    if !is_magic(&bytes) {
        return Err(Stop::Wrong);
    }
    Ok(())
}

// What stands after the magic.
#[derive(Drop)]
struct AfterMagic {
    entries: Found,
    marker: [u8; 16],
}

// Sixteen bytes, as an array.
fn sixteen(bytes: &[u8]) -> [u8; 16]
    requires { length bytes.now ≡ 16 }
    ensures { result ≡ bytes.now }
{
    let mut array = [0u8; 16];
    array.copy_from_slice(bytes);
    array
}

// Takes the metadata and the marker.
fn take_after_magic<S: Source>(
    alloc: Global,
    source: &mut S,
    allowed: &mut Allowance,
) -> std::result::Result<AfterMagic, Stop>
    requires { allowed.old.size_left ≡ None }
    ensures ok { IfOk result (λ r. TakesHeader after_magic
        (state_of S.left S.faults source.old allowed.old)
        (state_of S.left S.faults source.new allowed.new)
        r.entries.schema r.entries.codec r.marker) }
    ensures stops { IfErr result (Stopped after_magic
        (state_of S.left S.faults source.old allowed.old)
        (state_of S.left S.faults source.new allowed.new)) }
    ensures same { S.identity source.new ≡ S.identity source.old }
{
    let mut entries = Found {
        schema: None,
        codec: None,
    };
    take_map(alloc, source, allowed, &mut entries)?;
    let mut bytes = Vec::new(alloc);
    fill_buffer(source, allowed, &mut bytes, 16)?;
    let marker = sixteen(&bytes);
    Ok(AfterMagic { entries, marker })
}

// The error of a stop, where wrong bytes have this reason.
fn fault(stop: Stop, reason: Reason) -> Error
    ensures { result ≡ error_of stop reason }
{
    match stop {
        Stop::Ended | Stop::Wrong | Stop::UsedUp => Error::ExternalFormat(reason),
        Stop::Limit => Error::LimitExceeded,
        Stop::Fault => Error::ReadFault { line: None },
        Stop::Memory => Error::OutOfMemory,
    }
}

// Whether there is no codec but `null`.
fn is_plain(codec: &Option<Bytes>) -> bool
    ensures yes { OnTrue result (IsPlain codec.now) }
    ensures no { OnFalse result (IsPlain codec.now → ⊥) }
{
    match codec {
        Some(name) => name.as_slice() == b"null".as_slice(),
        None => true,
    }
}

/// What the header of a file says: the text of its schema, and its sync marker.
#[derive(Drop)]
pub struct Header {
    /// The text of the schema, which isn't looked into.
    pub schema: Bytes,
    /// The sixteen bytes that follow each block.
    pub marker: [u8; 16],
}

/// Reads the header of an Avro file (Avro 1.11, "Object Container Files"), and answers what it says
/// and how many bytes it has. Of a key that is named twice the last value counts; keys other than
/// `avro.schema` and `avro.codec` are passed over.
///
/// `ReadFault` where a read failed; `LimitExceeded` where one byte more than `byte_limit` was taken;
/// `ExternalFormat(Magic)` where the first four bytes are missing or others; `ExternalFormat(Header)`
/// where what follows isn't a header, or ends within one, or has no `avro.schema`;
/// `NotYetImplemented(Codec)` where the header is whole and names another codec than `null`;
/// `OutOfMemory`. An error is answered before any byte is taken past the part that shows it, and no
/// byte is taken past the header. Each of its buffers is filled by `fill_buffer`, and so grows by at
/// most 65536 bytes before those bytes were read (`grown` there). Numbers are read byte by byte: hand
/// in a source that buffers, if a read is dear.
pub fn read_header<S: Source>(
    alloc: Global,
    source: &mut S,
    byte_limit: u64,
) -> Result<(Header, u64)>
    ensures ok { IfOk result (λ r. ReadsHeader
        (change S.left S.faults source.old source.new byte_limit)
        r.0.schema r.0.marker r.1) }
    ensures err { IfErr result (HeaderFails
        (change S.left S.faults source.old source.new byte_limit)) }
    ensures never_falls { S.faults source.old ≤ S.faults source.new }
    ensures same { S.identity source.new ≡ S.identity source.old }
{
    let mut allowed = Allowance {
        limit: byte_limit,
        size_left: None,
    };
    match take_magic(alloc, source, &mut allowed) {
        Err(stop) => Err(fault(stop, Reason::Magic)),
        Ok(()) => match take_after_magic(alloc, source, &mut allowed) {
            Err(stop) => Err(fault(stop, Reason::Header)),
            Ok(rest) => {
                let marker = rest.marker;
                let codec_is_null = is_plain(&rest.entries.codec);
                let AfterMagic { entries, .. } = rest;
                let Found { schema, .. } = entries;
                match schema {
                    None => Err(Error::ExternalFormat(Reason::Header)),
                    Some(_) if !codec_is_null => Err(Error::NotYetImplemented(Reason::Codec)),
                    Some(schema) => Ok((Header { schema, marker }, byte_limit - allowed.limit)),
                }
            }
        },
    }
}
