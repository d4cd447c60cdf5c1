//! Laws of files.
ghost use Rattle.avro_file.specs.Laws.{OneAvroFile, CanonicalIsAvroFile, MetadataIsRead, MetadataIsRight};

/// Bytes are a file of at most one root, marker and list of blocks. For a writable root, sixteen
/// bytes, and any blocks whose counts and lengths, as the length of the root's text, are below
/// 2^63, the canonical file is a file of these.
pub fn one_avro_file()
    ensures one { OneAvroFile }
    ensures canonical { CanonicalIsAvroFile }
{}

/// What `read_metadata` answers, where the contract knows the source's bytes: metadata that stands
/// there within the limit is read, and what is answered is what stands there.
pub fn metadata_answers()
    ensures read { MetadataIsRead }
    ensures right { MetadataIsRight }
{}
