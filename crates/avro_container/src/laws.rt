//! Laws of files, and of the answers of their readers.
ghost use Rattle.avro_container.specs.FileForms.{marked_block, header};
ghost use Rattle.avro_container.specs.Laws.{IsItself, OneFile, CanonicalIsFile, Settles, BlockIsRead, EndIsEnd, NoBytesAreEnd, ContainerCause, MarkerCause, BlockLimitCause, HeaderIsRead, MagicCause, HeaderCause, CodecCause, HeaderLimitCause, ShortestIsShortest};

/// Bytes are a file of at most one schema text, marker and list of blocks. For a schema text of
/// less than 2^63 bytes, a marker of sixteen bytes, and blocks each of less than 2^63 rows and less
/// than 2^63 bytes, the canonical file is a file.
pub fn one_file()
    ensures one { OneFile IsItself }
    ensures canonical { CanonicalIsFile IsItself }
{}

/// Bytes are never at once a block or a header and also wrong, or only begun.
pub fn parts_settle()
    ensures block { Settles marked_block }
    ensures header { Settles header }
{}

/// What `BlockReader::next` answers, where the contract knows the source's bytes: a block that
/// stands there within the limit is read; false is the end, and at the end, where no read fails,
/// there is no other answer but `OutOfMemory`; each error that speaks of the bytes is right.
pub fn block_answers()
    ensures read { BlockIsRead }
    ensures end { EndIsEnd }
    ensures no_bytes { NoBytesAreEnd }
    ensures container { ContainerCause }
    ensures marker { MarkerCause }
    ensures limit { BlockLimitCause }
{}

/// What `read_header` answers, where the contract knows the source's bytes: a header that stands
/// there within the limit is read, and each error that speaks of the bytes is right.
pub fn header_answers()
    ensures read { HeaderIsRead }
    ensures magic { MagicCause }
    ensures header { HeaderCause }
    ensures codec { CodecCause }
    ensures limit { HeaderLimitCause }
{}

/// The shortest encoding of an integer of 64 bits is an encoding of it, and none has fewer bytes
/// (Avro 1.11, "Binary Encoding", "Primitive Types": int and long).
pub fn shortest_numbers()
    ensures shortest { ShortestIsShortest }
{}
