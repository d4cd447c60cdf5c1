//! What a second command says of what a first one wrote. The functions do nothing: the contract of
//! each is a law.
ghost use Rattle.command_laws.specs.Written.{LinesAreShown, LinesDoNotFail};

/// Of the file that `avro NAME PER_BLOCK MARKER FIELD..` wrote, `ndjson` writes the lines of the
/// same rows, under the names and by the types of the fields. This is so where the name and those
/// of the columns are UTF-8, the schemas of the columns have at most 125 brackets, and the file
/// fewer than 2^63 bytes.
///
/// It does so, or answers `OutOfMemory`, or `WriteFault` where its sink failed, where each type has
/// a JSON text, each date and timestamp is in a year from 0 to 9999, the file has no more bytes
/// than the program takes and each block at most 2147483647, and the source tells these bytes and
/// doesn't fail.
pub fn avro_then_ndjson()
    ensures lines { LinesAreShown }
    ensures no_error { LinesDoNotFail }
{}
