//! Laws of two calls: of files that were rewritten, and of files that were written and are read
//! again. The functions do nothing: the contract of each is a law.
ghost use Rattle.arrow_convert.specs.Laws.{FilesTellRows, OneCanonicalForm, OneErrorComes};
ghost use Rattle.arrow_convert.specs.ReadAgain.{LinesAreFile, LinesComeBack, LinesDoNotFail, RecordsAreWritable, RewrittenDoesNotFail, RewrittenIsFile, RewrittenIsSame, RewrittenIsWritable, ShallowRecordsAreWritable};

/// Of what `avro_rewrite` answers in two calls. A file has one canonical form under a name and a
/// marker. Under one record and one marker two canonical files are equal exactly where their rows
/// are, block by block, blocks without rows left out; the length of the record's text, and counts
/// and lengths of blocks, are below 2^63.
pub fn canonical_forms()
    ensures one { OneCanonicalForm }
    ensures rows { FilesTellRows }
{}

/// What `ndjson_to_avro` wrote of lines is an Avro file, and `avro_to_ndjson` with all fields kept
/// converts it into the lines of the same rows, however many stand in a block. This is so where the
/// record can be read back (`IsWritable`), the sync marker has sixteen bytes, and the file fewer
/// than 2^63. The record can be where its schema text is UTF-8 and nests at most 128 deep: where
/// the names are UTF-8, and no more brackets are open in the schemas of its columns
/// (`brackets_of`).
///
/// It does so, or answers `OutOfMemory`, or `WriteFault` where its sink failed, where each type has
/// a JSON text, each date and timestamp is in a year from 0 to 9999, the file has no more bytes
/// than the limit and each block at most 2147483647, and the source tells these bytes and doesn't
/// fail.
pub fn lines_and_back()
    ensures file { LinesAreFile }
    ensures lines { LinesComeBack }
    ensures no_error { LinesDoNotFail }
    ensures writable { RecordsAreWritable }
    ensures shallow { ShallowRecordsAreWritable }
{}

/// What `avro_rewrite` wrote is an Avro file, where the name is UTF-8, as that of any `&str` is,
/// the sync marker has sixteen bytes, and the file fewer than 2^63. Its record can be read back
/// (`IsWritable`): its names come from a text that was read, and no part of its own text stands in
/// more brackets than what it comes from.
pub fn rewritten_file()
    ensures file { RewrittenIsFile }
    ensures writable { RewrittenIsWritable }
{}

/// Such a file, each block of which has at most 2147483647 bytes, is its own canonical form: under
/// the same name and marker `avro_rewrite` writes the same bytes again, and counts the same rows.
///
/// It does so, or answers `OutOfMemory`, or `WriteFault` where its sink failed, where the file has
/// no more bytes than the limit and the source tells them and doesn't fail.
pub fn rewritten_twice()
    ensures same { RewrittenIsSame }
    ensures no_error { RewrittenDoesNotFail }
{}

/// Of any bytes `avro_rewrite` answers one error at most under one name, marker and limit, where
/// the sources tell these bytes and don't fail: `OutOfMemory` may come instead, or `WriteFault`
/// where the sink failed.
pub fn rewriting_error()
    ensures one_error { OneErrorComes }
{}
