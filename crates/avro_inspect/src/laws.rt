//! Laws of the definitions. The functions do nothing: the contract of each is a law.
ghost use Rattle.avro_inspect.specs.Laws.{FilesAreCounted, OneCount, SchemaIsRight};

/// What `count_rows` and `schema_of` answer where the contract knows the source's bytes and doesn't
/// fail. Of a file of no more bytes than the limit the rows and blocks are counted, and else the
/// only error is `OutOfMemory`. Where the bytes begin with a header, the schema that is answered is
/// that of the header's record.
pub fn counting_answers()
    ensures counted { FilesAreCounted }
    ensures schema { SchemaIsRight }
{}

/// Bytes have one number of rows and one of blocks at most.
pub fn one_count()
    ensures { OneCount }
{}
