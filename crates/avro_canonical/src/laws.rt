//! Laws of columns that are decoded and written again, and of what a rewriting answers. The
//! functions do nothing: the contract of each is a law.
ghost use Rattle.avro_canonical.specs.Answers.{FilesAreRewritten, FieldsAreRefused, RefusedIsNotRewritten, RewrittenDoesNotFail};
ghost use Rattle.avro_canonical.specs.Laws.{DecodedIsSerializable, RowsAreTable, DecodedIsAccepted};

/// What was decoded can be written again. Where a carried schema holds no float, and the type of
/// its column has an Avro schema, `can_serialize` is true of that type, and no slot that the
/// schema's bytes encode keeps `new_serializer` from taking its column under the type's schema
/// (`law`); so the columns of rows are taken under the fields of their record (`accepted`). Rows
/// made of the canonical encodings of a table's columns are the table's canonical encoding
/// (`rows`).
pub fn decoded_is_serializable()
    ensures law { DecodedIsSerializable }
    ensures rows { RowsAreTable }
    ensures accepted { DecodedIsAccepted }
{}

/// What `avro_rewrite` answers, where the contract knows the source's bytes and doesn't fail. A
/// file of no more bytes than the limit that has a canonical form is rewritten. Where the rows of a
/// header's record can't be rewritten, the answer is the error that says why, and never Ok. Bytes
/// that were rewritten once are never refused. Each time `OutOfMemory` may come instead, and, after
/// a header whose rows can be rewritten, `WriteFault` where the sink failed.
pub fn rewriting_answers()
    ensures rewritten { FilesAreRewritten }
    ensures refused { FieldsAreRefused }
    ensures not_rewritten { RefusedIsNotRewritten }
    ensures none_if_rewritten { RewrittenDoesNotFail }
{}
