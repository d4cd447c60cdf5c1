//! Laws of the answers of conversions.
ghost use Rattle.avro_ndjson.specs.Laws.{FilesAreConverted, FieldsAreRefused, RefusedIsNotConverted, OneErrorComes, ConvertedDoesNotFail};

/// What `avro_to_ndjson` answers, where the contract knows the source's bytes and doesn't fail. A
/// file of no more bytes than the limit whose rows can be shown is converted. Where the fields of a
/// header's record can't be shown, the answer is the error that says why, and never Ok. Of any
/// bytes one error comes at most, and none where they are converted. Each time `OutOfMemory` may
/// come instead, and, after a header whose fields can be shown, `WriteFault` where the sink failed.
pub fn conversion_answers()
    ensures converted { FilesAreConverted }
    ensures refused { FieldsAreRefused }
    ensures not_converted { RefusedIsNotConverted }
    ensures one_error { OneErrorComes }
    ensures none_if_converted { ConvertedDoesNotFail }
{}
