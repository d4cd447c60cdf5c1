//! Laws of the definitions. The functions do nothing: the contract of each is a law.
ghost use Rattle.ndjson_avro.specs.Answers.{FieldsAreRefused, LinesAreWritten, RefusedIsNotConverted};

/// Lines of rows that can be written are written; where rows of the fields can't be, the error says
/// so.
pub fn lines_answers()
    ensures written { LinesAreWritten }
    ensures refused { FieldsAreRefused }
    ensures not_converted { RefusedIsNotConverted }
{}
