//! Laws of the definitions, and examples of bytes.

ghost use Rattle.avro_schema.specs.Laws.{NoProperPrefix, OneValue, OnePrefix, KeptCanBeSkipped, HasAByte, RowsHaveBytes, BrokenIsNeverWhole, OneListOfPieces, OneTable, NarrowerRows, RowsOrNegativeSize, OneBreak, OneNegativeSize};
ghost use Rattle.avro_schema.specs.Listed.{EncodesComposites, SkipsComposites, BrokenComposites, CarriedComposites};
ghost use Rattle.avro_schema.specs.Examples.{RecordExample, ArrayExample, SizedArrayExample, SkippedArrayExample, NullExample, MemberExample, BreakExample};
ghost use Rattle.avro_schema.specs.Encodes.{Encodes};
ghost use Rattle.avro_schema.specs.Skips.{Skips};

/// Under one schema no bytes of a value are a proper prefix of other bytes of a value, be they
/// kept or skipped. So of any bytes one prefix at most is a value.
pub fn no_proper_prefix()
    ensures encoded { NoProperPrefix Encodes }
    ensures skipped { NoProperPrefix Skips }
    ensures encoded_prefix { OnePrefix Encodes }
    ensures skipped_prefix { OnePrefix Skips }
{}

/// Under one schema bytes encode at most one slot, and are skipped with one pair of counts.
pub fn one_slot()
    ensures encoded { OneValue Encodes }
    ensures skipped { OneValue Skips }
{}

/// What is encoded under a schema can be skipped.
pub fn kept_can_be_skipped()
    ensures { KeptCanBeSkipped }
{}

/// A value of a carried schema has at least one byte, so rows of carried schemas have no fewer
/// bytes than they are.
pub fn at_least_one_byte()
    ensures encoded { HasAByte Encodes }
    ensures skipped { HasAByte Skips }
    ensures rows { RowsHaveBytes }
{}

/// Bytes that break off at an array block of a size below 0 have no prefix that is skipped.
pub fn broken_is_never_whole()
    ensures { BrokenIsNeverWhole }
{}

/// Bytes are at most one table of rows, with one count of bytes that are kept, seen and hidden.
/// What is rows under a projection is rows under each projection that keeps no more, and that table
/// has just the columns that this one keeps.
pub fn one_table()
    ensures one { OneTable }
    ensures pieces { OneListOfPieces }
    ensures narrower { NarrowerRows }
{}

/// No bytes are whole rows and also break off at an array block of a size below 0.
pub fn rows_or_negative_size()
    ensures { RowsOrNegativeSize }
{}

/// Bytes break off at one location at most, under a schema and in the rows of a block: after the
/// same whole rows and whole pieces, at the same block of the same array.
pub fn one_break()
    ensures broken { OneBreak }
    ensures rows { OneNegativeSize }
{}

/// What the definitions say of arrays, unions and records, in terms of the lists of members and
/// of fields that code sees.
pub fn composites()
    ensures encoded { EncodesComposites }
    ensures skipped { SkipsComposites }
    ensures broken { BrokenComposites }
    ensures carried { CarriedComposites }
{}

/// The examples of the Avro specification (1.11, "Binary Encoding") are encoded as it encodes them,
/// and rows of arrays break off where one states a size below 0.
pub fn examples()
    ensures record_of_two { RecordExample }
    ensures array { ArrayExample }
    ensures sized_array { SizedArrayExample }
    ensures skipped_array { SkippedArrayExample }
    ensures null { NullExample }
    ensures member { MemberExample }
    ensures negative_size { BreakExample }
{}
