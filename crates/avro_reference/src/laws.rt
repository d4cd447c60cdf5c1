//! Laws of the reading functions, and worked examples.

ghost use Rattle.avro_schema.specs.Number.{Number};
ghost use Rattle.avro_schema.specs.declared.schema.AvroField.{AvroField};
ghost use Rattle.avro_schema.specs.declared.schema.Schema.{Schema};
ghost use Rattle.avro_schema.specs.Broken.{Broken};
ghost use Rattle.avro_schema.specs.NegativeSize.{BrokenRow};
ghost use Rattle.avro_schema.specs.Rows.{Row};
ghost use Rattle.avro_schema.specs.Encodes.{Encodes};
ghost use Rattle.avro_schema.specs.Skips.{Skips};
ghost use Rattle.avro_reference.specs.Block.{row};
ghost use Rattle.avro_reference.specs.Examples.{Holds, numbers, flat_kinds, decimals, skipped_kinds, rows_of_two_fields, arrays, sizes_below_zero, false_counts};
ghost use Rattle.avro_reference.specs.Prefix.{number_at};
ghost use Rattle.avro_reference.specs.Laws.{ReadsAll, ReadsNoMore, PassesAll, IsNegativeAt, IsBadElsewhere, BlockGivesRows, BlockIsNegative, BlockIsBad, CarriedBlocks};
ghost use Rattle.avro_reference.specs.Listed.{ReadComposites, SkipComposites};
ghost use Rattle.avro_reference.specs.Read.{read};
ghost use Rattle.avro_reference.specs.Skip.{skip};
ghost use Rattle.std.specs.List.{AllByRecursion};
ghost use Rattle.std.specs.Prelude.{List, Bool};

/// `number_at` gives the number that a prefix of the bytes is, and None exactly where no prefix is
/// one.
pub fn numbers_are_read()
    ensures all { ReadsAll number_at Number }
    ensures no_more { ReadsNoMore number_at Number }
{}

/// `read` gives the slot that a prefix of the bytes encodes, and None exactly where no prefix
/// encodes one.
pub fn values_are_read()
    ensures all { (s : Schema) → ReadsAll (read s) (Encodes s) }
    ensures no_more { (s : Schema) → ReadsNoMore (read s) (Encodes s) }
{}

/// `skip` passes the prefix that is skipped, with its counts. It is Negative exactly where the
/// bytes break off at a size below 0, and Bad exactly where neither is so.
pub fn values_are_skipped()
    ensures all { (s : Schema) → PassesAll (skip s) (Skips s) }
    ensures negative { (s : Schema) → IsNegativeAt (skip s) (Broken s) }
    ensures bad { (s : Schema) → IsBadElsewhere (skip s) (Skips s) (Broken s) }
{}

/// The same of `row`, whose fields are kept or skipped.
pub fn rows_are_read()
    ensures all { (fields : List AvroField) (projection : List Bool) → PassesAll
        (row fields projection) (Row fields projection) }
    ensures negative { (fields : List AvroField) (projection : List Bool) → IsNegativeAt
        (row fields projection) (BrokenRow fields projection) }
    ensures bad { (fields : List AvroField) (projection : List Bool) → IsBadElsewhere
        (row fields projection) (Row fields projection) (BrokenRow fields projection) }
{}

/// `block` gives the pieces of the rows exactly where the bytes are that many rows and no fewer
/// bytes than rows. It is Negative exactly where they break off at a size below 0, and Bad exactly
/// where neither is so. Rows of carried fields are never more than their bytes, so there the answer
/// is about rows alone.
pub fn blocks_are_read()
    ensures rows { BlockGivesRows }
    ensures negative { BlockIsNegative }
    ensures bad { BlockIsBad }
    ensures carried { CarriedBlocks }
{}

/// What `read` and `skip` are at arrays, unions and records, in terms of the lists of members and
/// of fields that code sees.
pub fn composites_are_read()
    ensures read { ReadComposites }
    ensures skipped { SkipComposites }
{}

/// The specification's examples of numbers, and bytes worked out by hand: each is what the grammar
/// says that it is.
pub fn examples()
    ensures numbers { AllByRecursion Holds numbers }
    ensures flat_kinds { AllByRecursion Holds flat_kinds }
    ensures decimals { AllByRecursion Holds decimals }
    ensures skipped { AllByRecursion Holds skipped_kinds }
    ensures rows { AllByRecursion Holds rows_of_two_fields }
    ensures arrays { AllByRecursion Holds arrays }
    ensures sizes_below_zero { AllByRecursion Holds sizes_below_zero }
    ensures false_counts { AllByRecursion Holds false_counts }
{}
