//! Laws of the schemas of columns.
ghost use Rattle.avro_types.specs.Back.{SchemaAndBack};

/// Where `can_serialize` is true of each column's type, the columns that `infer_schema` gives of
/// their record are the same columns: with large forms made small, the items of lists named
/// `item`, and without metadata. Null may stand on either side of its unions.
///
/// The function does nothing: its contract is the law.
pub fn schema_and_back()
    ensures law { SchemaAndBack }
{}
