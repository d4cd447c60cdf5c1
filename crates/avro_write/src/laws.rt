//! Laws of the pairs of columns and schemas.
ghost use Rattle.avro_write.specs.Laws.{RecordPairs, RowsAreTable, RowsEncode, SerializablePairs, TableEncodes, TableTells};

/// Where `can_serialize` is true of a type, it pairs with the schema that `to_record_with` gives a
/// column of it, and with what `name_types` makes of that. So `new_serializer` refuses an array of
/// the type only for the slots that it shows: a null under a schema that is no union, or an interval
/// that isn't whole milliseconds in 32 bits.
///
/// The function does nothing: its contract is the law.
pub fn serializable_pairs()
    ensures law { SerializablePairs }
    // The same of the fields of the record that it gives for columns, in order.
    ensures columns { RecordPairs }
{}

/// The canonical encodings of rows, one after another, are those rows by the grammar; so equal bytes
/// of as many rows are equal tables.
///
/// The function does nothing: its contract is the law.
pub fn canonical_tables()
    ensures encodes { TableEncodes }
    ensures tells { TableTells }
{}

/// What `serialize` makes of serializers of columns, each with all of its items left, are the
/// canonical encodings of the table of those columns; so they are that table's rows by the grammar.
///
/// The function does nothing: its contract is the law.
pub fn serialized_tables()
    ensures table { RowsAreTable }
    ensures encodes { RowsEncode }
{}
