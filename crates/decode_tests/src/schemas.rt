//! The columns of Avro schemas, by the pairs of types that arrow2 has.

use crate::samples::{avro_field, or_null, record, text};
use arrow_core::{Box, DataType, Error, Field, IntegerType, Items, Metadata, Reason, TimeUnit};
use avro_schema::{AvroSchema, Enum, LongLogical, Record};
use avro_types::infer_schema;
use std::alloc::Global;
use std::process::Abort;

/// A record whose one field, `a`, has this schema.
fn one_field(rt: &impl Abort, alloc: Global, schema: AvroSchema) -> Record {
    let field = avro_field(rt, alloc, "a", schema);
    record(rt, alloc, vec![in alloc; field].expect(rt, "memory"))
}

fn is_column(fields: &[Field], column: &Field) -> bool {
    match fields {
        [field] => field == column,
        _ => false,
    }
}

/// Whether the one column of such a record is this one.
fn has_column(rt: &impl Abort, alloc: Global, schema: AvroSchema, column: Field) -> bool {
    let record = one_field(rt, alloc, schema);
    let fields = infer_schema(alloc, &record).expect(rt, "memory").fields;
    is_column(fields.as_slice(), &column)
}

fn strings(rt: &impl Abort, alloc: Global) -> AvroSchema {
    AvroSchema::Array(Box::new(alloc, AvroSchema::String(None)).expect(rt, "memory"))
}

fn list_column(rt: &impl Abort, alloc: Global) -> Field {
    let item = Field::new(alloc, text(rt, alloc, "item"), DataType::Utf8, false);
    let item = Box::new(alloc, item).expect(rt, "memory");
    Field::new(alloc, text(rt, alloc, "a"), DataType::List(item), true)
}

#[test]
fn an_array_or_null_is_a_nullable_list(rt: HostRuntime) {
    let schema = or_null(&rt, rt.alloc(), strings(&rt, rt.alloc()));
    assert!(rt; has_column(&rt, rt.alloc(), schema, list_column(&rt, rt.alloc())));
}

/// The metadata of a field with this doc.
fn doc(rt: &impl Abort, alloc: Global, doc: &str) -> Metadata {
    let mut metadata = Metadata::new(alloc);
    metadata
        .insert(text(rt, alloc, "avro::doc"), text(rt, alloc, doc))
        .expect(rt, "memory");
    metadata
}

/// The column of an enum with this doc.
fn symbol_column(rt: &impl Abort, alloc: Global) -> Field {
    let symbol = Box::new(alloc, DataType::Utf8).expect(rt, "memory");
    let data_type = DataType::Dictionary(IntegerType::Int32, symbol, false);
    let field = Field::new(alloc, text(rt, alloc, "a"), data_type, false);
    field.with_metadata(doc(rt, alloc, "suits"))
}

/// An enum of one symbol, with a doc.
fn suits(rt: &impl Abort, alloc: Global) -> AvroSchema {
    let symbols = vec![in alloc; text(rt, alloc, "HEARTS")].expect(rt, "memory");
    AvroSchema::Enum(Enum {
        name: text(rt, alloc, "e"),
        namespace: None,
        doc: Some(text(rt, alloc, "suits")),
        symbols: Items::from_vec(symbols),
    })
}

#[test]
fn an_enum_is_a_dictionary_and_keeps_its_doc(rt: HostRuntime) {
    let schema = suits(&rt, rt.alloc());
    assert!(rt; has_column(&rt, rt.alloc(), schema, symbol_column(&rt, rt.alloc())));
}

fn map(rt: &impl Abort, alloc: Global) -> Record {
    let value = Box::new(alloc, AvroSchema::Boolean).expect(rt, "memory");
    one_field(rt, alloc, AvroSchema::Map(value))
}

#[test]
fn a_map_has_no_column(rt: HostRuntime) {
    let refused = infer_schema(rt.alloc(), &map(&rt, rt.alloc())).err();
    assert!(rt; refused == Some(Error::NotYetImplemented(Reason::MapOrUnion)));
}

/// A record of a number, a string, strings or nulls, and a point in time.
fn event(rt: &impl Abort, alloc: Global) -> Record {
    let tag = or_null(rt, alloc, AvroSchema::String(None));
    let tags = AvroSchema::Array(Box::new(alloc, tag).expect(rt, "memory"));
    let when = AvroSchema::Long(Some(LongLogical::TimestampMillis));
    let fields = vec![in alloc;
        avro_field(rt, alloc, "id", AvroSchema::Long(None)),
        avro_field(rt, alloc, "user", AvroSchema::String(None)),
        avro_field(rt, alloc, "tags", tags),
        avro_field(rt, alloc, "when", when),
    ];
    record(rt, alloc, fields.expect(rt, "memory"))
}

fn are_columns_of_events(fields: &[Field]) -> bool {
    let [id, user, tags, when] = fields else {
        return false;
    };
    matches!(id.data_type, DataType::Int64)
        && matches!(user.data_type, DataType::Utf8)
        && matches!(tags.data_type, DataType::List(_))
        && matches!(
            when.data_type,
            DataType::Timestamp(TimeUnit::Millisecond, _)
        )
}

#[test]
fn events_have_four_columns(rt: HostRuntime) {
    let record = event(&rt, rt.alloc());
    let fields = infer_schema(rt.alloc(), &record)
        .expect(&rt, "memory")
        .fields;
    assert!(rt; are_columns_of_events(fields.as_slice()));
}
