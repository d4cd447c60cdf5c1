//! Words of records, and the schemas that they name.

use arrow_core::{Box, Items, Text};
use avro_schema::{AvroField, AvroSchema, BytesLogical, Enum, Fixed, FixedLogical, Record};
use cli_words::{WordsFault, push_type, read_field};
use std::alloc::Global;
use std::process::Abort;

/// Whether a record has an `x` of integers and a `y` of lists of strings, and no other fields.
fn is_of_integers_and_lists(record: &Record) -> bool {
    match record.fields.as_slice() {
        [x, y] => {
            x.name.as_str() == "x"
                && matches!(&x.schema, AvroSchema::Int(None))
                && y.name.as_str() == "y"
                && is_list_of_strings(&y.schema)
        }
        _ => false,
    }
}

fn is_list_of_strings(schema: &AvroSchema) -> bool {
    match schema {
        AvroSchema::Array(item) => matches!(item.get(), AvroSchema::String(None)),
        _ => false,
    }
}

/// Whether a schema is the union of null and that record.
fn is_null_or_the_record(schema: &AvroSchema) -> bool {
    match schema {
        AvroSchema::Union(members) => match members.as_slice() {
            [AvroSchema::Null, AvroSchema::Record(record)] => is_of_integers_and_lists(record),
            _ => false,
        },
        _ => false,
    }
}

fn names_null_or_the_record(alloc: Global, word: &str) -> bool {
    match read_field(alloc, word) {
        Ok(read) => is_null_or_the_record(&read.avro_field.schema),
        Err(_) => false,
    }
}

#[test]
fn a_marked_record_is_a_union_of_null_and_it(rt: HostRuntime) {
    assert!(rt; names_null_or_the_record(rt.alloc(), "a={x=int;y=[string]}?"));
}

fn is_usage(alloc: Global, word: &str) -> bool {
    match read_field(alloc, word) {
        Ok(_) => false,
        Err(fault) => matches!(fault, WordsFault::Usage),
    }
}

#[test]
fn records_without_a_name_a_type_or_a_brace_are_no_types(rt: HostRuntime) {
    for word in [
        "a={x=int;}",
        "a={;}",
        "a={x}",
        "a={x=int",
        "a=x=int}",
        "a={x=int};y=int}",
    ] {
        assert!(rt; is_usage(rt.alloc(), word), "{word}");
    }
}

/// The word of a field of records, each in the other: an empty one in so many others.
fn nested(rt: &impl Abort, alloc: Global, others: usize) -> String {
    let opened = "{a=".repeat(alloc, others).expect(rt, "memory");
    let closed = "}".repeat(alloc, others).expect(rt, "memory");
    format!(in alloc; "a={opened}{{}}{closed}").expect(rt, "memory")
}

#[test]
fn at_most_64_records_stand_each_in_the_other(rt: HostRuntime) {
    assert!(rt; read_field(rt.alloc(), nested(&rt, rt.alloc(), 63).as_str()).is_ok());
    assert!(rt; is_usage(rt.alloc(), nested(&rt, rt.alloc(), 64).as_str()));
}

// ---- words that are printed

/// A schema, as the word of a field names it.
fn named(rt: &impl Abort, alloc: Global, word: &str) -> AvroSchema {
    let field = format!(in alloc; "a={word}").expect(rt, "memory");
    read_field(alloc, field.as_str())
        .expect(rt, "a word")
        .avro_field
        .schema
}

/// Whether this is what is printed for a type.
fn prints(rt: &impl Abort, alloc: Global, schema: AvroSchema, word: &str) -> bool {
    let mut text = Vec::new(alloc);
    push_type(&mut text, &schema).expect(rt, "memory");
    text.as_slice() == word.as_bytes()
}

#[test]
fn a_type_is_printed_as_the_word_that_names_it(rt: HostRuntime) {
    for word in [
        "null",
        "boolean",
        "int",
        "date",
        "time-millis",
        "long",
        "time-micros",
        "timestamp-millis",
        "timestamp-micros",
        "timestamp-nanos",
        "local-timestamp-millis",
        "local-timestamp-micros",
        "local-timestamp-nanos",
        "float",
        "double",
        "bytes",
        "string",
        "uuid",
        "duration",
        "fixed(0)",
        "fixed(2147483647)",
        "decimal(1,0)",
        "decimal(10,10)",
        "decimal(9,2,4)",
        "<A>",
        "<A,b.c,_-9>",
        "{}",
        "{a=int}",
        "{a=int;a=string!;b={c=[long?]}}?",
        "[int]",
        "[[null]!]?",
        "null?",
        "long!",
        "<A,B>!",
    ] {
        let schema = named(&rt, rt.alloc(), word);
        assert!(rt; prints(&rt, rt.alloc(), schema, word), "{word}");
    }
}

#[test]
fn numbers_are_printed_without_zeros_before_them(rt: HostRuntime) {
    let schema = named(&rt, rt.alloc(), "decimal(0009,02,004)");
    assert!(rt; prints(&rt, rt.alloc(), schema, "decimal(9,2,4)"));
}

fn text(rt: &impl Abort, alloc: Global, value: &str) -> Text {
    Text::try_from_str(alloc, value).expect(rt, "memory")
}

/// An enum with a name, a namespace and a doc, and these symbols.
fn enum_of(rt: &impl Abort, alloc: Global, symbols: &[&str]) -> AvroSchema {
    let mut owned = Vec::new(alloc);
    for symbol in symbols {
        owned.push(text(rt, alloc, symbol)).expect(rt, "memory");
    }
    AvroSchema::Enum(Enum {
        name: text(rt, alloc, "e"),
        namespace: Some(text(rt, alloc, "n.m")),
        doc: Some(text(rt, alloc, "a doc")),
        symbols: Items::from_vec(owned),
    })
}

/// A record with a name, a namespace and a doc, and one field of this name and type.
fn record_of(rt: &impl Abort, alloc: Global, name: &str, schema: AvroSchema) -> AvroSchema {
    let mut fields = Vec::new(alloc);
    fields
        .push(AvroField {
            name: text(rt, alloc, name),
            doc: Some(text(rt, alloc, "a doc")),
            schema,
        })
        .expect(rt, "memory");
    AvroSchema::Record(Record {
        name: text(rt, alloc, "r"),
        namespace: Some(text(rt, alloc, "n.m")),
        doc: Some(text(rt, alloc, "a doc")),
        fields: Items::from_vec(fields),
    })
}

fn fixed_of(
    rt: &impl Abort,
    alloc: Global,
    size: usize,
    logical: Option<FixedLogical>,
) -> AvroSchema {
    AvroSchema::Fixed(Fixed {
        name: text(rt, alloc, "f"),
        namespace: None,
        doc: None,
        size,
        logical,
    })
}

fn union_of(rt: &impl Abort, alloc: Global, first: AvroSchema, second: AvroSchema) -> AvroSchema {
    let mut members = Vec::new(alloc);
    members.push(first).expect(rt, "memory");
    members.push(second).expect(rt, "memory");
    AvroSchema::Union(Items::from_vec(members))
}

#[test]
fn names_of_types_and_docs_are_left_out(rt: HostRuntime) {
    let alloc = rt.alloc();
    let symbols = enum_of(&rt, alloc, &["A", "B"]);
    assert!(rt; prints(&rt, alloc, symbols, "<A,B>"));
    let record = record_of(&rt, alloc, "x-1", AvroSchema::Long(None));
    assert!(rt; prints(&rt, alloc, record, "{x-1=long}"));
    let duration = fixed_of(&rt, alloc, 12, Some(FixedLogical::Duration));
    assert!(rt; prints(&rt, alloc, duration, "duration"));
}

#[test]
fn what_no_word_says_is_a_dash(rt: HostRuntime) {
    let alloc = rt.alloc();
    let value = Box::new(alloc, AvroSchema::Int(None)).expect(&rt, "memory");
    assert!(rt; prints(&rt, alloc, AvroSchema::Map(value), "-"));
    assert!(rt; prints(&rt, alloc, enum_of(&rt, alloc, &[]), "-"));
    assert!(rt; prints(&rt, alloc, enum_of(&rt, alloc, &["A", "a b"]), "-"));
    let unnamed = record_of(&rt, alloc, "", AvroSchema::Null);
    assert!(rt; prints(&rt, alloc, unnamed, "-"));
    let other_letters = record_of(&rt, alloc, "\u{e9}", AvroSchema::Null);
    assert!(rt; prints(&rt, alloc, other_letters, "-"));
    let no_null = union_of(&rt, alloc, AvroSchema::Int(None), AvroSchema::Float);
    assert!(rt; prints(&rt, alloc, no_null, "-"));
    let inner = union_of(&rt, alloc, AvroSchema::Null, AvroSchema::Float);
    let in_a_union = union_of(&rt, alloc, AvroSchema::Null, inner);
    assert!(rt; prints(&rt, alloc, in_a_union, "-"));
}

#[test]
fn numbers_that_no_word_says_are_a_dash(rt: HostRuntime) {
    let alloc = rt.alloc();
    for logical in [(0, 0), (3, 4), (2_147_483_648, 0)] {
        let decimal = BytesLogical::Decimal(logical.0, logical.1);
        assert!(rt; prints(&rt, alloc, AvroSchema::Bytes(Some(decimal)), "-"));
    }
    assert!(rt; prints(&rt, alloc, fixed_of(&rt, alloc, 2_147_483_648, None), "-"));
    let short = fixed_of(&rt, alloc, 11, Some(FixedLogical::Duration));
    assert!(rt; prints(&rt, alloc, short, "-"));
}

/// So many lists, each in the other, of nulls.
fn nested_lists(rt: &impl Abort, alloc: Global, lists: usize) -> AvroSchema {
    let mut schema = AvroSchema::Null;
    for _ in 0..lists {
        schema = AvroSchema::Array(Box::new(alloc, schema).expect(rt, "memory"));
    }
    schema
}

#[test]
fn types_are_printed_that_nest_at_most_64_deep(rt: HostRuntime) {
    let alloc = rt.alloc();
    let opened = "[".repeat(alloc, 63).expect(&rt, "memory");
    let closed = "]".repeat(alloc, 63).expect(&rt, "memory");
    let word = format!(in alloc; "{opened}null{closed}").expect(&rt, "memory");
    assert!(rt; prints(&rt, alloc, nested_lists(&rt, alloc, 63), word.as_str()));
    assert!(rt; prints(&rt, alloc, nested_lists(&rt, alloc, 64), "-"));
}
