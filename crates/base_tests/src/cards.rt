//! Files of cards, which avro-c and Java's avro wrote: names, namespaces, docs, an enum and a fixed type.

use crate::files::{are_blocks, source};
use crate::samples::{CARDS_AND_NONE, CARDS_OF_C, CARDS_OF_JAVA, ONE_CARD, TWO_CARDS};
use arrow_base::SteadySource;
use avro_file::{
    AvroField, AvroSchema, BlockReader, Enum, Fixed, LongLogical, Record, read_metadata,
};
use std::alloc::Global;
use std::process::Abort;

fn told_enum(symbols: &Enum) -> &'static str {
    match symbols.symbols.as_slice() {
        [one, other] if one.as_str() == "SPADES" && other.as_str() == "HEARTS" => "suit",
        _ => "another enum",
    }
}

fn told_union(members: &[AvroSchema]) -> &'static str {
    match members {
        [AvroSchema::Null, AvroSchema::String(None)] => "string or null",
        _ => "another union",
    }
}

fn told_fixed(fixed: &Fixed) -> &'static str {
    if fixed.size == 2 {
        "two bytes"
    } else {
        "other bytes"
    }
}

/// A word for the schema of a field of cards.
fn told(schema: &AvroSchema) -> &'static str {
    match schema {
        AvroSchema::Enum(symbols) => told_enum(symbols),
        AvroSchema::Fixed(fixed) => told_fixed(fixed),
        AvroSchema::Union(members) => told_union(members.as_slice()),
        AvroSchema::Long(None) => "long",
        AvroSchema::Long(Some(LongLogical::TimestampMillis)) => "timestamp-millis",
        _ => "another",
    }
}

fn are_fields(fields: &[AvroField], played: &str) -> bool {
    match fields {
        [suit, id, note, last] => {
            told(&suit.schema) == "suit"
                && told(&id.schema) == "two bytes"
                && told(&note.schema) == "string or null"
                && told(&last.schema) == played
        }
        _ => false,
    }
}

/// Whether the record is the one of cards, with its doc where the writer keeps docs.
fn is_card(record: &Record, has_doc: bool, played: &str) -> bool {
    let Some(namespace) = &record.namespace else {
        return false;
    };
    record.name.as_str() == "Card"
        && namespace.as_str() == "org.cards"
        && record.doc.is_some() == has_doc
        && are_fields(record.fields.as_slice(), played)
}

/// The blocks of a file of cards, once its header was read.
fn blocks_of(
    rt: &impl Abort,
    alloc: Global,
    file: &[u8],
    has_doc: bool,
    played: &str,
) -> BlockReader<SteadySource> {
    let mut source = source(rt, alloc, file);
    let (metadata, _) = read_metadata(alloc, &mut source, 1000).expect(rt, "metadata");
    assert!(rt; is_card(&metadata.root, has_doc, played));
    let marker = metadata.marker;
    drop(metadata);
    BlockReader::new(alloc, source, marker, 1000)
}

fn read_cards(rt: &impl Abort, alloc: Global, file: &[u8], has_doc: bool, played: &str) {
    let reader = blocks_of(rt, alloc, file, has_doc, played);
    assert!(rt; are_blocks(alloc, reader, &[(1, ONE_CARD), (2, TWO_CARDS)]));
}

#[test]
fn cards_of_other_writers_are_read(rt: HostRuntime) {
    read_cards(&rt, rt.alloc(), CARDS_OF_C, false, "long");
    read_cards(&rt, rt.alloc(), CARDS_OF_JAVA, true, "timestamp-millis");
}

#[test]
fn a_block_of_no_rows_is_read(rt: HostRuntime) {
    let alloc = rt.alloc();
    let reader = blocks_of(&rt, alloc, CARDS_AND_NONE, true, "timestamp-millis");
    assert!(rt; are_blocks(alloc, reader, &[(1, ONE_CARD), (0, b""), (2, TWO_CARDS)]));
}
