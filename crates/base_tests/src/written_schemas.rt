//! Texts of schemas that are read and written again.
use avro_file::{read_schema_text, schema_text};
use std::alloc::Global;

/// Whether the text of the schema that one text declares is the other.
fn is_written_as(alloc: Global, text: &str, written: &str) -> bool {
    let Ok(schema) = read_schema_text(alloc, text.as_bytes()) else {
        return false;
    };
    let text = schema_text(alloc, &schema);
    drop(schema);
    match text {
        Ok(bytes) => bytes.as_slice() == written.as_bytes(),
        Err(_) => false,
    }
}

static EVENT: &str =
    "{\"type\":\"record\",\"name\":\"Event\",\"namespace\":\"com.example\",\"fields\":[{\"name\":\"id\",\"type\":\"long\"},{\"name\":\"user\",\"type\":\"string\"},{\"name\":\"tags\",\"type\":{\"type\":\"array\",\"items\":[\"null\",\"string\"]}},{\"name\":\"when\",\"type\":{\"type\":\"long\",\"logicalType\":\"timestamp-millis\"}}]}";

static SUIT: &str =
    "{\"type\":\"enum\",\"name\":\"Suit\",\"doc\":\"a \\\"suit\\\"\",\"symbols\":[\"SPADES\",\"HEARTS\"]}";

static AMOUNT: &str =
    "{\"type\":\"fixed\",\"name\":\"Amount\",\"size\":8,\"logicalType\":\"decimal\",\"precision\":18,\"scale\":2}";

#[test]
fn a_written_text_is_read_and_written_again(rt: HostRuntime) {
    for text in [
        EVENT,
        SUIT,
        AMOUNT,
        "[\"null\",{\"type\":\"int\",\"logicalType\":\"date\"}]",
        "{\"type\":\"map\",\"values\":\"double\"}",
    ] {
        assert!(rt; is_written_as(rt.alloc(), text, text), "{text}");
    }
}

#[test]
fn spaces_and_unknown_attributes_are_not_written(rt: HostRuntime) {
    assert!(rt;
        is_written_as(
            rt.alloc(),
            "{ \"logicalType\" : \"uuid\", \"type\" : \"string\", \"avro.java.string\" : \"String\" }",
            "{\"type\":\"string\",\"logicalType\":\"uuid\"}",
        )
    );
}
