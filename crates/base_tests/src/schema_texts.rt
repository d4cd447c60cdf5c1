//! Texts of schemas that are read.
use avro_file::{SchemaTextFault, read_schema_text};
use avro_schema::{AvroSchema, BytesLogical, Fixed, FixedLogical, IntLogical, LongLogical};
use std::alloc::Global;

fn told_fixed(fixed: &Fixed) -> &'static str {
    match fixed.logical {
        None => "fixed",
        Some(FixedLogical::Duration) => "duration",
        Some(FixedLogical::Decimal(_, _)) => "decimal",
    }
}

/// A word for some schemas.
fn told(schema: &AvroSchema) -> &'static str {
    match schema {
        AvroSchema::Int(None) => "int",
        AvroSchema::Int(Some(IntLogical::Date)) => "date",
        AvroSchema::Long(Some(LongLogical::TimestampNanos)) => "timestamp-nanos",
        AvroSchema::Bytes(None) => "bytes",
        AvroSchema::Bytes(Some(BytesLogical::Decimal(4, 0))) => "decimal(4,0)",
        AvroSchema::Fixed(fixed) => told_fixed(fixed),
        _ => "another",
    }
}

fn told_fault(fault: SchemaTextFault) -> &'static str {
    match fault {
        SchemaTextFault::Form => "Form",
        SchemaTextFault::Reference => "Reference",
        SchemaTextFault::Depth => "Depth",
        SchemaTextFault::Memory => "Memory",
    }
}

/// The word for the schema that a text declares, or for why there is none.
fn read_as(alloc: Global, text: &[u8]) -> &'static str {
    match read_schema_text(alloc, text) {
        Ok(schema) => {
            let told = told(&schema);
            drop(schema);
            told
        }
        Err(fault) => told_fault(fault),
    }
}

#[test]
fn texts_declare_schemas_or_have_a_fault(rt: HostRuntime) {
    let table: [(&str, &str); 16] = [
        ("\"int\"", "int"),
        ("{}", "Form"),
        ("\"int", "Form"),
        ("\"Foo\"", "Reference"),
        ("[\"Foo\",{}]", "Form"),
        ("{\"type\":\"int\",\"logicalType\":\"decimal\"}", "int"),
        (
            "{\"type\":{\"type\":\"int\"},\"logicalType\":\"date\"}",
            "int",
        ),
        ("{\"type\":\"int\",\"logicalType\":\"date\"}", "date"),
        (
            "{\"type\":\"long\",\"logicalType\":\"timestamp-nanos\"}",
            "timestamp-nanos",
        ),
        (
            "{\"type\":\"bytes\",\"logicalType\":\"decimal\",\"precision\":4}",
            "decimal(4,0)",
        ),
        (
            "{\"type\":\"bytes\",\"logicalType\":\"decimal\",\"precision\":4,\"scale\":5}",
            "bytes",
        ),
        (
            "{\"type\":\"bytes\",\"logicalType\":\"decimal\",\"precision\":4,\"scale\":null}",
            "bytes",
        ),
        (
            "{\"type\":\"bytes\",\"logicalType\":\"decimal\",\"precision\":4.0}",
            "bytes",
        ),
        (
            "{\"type\":\"fixed\",\"name\":\"d\",\"size\":12,\"logicalType\":\"duration\"}",
            "duration",
        ),
        (
            "{\"type\":\"fixed\",\"name\":\"d\",\"size\":11,\"logicalType\":\"duration\"}",
            "fixed",
        ),
        ("{\"type\":\"record\"}", "Form"),
    ];
    for (text, wanted) in table {
        assert!(rt; read_as(rt.alloc(), text.as_bytes()) == wanted, "{text}");
    }
}

#[test]
fn brackets_nest_128_deep(rt: HostRuntime) {
    let deep = vec![in rt.alloc(); b'['; 129].expect(&rt, "memory");
    assert!(rt; read_as(rt.alloc(), &deep) == "Depth");
}
