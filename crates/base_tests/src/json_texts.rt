//! Tests of what no clause of `json_tree` says.
use arrow_core::{Error, Reason};
use json_tree::{JsonFault, Number, Value, parse};
use std::alloc::Global;

// RFC 8259, section 13.
static IMAGE: &str =
    "{\"Image\": {\"Width\": 800, \"Height\": 600, \"Title\": \"View from 15th Floor\", \"Thumbnail\": {\"Url\": \"http://www.example.com/image/481989943\", \"Height\": 125, \"Width\": 100}, \"Animated\": false, \"IDs\": [116, 943, 234, 38793]}}";

static PLACES: &str =
    "[{\"precision\": \"zip\", \"Latitude\": 37.7668, \"Longitude\": -122.3959, \"Address\": \"\"}, {\"Latitude\": 37.371991, \"Longitude\": -122.026020, \"Zip\": \"94085\"}]";

fn is_text(alloc: Global, bytes: &[u8]) -> bool {
    let parsed = parse(alloc, bytes);
    let is_text = parsed.is_ok();
    drop(parsed);
    is_text
}

#[test]
fn the_examples_of_the_rfc_are_read(rt: HostRuntime) {
    for text in [IMAGE, PLACES, "\"Hello world!\"", "42", "true"] {
        assert!(rt; is_text(rt.alloc(), text.as_bytes()), "{text}");
    }
}

fn is_fault(alloc: Global, bytes: &[u8], wanted: JsonFault) -> bool {
    match parse(alloc, bytes) {
        Ok(value) => {
            drop(value);
            false
        }
        Err(fault) => fault == wanted,
    }
}

#[test]
fn a_fault_of_each_kind_is_told(rt: HostRuntime) {
    assert!(rt; is_fault(rt.alloc(), b"[1,]", JsonFault::Text));
    assert!(rt; is_fault(rt.alloc(), b"\"\xc0\xaf\"", JsonFault::Text));
    let deep = vec![in rt.alloc(); b'['; 129].expect(&rt, "memory");
    assert!(rt; is_fault(rt.alloc(), &deep, JsonFault::Depth));
    assert!(rt; is_fault(rt.alloc(), &deep[1..], JsonFault::Text));
    assert!(rt; Error::from(JsonFault::Text) == Error::ExternalFormat(Reason::Json));
    assert!(rt; Error::from(JsonFault::Depth) == Error::LimitExceeded);
    assert!(rt; Error::from(JsonFault::Memory) == Error::OutOfMemory);
}

fn is_string(alloc: Global, bytes: &[u8], wanted: &str) -> bool {
    let parsed = parse(alloc, bytes);
    let is_wanted = match &parsed {
        Ok(Value::String(text)) => text.as_str() == wanted,
        _ => false,
    };
    drop(parsed);
    is_wanted
}

#[test]
fn a_string_means_its_characters(rt: HostRuntime) {
    let text = b"\"a\\n\\u00e9\\ud83d\\uDE00\"";
    assert!(rt; is_string(rt.alloc(), text, "a\n\u{e9}\u{1f600}"));
}

fn is_float(alloc: Global, bytes: &[u8], mantissa: &str, exponent: &str) -> bool {
    let parsed = parse(alloc, bytes);
    let is_wanted = match &parsed {
        Ok(Value::Number(Number::Float(before, after))) => {
            before.as_str() == mantissa && after.as_str() == exponent
        }
        _ => false,
    };
    drop(parsed);
    is_wanted
}

#[test]
fn a_number_keeps_its_digits(rt: HostRuntime) {
    assert!(rt; is_float(rt.alloc(), b"-0.50e+07", "-0.50", "+07"));
}

/// Whether an object has two members, of which `a` is true, and no `c`.
fn has_true(alloc: Global, bytes: &[u8]) -> bool {
    let parsed = parse(alloc, bytes);
    let is_wanted = match &parsed {
        Ok(Value::Object(object)) => {
            object.members().len() == 2
                && matches!(object.get("a"), Some(Value::Bool(true)))
                && object.get("c").is_none()
        }
        _ => false,
    };
    drop(parsed);
    is_wanted
}

#[test]
fn a_repeated_key_keeps_its_index_and_takes_its_last_value(rt: HostRuntime) {
    assert!(rt; has_true(rt.alloc(), b"{\"a\":1,\"b\":null,\"a\":true}"));
}
