//! Tests of what no clause of `arrow_core` says.
use arrow_core::{Box, Bytes, Error, Items, Metadata, Reason, Text};
use std::alloc::Global;
use std::cmp::Ordering;
use std::process::Abort;

fn text(rt: &impl Abort, alloc: Global, text: &str) -> Text {
    Text::try_from_str(alloc, text).expect(rt, "memory")
}

#[test]
fn a_text_is_what_it_was_made_from(rt: HostRuntime) {
    let text = text(&rt, rt.alloc(), "hi");
    assert!(rt; text.as_str() == "hi");
    let copy = text.try_clone(rt.alloc()).expect(&rt, "memory");
    assert!(rt; copy == text);
    drop(copy);
    assert!(rt; Text::from_string(text.into_string()).as_str() == "hi");
}

#[test]
fn bytes_grow_at_their_end(rt: HostRuntime) {
    let mut bytes = Bytes::new(rt.alloc());
    bytes.push_slice(&[0x01]).expect(&rt, "memory");
    bytes.push_slice(&[0x02]).expect(&rt, "memory");
    assert!(rt; bytes.as_slice() == [0x01, 0x02].as_slice());
    bytes.as_mut_vec().push(0x03).expect(&rt, "memory");
    assert!(rt; bytes.as_slice() == [0x01, 0x02, 0x03].as_slice());
    bytes.clear();
    assert!(rt; bytes.as_slice().is_empty());
    drop(bytes);
}

fn copied<T: Copy>(rt: &impl Abort, alloc: Global, items: &[T]) -> Vec<T> {
    Vec::from_slice(alloc, items).expect(rt, "memory")
}

#[test]
fn bytes_are_ordered_as_lists_are(rt: HostRuntime) {
    let prefix = Bytes::try_from_slice(rt.alloc(), &[0x01, 0x02]).expect(&rt, "memory");
    let whole = Bytes::from_vec(copied(&rt, rt.alloc(), &[0x01, 0x02, 0x00]));
    assert!(rt; prefix != whole && prefix < whole);
    assert!(rt; whole.into_vec().as_slice() == [0x01, 0x02, 0x00].as_slice());
}

#[test]
fn a_key_has_its_last_value(rt: HostRuntime) {
    let mut metadata = Metadata::new(rt.alloc());
    for value in ["1", "2"] {
        let value = text(&rt, rt.alloc(), value);
        metadata
            .insert(text(&rt, rt.alloc(), "k"), value)
            .expect(&rt, "memory");
    }
    assert!(rt; metadata.get("k") == Some("2"));
    assert!(rt; metadata.get("j") == None);
    let copy = metadata.try_clone(rt.alloc()).expect(&rt, "memory");
    let is_copied = copy == metadata;
    drop((metadata, copy));
    assert!(rt; is_copied);
}

#[test]
fn lists_and_boxes_compare_as_what_they_hold(rt: HostRuntime) {
    let prefix = Items::try_from_slice(rt.alloc(), &[1, 2]).expect(&rt, "memory");
    let whole = Items::from_vec(copied(&rt, rt.alloc(), &[1, 2, 3]));
    assert!(rt; prefix.cmp(&whole) == Ordering::Less);
    let small = Box::new(rt.alloc(), prefix).expect(&rt, "memory");
    let large = Box::new(rt.alloc(), whole).expect(&rt, "memory");
    assert!(rt; small != large && small < large);
    assert!(rt; small.into_inner().into_vec().as_slice() == [1, 2].as_slice());
}

#[test]
fn an_error_is_shown_with_what_it_tells(rt: HostRuntime) {
    let lengths = Error::InvalidArgumentError(Reason::Lengths);
    for (error, shown) in [
        (lengths, "InvalidArgumentError: Lengths"),
        (Error::ReadFault { line: Some(3) }, "ReadFault: line 3"),
        (Error::ReadFault { line: None }, "ReadFault"),
        (Error::OutOfMemory, "OutOfMemory"),
    ] {
        let text = format!(in rt.alloc(); "{error}").expect(&rt, "memory");
        assert!(rt; text.as_str() == shown, "{shown}");
    }
}
