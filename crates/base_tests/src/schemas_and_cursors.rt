//! Tests of what no clause of `avro_schema` says.
use arrow_core::{Box, Error, Reason, Result};
use avro_schema::{AvroSchema, Cursor, LongLogical, SliceCursor, zigzag_i64};
use std::alloc::Global;
use std::process::Abort;

#[test]
fn counts_what_is_handed_out_and_what_is_jumped(rt: HostRuntime) {
    let mut cursor = SliceCursor::new(b"abcdef");
    assert!(rt; cursor.byte() == Some(b'a'));
    assert!(rt; cursor.take(2) == Some(b"bc".as_slice()));
    assert!(rt; cursor.jump(2) && cursor.left() == 1);
    assert!(rt; cursor.shown() == 3 && cursor.jumped() == 2 && cursor.calls() == 3);
}

#[test]
fn calls_that_fail_pass_nothing(rt: HostRuntime) {
    let mut cursor = SliceCursor::new(b"ab");
    assert!(rt; cursor.take(3).is_none() && !cursor.jump(3));
    assert!(rt; cursor.take(2) == Some(b"ab".as_slice()));
    assert!(rt; cursor.byte() == None);
    assert!(rt; cursor.shown() == 2 && cursor.jumped() == 0 && cursor.calls() == 4);
}

fn number_of(bytes: &[u8]) -> Result<i64> {
    zigzag_i64(&mut SliceCursor::new(bytes))
}

#[test]
fn encodes_numbers_as_the_specification_does(rt: HostRuntime) {
    for (bytes, number) in [
        (b"\x00".as_slice(), 0),
        (b"\x01".as_slice(), -1),
        (b"\x7f".as_slice(), -64),
        (b"\x80\x01".as_slice(), 64),
        (
            b"\xff\xff\xff\xff\xff\xff\xff\xff\xff\x01".as_slice(),
            i64::MIN,
        ),
        (
            b"\xfe\xff\xff\xff\xff\xff\xff\xff\xff\x01".as_slice(),
            i64::MAX,
        ),
    ] {
        assert!(rt; number_of(bytes) == Ok(number), "{number}");
    }
}

#[test]
fn takes_a_longer_encoding_and_nothing_after_it(rt: HostRuntime) {
    let mut cursor = SliceCursor::new(b"\x80\x81\x00\x05");
    assert!(rt; zigzag_i64(&mut cursor) == Ok(64) && cursor.left() == 1);
    assert!(rt; cursor.shown() == 3 && cursor.calls() == 3);
}

#[test]
fn refuses_what_is_no_number(rt: HostRuntime) {
    for bytes in [
        b"".as_slice(),
        b"\x80\x81".as_slice(),
        b"\xff\xff\xff\xff\xff\xff\xff\xff\xff\x02".as_slice(),
        b"\x80\x80\x80\x80\x80\x80\x80\x80\x80\x80\x00".as_slice(),
    ] {
        assert!(rt;
            number_of(bytes) == Err(Error::ExternalFormat(Reason::Number)),
            "{bytes:?}"
        );
    }
}

fn list(rt: &impl Abort, alloc: Global, logical: LongLogical) -> AvroSchema {
    let item = AvroSchema::Long(Some(logical));
    AvroSchema::Array(Box::new(alloc, item).expect(rt, "memory"))
}

fn are_equal(left: AvroSchema, right: AvroSchema) -> bool {
    let are_equal = left == right;
    drop((left, right));
    are_equal
}

fn is_copied(rt: &impl Abort, alloc: Global, schema: AvroSchema) -> bool {
    are_equal(schema.try_clone(alloc).expect(rt, "memory"), schema)
}

#[test]
fn schemas_are_equal_where_all_their_parts_are(rt: HostRuntime) {
    let alloc = rt.alloc();
    assert!(rt; is_copied(&rt, alloc, list(&rt, alloc, LongLogical::TimestampNanos)));
    let other = list(&rt, alloc, LongLogical::LocalTimestampNanos);
    assert!(rt; !are_equal(list(&rt, alloc, LongLogical::TimestampNanos), other));
}
