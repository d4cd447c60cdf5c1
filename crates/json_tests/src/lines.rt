//! Rows as lines.

use crate::samples::{
    booleans, chunk, days, field, longs, string, struct_of, structs, structs_named, timestamp,
};
use arrow_base::Field;
use arrow_columns::{Array, Chunk};
use arrow_core::{DataType, Error, Items, Reason};
use json_write::LineEncoder;
use std::alloc::Global;
use std::process::Abort;

/// An encoder of rows under these names.
fn encoder(rt: &impl Abort, alloc: Global, names: &[&str]) -> LineEncoder {
    let mut fields: Vec<Field> = Vec::new(alloc);
    for name in names {
        fields
            .push(field(rt, alloc, name, DataType::Null))
            .expect(rt, "memory");
    }
    LineEncoder::new(alloc, Items::from_vec(fields)).expect(rt, "memory")
}

/// The chunk of two arrays.
fn pair(rt: &impl Abort, alloc: Global, first: Array, second: Array) -> Chunk {
    let arrays = Vec::from_array(alloc, [first, second]).expect(rt, "memory");
    Chunk::try_new(arrays).expect(rt, "one length")
}

#[test]
fn chunks_are_added_line_by_line(rt: HostRuntime) {
    let alloc = rt.alloc();
    let lines = encoder(&rt, alloc, &["a\"", "b"]);
    let mut out = Vec::new(alloc);
    let first = pair(
        &rt,
        alloc,
        longs(&rt, alloc, &[1, -2, 3]),
        booleans(&rt, alloc),
    );
    let second = pair(&rt, alloc, longs(&rt, alloc, &[0]), structs(&rt, alloc));
    assert!(rt; lines.push(&mut out, &first) == Ok(()));
    assert!(rt; lines.push(&mut out, &second) == Ok(()));
    // The lines that Python's json.dumps(row, separators=(",", ":")) makes of the rows.
    let expected =
        b"{\"a\\\"\":1,\"b\":true}\n{\"a\\\"\":-2,\"b\":null}\n{\"a\\\"\":3,\"b\":false}\n{\"a\\\"\":0,\"b\":{\"a\\\"\":-5,\"b\":\"x\"}}\n";
    assert!(rt; out.as_slice() == expected.as_slice());
    drop((lines, first, second));
}

#[test]
fn names_within_structs_are_escaped_where_they_need_it(rt: HostRuntime) {
    let alloc = rt.alloc();
    let lines = encoder(&rt, alloc, &["s"]);
    let mut out = Vec::new(alloc);
    let plain = chunk(&rt, alloc, structs_named(&rt, alloc, "long"));
    let escaped = chunk(&rt, alloc, structs_named(&rt, alloc, "\\\n"));
    assert!(rt; lines.push(&mut out, &plain) == Ok(()));
    assert!(rt; lines.push(&mut out, &escaped) == Ok(()));
    // By Python's json.dumps as above.
    let expected = b"{\"s\":{\"long\":-5,\"b\":\"x\"}}\n{\"s\":{\"\\\\\\n\":-5,\"b\":\"x\"}}\n";
    assert!(rt; out.as_slice() == expected.as_slice());
    drop((lines, plain, escaped));
}

#[test]
fn a_column_comes_after_those_within_the_one_before(rt: HostRuntime) {
    let alloc = rt.alloc();
    let lines = encoder(&rt, alloc, &["s", "t"]);
    let mut out = Vec::new(alloc);
    let time = timestamp(&rt, alloc, "+01:00", 0);
    let within = struct_of(&rt, alloc, longs(&rt, alloc, &[1]), time);
    let first = struct_of(&rt, alloc, within, string(&rt, alloc, "x"));
    let row = pair(&rt, alloc, first, longs(&rt, alloc, &[-2]));
    assert!(rt; lines.push(&mut out, &row) == Ok(()));
    // By Python's json.dumps as above, of datetime.isoformat().
    let expected =
        b"{\"s\":{\"p\":{\"p\":1,\"q\\\"\":\"1970-01-01T01:00:00+01:00\"},\"q\\\"\":\"x\"},\"t\":-2}\n";
    assert!(rt; out.as_slice() == expected.as_slice());
    drop((lines, row));
}

#[test]
fn a_refused_chunk_adds_nothing(rt: HostRuntime) {
    let alloc = rt.alloc();
    let lines = encoder(&rt, alloc, &["a"]);
    let mut out = Vec::from_slice(alloc, b"x").expect(&rt, "memory");
    let late = chunk(&rt, alloc, days(&rt, alloc, 2932897));
    let refused = Err(Error::InvalidArgumentError(Reason::DateRange));
    assert!(rt; lines.push(&mut out, &late) == refused);
    let none = Chunk::try_new(Vec::new(alloc)).expect(&rt, "no arrays");
    let refused = Err(Error::InvalidArgumentError(Reason::Lengths));
    assert!(rt; lines.push(&mut out, &none) == refused);
    assert!(rt; out.as_slice() == b"x".as_slice());
    drop((lines, late, none));
}
