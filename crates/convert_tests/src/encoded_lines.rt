//! Tests of what no clause of `line_encode` says: that lines are encoded and not given up. What is
//! expected is Avro 1.11, "Binary Encoding", worked by hand.
use crate::plans::{field, is_encoded, lists, pairs, plan};
use arrow_core::{DataType, TimeUnit};

#[test]
fn values_of_each_kind_are_encoded(rt: HostRuntime) {
    let alloc = rt.alloc();
    let a = field(&rt, alloc, "a", DataType::Int32, false);
    let b = field(&rt, alloc, "b", DataType::Utf8, true);
    let rows = plan(&rt, alloc, a, b);
    assert!(rt;
        is_encoded(
            &rt,
            alloc,
            &rows,
            "{\"a\":-64,\"b\":\"hi\"}",
            b"\x7f\x02\x04hi"
        )
    );
    assert!(rt;
        is_encoded(
            &rt,
            alloc,
            &rows,
            " { \"a\" : 64 , \"b\" : null } ",
            b"\x80\x01\x00"
        )
    );
    assert!(rt; is_encoded(&rt, alloc, &rows, "{\"a\":1e1}", b"\x14\x00"));
    assert!(rt;
        is_encoded(
            &rt,
            alloc,
            &rows,
            "{\"x\":[{}],\"a\":0,\"b\":\"\\n\"}",
            b"\x00\x02\x02\n"
        )
    );
    drop(rows);
    let micros = DataType::Timestamp(TimeUnit::Microsecond, None);
    let t = field(&rt, alloc, "t", micros, false);
    let c = field(&rt, alloc, "c", DataType::Boolean, true);
    let rows = plan(&rt, alloc, t, c);
    assert!(rt; is_encoded(&rt, alloc, &rows, "{\"t\":-1,\"c\":true}", b"\x01\x02\x01"));
    drop(rows);
}

#[test]
fn lists_and_structs_are_encoded(rt: HostRuntime) {
    let alloc = rt.alloc();
    let x = field(&rt, alloc, "x", DataType::Int64, false);
    let y = field(&rt, alloc, "y", lists(&rt, alloc, DataType::Binary), false);
    let item = pairs(&rt, alloc, x, y);
    let a = field(&rt, alloc, "a", lists(&rt, alloc, item), false);
    let n = field(&rt, alloc, "n", DataType::LargeUtf8, true);
    let m = field(&rt, alloc, "m", DataType::Boolean, false);
    let record = pairs(&rt, alloc, n, m);
    let b = field(&rt, alloc, "b", record, true);
    let rows = plan(&rt, alloc, a, b);
    assert!(rt;
        is_encoded(
            &rt,
            alloc,
            &rows,
            "{\"a\":[{\"x\":1,\"y\":[]},{\"x\":2,\"y\":[\"p\",\"\"]}],\"b\":{\"m\":false}}",
            b"\x04\x02\x00\x04\x04\x02p\x00\x00\x00\x02\x00\x00"
        )
    );
    assert!(rt; is_encoded(&rt, alloc, &rows, "{\"a\":[]}", b"\x00\x00"));
    drop(rows);
}

#[test]
fn a_count_may_take_two_bytes(rt: HostRuntime) {
    let alloc = rt.alloc();
    let a = field(&rt, alloc, "a", lists(&rt, alloc, DataType::Int64), false);
    let b = field(&rt, alloc, "b", DataType::Boolean, true);
    let rows = plan(&rt, alloc, a, b);
    let mut line = String::from_str(alloc, "{\"a\":[0").expect(&rt, "memory");
    for _ in 0..63 {
        line.push_str(",0").expect(&rt, "memory");
    }
    line.push_str("]}").expect(&rt, "memory");
    // The count, 64 items, the end of blocks, and the index of null.
    let mut wanted = [0u8; 68];
    wanted[0] = 0x80;
    wanted[1] = 0x01;
    assert!(rt; is_encoded(&rt, alloc, &rows, line.as_str(), &wanted));
    drop(rows);
}
