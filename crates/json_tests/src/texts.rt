//! The text of a slot of each type that has one. Strings with escapes are what Python's `json`
//! writes of the same characters; dates are of RFC 3339, section 5.6.

use crate::samples::{
    booleans, days, dictionary, large_list, list_with_a_null, lists, longs, nulls, numbers, pairs,
    short_string, slot_is, slots_are, string, struct_of, structs, timestamp,
};
use arrow_columns::Array;
use arrow_core::DataType;

#[test]
fn nulls_and_booleans_are_words(rt: HostRuntime) {
    let alloc = rt.alloc();
    assert!(rt; slot_is(&rt, alloc, nulls(&rt, alloc), 0, "null"));
    assert!(rt; slot_is(&rt, alloc, booleans(&rt, alloc), 0, "true"));
    assert!(rt; slot_is(&rt, alloc, booleans(&rt, alloc), 1, "null"));
    assert!(rt; slot_is(&rt, alloc, booleans(&rt, alloc), 2, "false"));
}

#[test]
fn signed_integers_are_decimal(rt: HostRuntime) {
    let alloc = rt.alloc();
    let array = Array::Int8(numbers(&rt, alloc, DataType::Int8, &[-128i8]));
    assert!(rt; slot_is(&rt, alloc, array, 0, "-128"));
    let array = Array::Int16(numbers(&rt, alloc, DataType::Int16, &[-32768i16]));
    assert!(rt; slot_is(&rt, alloc, array, 0, "-32768"));
    let array = Array::Int32(numbers(&rt, alloc, DataType::Int32, &[0i32]));
    assert!(rt; slot_is(&rt, alloc, array, 0, "0"));
    let array = longs(&rt, alloc, &[i64::MIN]);
    assert!(rt; slot_is(&rt, alloc, array, 0, "-9223372036854775808"));
}

#[test]
fn unsigned_integers_are_decimal(rt: HostRuntime) {
    let alloc = rt.alloc();
    let array = Array::UInt8(numbers(&rt, alloc, DataType::UInt8, &[255u8]));
    assert!(rt; slot_is(&rt, alloc, array, 0, "255"));
    let array = Array::UInt16(numbers(&rt, alloc, DataType::UInt16, &[65535u16]));
    assert!(rt; slot_is(&rt, alloc, array, 0, "65535"));
    let array = Array::UInt32(numbers(&rt, alloc, DataType::UInt32, &[u32::MAX]));
    assert!(rt; slot_is(&rt, alloc, array, 0, "4294967295"));
    let array = Array::UInt64(numbers(&rt, alloc, DataType::UInt64, &[u64::MAX]));
    assert!(rt; slot_is(&rt, alloc, array, 0, "18446744073709551615"));
}

#[test]
fn strings_are_escaped(rt: HostRuntime) {
    let alloc = rt.alloc();
    assert!(rt; slot_is(&rt, alloc, string(&rt, alloc, "plain"), 0, "\"plain\""));
    assert!(rt; slot_is(&rt, alloc, short_string(&rt, alloc), 0, "\"x\""));
    let array = string(
        &rt,
        alloc,
        "\u{8}\u{9}\u{a}\u{c}\u{d}\u{1f}\"\\/\u{7f}\u{e9}",
    );
    assert!(rt;
        slot_is(
            &rt,
            alloc,
            array,
            0,
            "\"\\b\\t\\n\\f\\r\\u001f\\\"\\\\/\u{7f}\u{e9}\""
        )
    );
    assert!(rt; slot_is(&rt, alloc, dictionary(&rt, alloc), 0, "\"x\""));
}

#[test]
fn an_escape_is_found_in_each_chunk(rt: HostRuntime) {
    let alloc = rt.alloc();
    let array = string(&rt, alloc, "0\"2");
    assert!(rt; slot_is(&rt, alloc, array, 0, "\"0\\\"2\""));
    let array = string(&rt, alloc, "0123\"5");
    assert!(rt; slot_is(&rt, alloc, array, 0, "\"0123\\\"5\""));
    let array = string(&rt, alloc, "0123456789abcde\"");
    assert!(rt; slot_is(&rt, alloc, array, 0, "\"0123456789abcde\\\"\""));
    let array = string(&rt, alloc, "0123456789abcdef0123456\"");
    assert!(rt; slot_is(&rt, alloc, array, 0, "\"0123456789abcdef0123456\\\"\""));
    let array = string(&rt, alloc, "0123456789abcdef01234567012\"");
    assert!(rt; slot_is(&rt, alloc, array, 0, "\"0123456789abcdef01234567012\\\"\""));
    let array = string(&rt, alloc, "0123456789abcdef01234567012301\"");
    assert!(rt;
        slot_is(
            &rt,
            alloc,
            array,
            0,
            "\"0123456789abcdef01234567012301\\\"\""
        )
    );
}

#[test]
fn a_list_shows_what_lies_between_its_offsets(rt: HostRuntime) {
    let alloc = rt.alloc();
    assert!(rt; slot_is(&rt, alloc, lists(&rt, alloc, &[1, 3, 3]), 0, "[2,3]"));
    assert!(rt; slot_is(&rt, alloc, lists(&rt, alloc, &[0, 0, 3]), 0, "[]"));
    assert!(rt; slot_is(&rt, alloc, lists(&rt, alloc, &[0, 0, 3]), 1, "null"));
    assert!(rt; slot_is(&rt, alloc, large_list(&rt, alloc), 0, "[1,2,3]"));
    assert!(rt; slot_is(&rt, alloc, pairs(&rt, alloc), 1, "[3,4]"));
}

#[test]
fn slots_of_one_kind_stand_side_by_side(rt: HostRuntime) {
    let alloc = rt.alloc();
    assert!(rt; slots_are(&rt, alloc, booleans(&rt, alloc), "true,null,false"));
    let array = Array::UInt8(numbers(&rt, alloc, DataType::UInt8, &[0u8, 255]));
    assert!(rt; slots_are(&rt, alloc, array, "0,255"));
    let array = Array::Int32(numbers(&rt, alloc, DataType::Date32, &[0i32, -1]));
    assert!(rt; slots_are(&rt, alloc, array, "\"1970-01-01\",\"1969-12-31\""));
    assert!(rt; slots_are(&rt, alloc, nulls(&rt, alloc), "null"));
    assert!(rt; slots_are(&rt, alloc, lists(&rt, alloc, &[1, 3, 3]), "[2,3],null"));
    assert!(rt; slots_are(&rt, alloc, pairs(&rt, alloc), "[1,2],[3,4]"));
    assert!(rt; slots_are(&rt, alloc, dictionary(&rt, alloc), "\"x\""));
    let array = struct_of(
        &rt,
        alloc,
        longs(&rt, alloc, &[1, 2, 3]),
        booleans(&rt, alloc),
    );
    let objects = "{\"p\":1,\"q\\\"\":true},{\"p\":2,\"q\\\"\":null},{\"p\":3,\"q\\\"\":false}";
    assert!(rt; slots_are(&rt, alloc, array, objects));
}

#[test]
fn a_null_item_is_null(rt: HostRuntime) {
    let alloc = rt.alloc();
    assert!(rt; slot_is(&rt, alloc, list_with_a_null(&rt, alloc), 0, "[1,null]"));
}

#[test]
fn a_struct_is_an_object(rt: HostRuntime) {
    let alloc = rt.alloc();
    let array = structs(&rt, alloc);
    assert!(rt; slot_is(&rt, alloc, array, 0, "{\"a\\\"\":-5,\"b\":\"x\"}"));
}

#[test]
fn dates_and_timestamps_are_strings(rt: HostRuntime) {
    let alloc = rt.alloc();
    assert!(rt; slot_is(&rt, alloc, days(&rt, alloc, 19724), 0, "\"2024-01-02\""));
    let array = Array::Int64(numbers(&rt, alloc, DataType::Date64, &[-1i64]));
    assert!(rt; slot_is(&rt, alloc, array, 0, "\"1969-12-31\""));
    let array = timestamp(&rt, alloc, "", 1500000);
    assert!(rt; slot_is(&rt, alloc, array, 0, "\"1970-01-01 00:00:01.500\""));
    let array = timestamp(&rt, alloc, "05:30", 0);
    assert!(rt; slot_is(&rt, alloc, array, 0, "\"1970-01-01T05:30:00+05:30\""));
    let array = timestamp(&rt, alloc, "UTC", -1);
    assert!(rt; slot_is(&rt, alloc, array, 0, "\"1969-12-31T23:59:59.999999+00:00\""));
}
