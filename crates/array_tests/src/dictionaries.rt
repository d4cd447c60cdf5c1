//! Arrays that are encoded as dictionaries. What is expected was worked by hand.

use arrow_array::{Keys, PrimitiveArray, Utf8Array};
use arrow_core::{Error, IntegerType, Offset, Result};
use arrow_dictionaries::{encode_primitives, encode_strings};
use arrow_flat::{Container, MutablePrimitiveArray, MutableUtf8Array};
use std::alloc::Global;
use std::process::Abort;

/// 7, a null, -1, and 7 again.
fn integers(rt: &impl Abort, alloc: Global) -> PrimitiveArray<i64> {
    let mut builder = MutablePrimitiveArray::<i64>::with_capacity(alloc, 4).expect(rt, "memory");
    for integer in [Some(7), None, Some(-1), Some(7)] {
        builder.push(integer).expect(rt, "memory");
    }
    let array = builder.as_box().expect(rt, "an array");
    drop(builder);
    array
}

/// b, a null, the empty string, and b again.
fn strings(rt: &impl Abort, alloc: Global) -> Utf8Array<i64> {
    let mut builder = MutableUtf8Array::<i64>::with_capacity(alloc, 4).expect(rt, "memory");
    for string in [Some("b"), None, Some(""), Some("b")] {
        builder.push(string).expect(rt, "memory");
    }
    let array = builder.as_box().expect(rt, "an array");
    drop(builder);
    array
}

/// Whether the keys have this type, and are 0, null, 1 and 0.
fn are_four_keys(keys: &Keys, key: IntegerType) -> bool {
    keys.integer_type() == key
        && keys.len() == 4
        && (keys.index(0) == Some(0) && keys.index(1) == None)
        && (keys.index(2) == Some(1) && keys.index(3) == Some(0))
}

fn are_seven_and_minus_one(values: &PrimitiveArray<i64>) -> bool {
    values.len() == 2 && values.value(0) == 7 && values.value(1) == -1
}

/// Whether the integers have these values, each once, and such keys.
fn are_integers_encoded(rt: &impl Abort, alloc: Global, key: IntegerType) -> bool {
    let array = integers(rt, alloc);
    let (keys, values) = encode_primitives(alloc, &array, key).expect(rt, "keys enough");
    let are_encoded = are_four_keys(&keys, key) && are_seven_and_minus_one(&values);
    drop((array, keys, values));
    are_encoded
}

#[test]
fn an_integer_stands_once(rt: HostRuntime) {
    for key in [IntegerType::Int8, IntegerType::UInt32] {
        assert!(rt; are_integers_encoded(&rt, rt.alloc(), key));
    }
}

fn are_b_and_nothing(values: &Utf8Array<i32>) -> bool {
    values.values() == b"b".as_slice() && values.offsets() == [0, 1, 1].as_slice()
}

/// The same of the strings.
fn are_strings_encoded(rt: &impl Abort, alloc: Global, key: IntegerType) -> bool {
    let array = strings(rt, alloc);
    let (keys, values) = encode_strings(alloc, &array, key).expect(rt, "keys enough");
    let are_encoded = are_four_keys(&keys, key) && are_b_and_nothing(&values);
    drop((array, keys, values));
    are_encoded
}

#[test]
fn a_string_stands_once(rt: HostRuntime) {
    for key in [IntegerType::Int16, IntegerType::UInt64] {
        assert!(rt; are_strings_encoded(&rt, rt.alloc(), key));
    }
}

/// Whether there are keys enough: `Overflow` says that there aren't.
fn are_enough<T: Drop>(rt: &impl Abort, answer: Result<T>) -> bool {
    match answer {
        Ok(_) => true,
        Err(error) => {
            assert!(rt; error == Error::Overflow);
            false
        }
    }
}

/// `count` integers, no two the same.
fn distinct_integers(rt: &impl Abort, alloc: Global, count: u16) -> PrimitiveArray<u16> {
    let mut builder = MutablePrimitiveArray::<u16>::with_capacity(alloc, 0).expect(rt, "memory");
    for i in 0..count {
        builder.push(Some(i)).expect(rt, "memory");
    }
    let array = builder.as_box().expect(rt, "an array");
    drop(builder);
    array
}

fn push_number<O: Offset>(
    rt: &impl Abort,
    alloc: Global,
    builder: &mut MutableUtf8Array<O>,
    number: usize,
) {
    let string = format!(in alloc; "{number}").expect(rt, "memory");
    builder.push(Some(string.as_str())).expect(rt, "memory");
}

/// `count` strings, no two the same.
fn distinct_strings(rt: &impl Abort, alloc: Global, count: u16) -> Utf8Array<i32> {
    let mut builder = MutableUtf8Array::<i32>::with_capacity(alloc, 0).expect(rt, "memory");
    for i in 0..count {
        push_number(rt, alloc, &mut builder, i as usize);
    }
    let array = builder.as_box().expect(rt, "an array");
    drop(builder);
    array
}

fn integers_have_keys(rt: &impl Abort, alloc: Global, count: u16, key: IntegerType) -> bool {
    let array = distinct_integers(rt, alloc, count);
    let encoded = encode_primitives(alloc, &array, key);
    drop(array);
    are_enough(rt, encoded)
}

fn strings_have_keys(rt: &impl Abort, alloc: Global, count: u16, key: IntegerType) -> bool {
    let array = distinct_strings(rt, alloc, count);
    let encoded = encode_strings::<i32, i64>(alloc, &array, key);
    drop(array);
    are_enough(rt, encoded)
}

#[test]
fn keys_number_so_many_values(rt: HostRuntime) {
    let table = [
        (128, IntegerType::Int8, true),
        (129, IntegerType::Int8, false),
        (256, IntegerType::UInt8, true),
        (257, IntegerType::UInt8, false),
    ];
    for (count, key, wanted) in table {
        assert!(rt;
            integers_have_keys(&rt, rt.alloc(), count, key) == wanted,
            "{count}"
        );
        assert!(rt;
            strings_have_keys(&rt, rt.alloc(), count, key) == wanted,
            "{count}"
        );
    }
}

/// How many distinct strings there are.
const DISTINCT: usize = 3000;

/// Each of `DISTINCT` strings twice, in the order of the multiples of 7 modulo `DISTINCT`.
fn strings_twice(rt: &impl Abort, alloc: Global) -> Utf8Array<i64> {
    let mut builder = MutableUtf8Array::<i64>::with_capacity(alloc, 0).expect(rt, "memory");
    for i in 0..2 * DISTINCT {
        push_number(rt, alloc, &mut builder, i * 7 % DISTINCT);
    }
    let array = builder.as_box().expect(rt, "an array");
    drop(builder);
    array
}

/// Whether the keys are those of the strings, twice over.
fn are_keys_twice(keys: &Keys) -> bool {
    for i in 0..keys.len() {
        if keys.index(i) != Some(i % DISTINCT) {
            return false;
        }
    }
    keys.len() == 2 * DISTINCT
}

/// Whether these are the strings in that order.
fn are_in_order(rt: &impl Abort, alloc: Global, values: &Utf8Array<i32>) -> bool {
    for i in 0..values.len() {
        let wanted = format!(in alloc; "{}", i.wrapping_mul(7) % DISTINCT).expect(rt, "memory");
        if values.value(i) != wanted.as_str() {
            return false;
        }
    }
    values.len() == DISTINCT
}

#[test]
fn strings_stand_in_order_of_first_appearance(rt: HostRuntime) {
    let alloc = rt.alloc();
    let array = strings_twice(&rt, alloc);
    let encoded = encode_strings(alloc, &array, IntegerType::Int16);
    let (keys, values) = encoded.expect(&rt, "keys enough");
    let are_keys = are_keys_twice(&keys);
    let are_values = are_in_order(&rt, alloc, &values);
    drop((array, keys, values));
    assert!(rt; are_keys);
    assert!(rt; are_values);
}
