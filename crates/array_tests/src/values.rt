//! The slots of arrays. What is expected is worked by hand (Arrow columnar format).

use crate::samples::{
    binaries, booleans, dictionary, fixed_binaries, integers, large_lists, lists, pairs, structs,
};
use arrow_columns::{Array, Part, PrimitiveArray};

/// Whether these are null and true.
fn are_null_and_true(array: &Array) -> bool {
    match array {
        Array::Boolean(values) => {
            values.len() == 2 && !values.is_valid(0) && values.is_valid(1) && values.value(1)
        }
        _ => false,
    }
}

#[test]
fn a_boolean_is_null_where_its_validity_is_false(rt: HostRuntime) {
    let array = booleans(&rt, rt.alloc(), &[true, true], &[false, true]);
    assert!(rt; are_null_and_true(&array));
    drop(array);
}

/// Whether there are two binary values, and these are they.
fn are_binary(array: &Array, one: &[u8], other: &[u8]) -> bool {
    match array {
        Array::Binary(values) => {
            values.len() == 2 && values.value(0) == one && values.value(1) == other
        }
        Array::FixedSizeBinary(values) => {
            values.len() == 2 && values.value(0) == one && values.value(1) == other
        }
        _ => false,
    }
}

#[test]
fn binary_values_lie_one_after_another(rt: HostRuntime) {
    let alloc = rt.alloc();
    let array = binaries(&rt, alloc, &[0, 1, 2], &[1, 2]);
    assert!(rt; are_binary(&array, &[1], &[2]));
    drop(array);
    let array = fixed_binaries(&rt, alloc, &[1, 2, 3, 4], 2);
    assert!(rt; are_binary(&array, &[1, 2], &[3, 4]));
    drop(array);
}

/// Whether the array lends two booleans, the second of them true.
fn lends_true(array: &Array) -> bool {
    match array {
        Array::Boolean(booleans) => booleans.values().len() == 2 && booleans.values().get(1),
        _ => false,
    }
}

/// Whether the array lends these integers.
fn lends_integers(array: &Array, values: &[i32]) -> bool {
    match array {
        Array::Int32(integers) => integers.values() == values,
        _ => false,
    }
}

/// Whether the array lends these bytes.
fn lends_bytes(array: &Array, values: &[u8]) -> bool {
    match array {
        Array::FixedSizeBinary(binaries) => binaries.values() == values,
        _ => false,
    }
}

#[test]
fn values_are_lent_as_they_lie(rt: HostRuntime) {
    let alloc = rt.alloc();
    let array = booleans(&rt, alloc, &[true, true], &[false, true]);
    assert!(rt; lends_true(&array));
    drop(array);
    let array = integers(&rt, alloc, &[1, -2]);
    assert!(rt; lends_integers(&array, &[1, -2]));
    drop(array);
    let array = fixed_binaries(&rt, alloc, &[1, 2, 3, 4], 2);
    assert!(rt; lends_bytes(&array, &[1, 2, 3, 4]));
    drop(array);
}

/// Whether these two integers stand from `start` on.
fn are_integers(integers: &PrimitiveArray<i32>, start: usize, one: i32, other: i32) -> bool {
    start < integers.len()
        && integers.len() - start >= 2
        && (integers.value(start) == one && integers.value(start + 1) == other)
}

/// Whether a list has two items, and these are they.
fn is_pair(list: Part<'_>, one: i32, other: i32) -> bool {
    match list.array {
        Array::Int32(integers) => {
            list.start <= list.end
                && list.end - list.start == 2
                && are_integers(integers, list.start, one, other)
        }
        _ => false,
    }
}

/// Whether these are the lists 1 and 2, and none.
fn are_two_and_none(array: &Array) -> bool {
    match array {
        Array::List(lists) => {
            lists.len() == 2
                && is_pair(lists.value(0), 1, 2)
                && lists.value(1).start == lists.value(1).end
        }
        Array::LargeList(lists) => {
            lists.len() == 2
                && is_pair(lists.value(0), 1, 2)
                && lists.value(1).start == lists.value(1).end
        }
        _ => false,
    }
}

#[test]
fn a_list_has_the_items_between_its_offsets(rt: HostRuntime) {
    let alloc = rt.alloc();
    let array = lists(&rt, alloc, &[0, 2, 2]);
    assert!(rt; are_two_and_none(&array));
    drop(array);
    let array = large_lists(&rt, alloc, &[0, 2, 2]);
    assert!(rt; are_two_and_none(&array));
    drop(array);
}

/// Whether these are the lists 1 and 2, and 3 and 4.
fn are_pairs(array: &Array) -> bool {
    match array {
        Array::FixedSizeList(lists) => {
            lists.len() == 2 && is_pair(lists.value(0), 1, 2) && is_pair(lists.value(1), 3, 4)
        }
        _ => false,
    }
}

#[test]
fn a_fixed_size_list_has_the_items_from_twice_its_index(rt: HostRuntime) {
    let array = pairs(&rt, rt.alloc(), &[1, 2, 3, 4]);
    assert!(rt; are_pairs(&array));
    drop(array);
}

/// Whether these are structs of 1 and of 2.
fn are_structs(array: &Array) -> bool {
    match array {
        Array::Struct(structs) => match structs.values() {
            [Array::Int32(integers)] => structs.len() == 2 && are_integers(integers, 0, 1, 2),
            _ => false,
        },
        _ => false,
    }
}

#[test]
fn a_struct_has_the_slots_of_its_children(rt: HostRuntime) {
    let array = structs(&rt, rt.alloc(), &[1, 2]);
    assert!(rt; are_structs(&array));
    drop(array);
}

/// Whether the values are A and B.
fn are_strings(values: &Array) -> bool {
    match values {
        Array::LargeUtf8(values) => {
            values.len() == 2 && values.value(0) == "A" && values.value(1) == "B"
        }
        _ => false,
    }
}

/// Whether the keys are 1 and 0, and the values A and B.
fn are_b_and_a(array: &Array) -> bool {
    match array {
        Array::Dictionary(array) => {
            let keys = array.keys();
            keys.len() == 2
                && (keys.index(0) == Some(1) && keys.index(1) == Some(0))
                && are_strings(array.values())
        }
        _ => false,
    }
}

#[test]
fn a_dictionary_has_its_keys_and_its_values(rt: HostRuntime) {
    let array = dictionary(&rt, rt.alloc(), &[1, 0]);
    assert!(rt; are_b_and_a(&array));
    drop(array);
}
