//! Which arrays are equal.

use crate::samples::{
    are_equal, binaries, booleans, dates, dictionary, fixed_binaries, integers, large_lists, lists,
    nulls, pairs, strings, structs,
};

#[test]
fn nulls_are_equal_where_they_are_as_many(rt: HostRuntime) {
    let alloc = rt.alloc();
    assert!(rt; are_equal(nulls(&rt, alloc, 2), nulls(&rt, alloc, 2)));
    assert!(rt; !are_equal(nulls(&rt, alloc, 2), nulls(&rt, alloc, 1)));
}

#[test]
fn what_lies_beneath_a_null_plays_no_part(rt: HostRuntime) {
    let alloc = rt.alloc();
    let left = booleans(&rt, alloc, &[true], &[false]);
    assert!(rt; are_equal(left, booleans(&rt, alloc, &[false], &[false])));
}

#[test]
fn equal_integers_have_one_type(rt: HostRuntime) {
    let alloc = rt.alloc();
    assert!(rt; !are_equal(integers(&rt, alloc, &[1, -2]), dates(&rt, alloc, &[1, -2])));
}

#[test]
fn the_same_bytes_cut_elsewhere_are_other_strings(rt: HostRuntime) {
    let alloc = rt.alloc();
    let left = strings(&rt, alloc, &[0, 1, 2]);
    assert!(rt; are_equal(left, strings(&rt, alloc, &[0, 1, 2])));
    let left = strings(&rt, alloc, &[0, 1, 2]);
    assert!(rt; !are_equal(left, strings(&rt, alloc, &[0, 2, 2])));
}

#[test]
fn bytes_before_the_first_offset_play_no_part(rt: HostRuntime) {
    let alloc = rt.alloc();
    let later = binaries(&rt, alloc, &[1, 2], &[9, 7]);
    assert!(rt; are_equal(binaries(&rt, alloc, &[0, 1], &[7]), later));
    let other = binaries(&rt, alloc, &[0, 1], &[9, 7]);
    assert!(rt; !are_equal(binaries(&rt, alloc, &[0, 1], &[7]), other));
}

#[test]
fn equal_binary_values_have_one_size(rt: HostRuntime) {
    let alloc = rt.alloc();
    let pair = fixed_binaries(&rt, alloc, &[1, 2], 2);
    assert!(rt; !are_equal(pair, fixed_binaries(&rt, alloc, &[1, 2], 1)));
}

#[test]
fn lists_of_other_items_are_not_equal(rt: HostRuntime) {
    let alloc = rt.alloc();
    assert!(rt; !are_equal(lists(&rt, alloc, &[0, 2, 2]), lists(&rt, alloc, &[0, 1, 2])));
    let left = large_lists(&rt, alloc, &[0, 1]);
    assert!(rt; !are_equal(left, large_lists(&rt, alloc, &[1, 2])));
    assert!(rt; !are_equal(pairs(&rt, alloc, &[1, 2]), pairs(&rt, alloc, &[1, 3])));
}

#[test]
fn structs_of_other_fields_are_not_equal(rt: HostRuntime) {
    let alloc = rt.alloc();
    assert!(rt; !are_equal(structs(&rt, alloc, &[1, 2]), structs(&rt, alloc, &[1, 3])));
}

#[test]
fn other_keys_name_other_values(rt: HostRuntime) {
    let alloc = rt.alloc();
    let left = dictionary(&rt, alloc, &[1, 0]);
    assert!(rt; !are_equal(left, dictionary(&rt, alloc, &[0, 1])));
}
