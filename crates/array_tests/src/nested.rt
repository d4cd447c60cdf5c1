//! What makes an array, and its slice of the first slot.

use crate::samples::{
    begins_with, binaries, booleans, dictionary, fixed_binaries, integers, is_refused, large_lists,
    lists, nulls, pairs, structs, try_dictionary, try_fixed_binaries, try_lists, try_pairs,
};
use arrow_core::Reason;

#[test]
fn flat_arrays_begin_with_their_first_slot(rt: HostRuntime) {
    let alloc = rt.alloc();
    assert!(rt; begins_with(&rt, alloc, nulls(&rt, alloc, 2), nulls(&rt, alloc, 1)));
    let two = booleans(&rt, alloc, &[true, true], &[false, true]);
    assert!(rt; begins_with(&rt, alloc, two, booleans(&rt, alloc, &[false], &[false])));
    let two = integers(&rt, alloc, &[1, 2]);
    assert!(rt; begins_with(&rt, alloc, two, integers(&rt, alloc, &[1])));
}

#[test]
fn binary_arrays_begin_with_their_first_value(rt: HostRuntime) {
    let alloc = rt.alloc();
    let two = binaries(&rt, alloc, &[0, 1, 2], &[1, 2]);
    assert!(rt; begins_with(&rt, alloc, two, binaries(&rt, alloc, &[0, 1], &[1])));
    let two = fixed_binaries(&rt, alloc, &[1, 2, 3, 4], 2);
    assert!(rt; begins_with(&rt, alloc, two, fixed_binaries(&rt, alloc, &[1, 2], 2)));
}

#[test]
fn lists_begin_with_their_first_list(rt: HostRuntime) {
    let alloc = rt.alloc();
    let two = lists(&rt, alloc, &[0, 2, 2]);
    assert!(rt; begins_with(&rt, alloc, two, lists(&rt, alloc, &[0, 2])));
    let two = large_lists(&rt, alloc, &[0, 2, 2]);
    assert!(rt; begins_with(&rt, alloc, two, large_lists(&rt, alloc, &[0, 2])));
    let two = pairs(&rt, alloc, &[1, 2, 3, 4]);
    assert!(rt; begins_with(&rt, alloc, two, pairs(&rt, alloc, &[1, 2])));
}

#[test]
fn structs_begin_with_their_first_struct(rt: HostRuntime) {
    let alloc = rt.alloc();
    let two = structs(&rt, alloc, &[1, 2]);
    assert!(rt; begins_with(&rt, alloc, two, structs(&rt, alloc, &[1])));
}

#[test]
fn a_dictionary_begins_with_the_value_of_its_first_key(rt: HostRuntime) {
    let alloc = rt.alloc();
    let two = dictionary(&rt, alloc, &[1, 0]);
    assert!(rt; begins_with(&rt, alloc, two, dictionary(&rt, alloc, &[1])));
}

#[test]
fn parts_that_do_not_fit_are_refused(rt: HostRuntime) {
    let alloc = rt.alloc();
    assert!(rt; is_refused(try_dictionary(&rt, alloc, &[2]), Reason::ArrayParts));
    assert!(rt; is_refused(try_lists(&rt, alloc, &[0, 3]), Reason::ArrayParts));
    assert!(rt; is_refused(try_pairs(&rt, alloc, &[1, 2, 3]), Reason::ArrayParts));
    let cut = try_fixed_binaries(&rt, alloc, &[1, 2, 3], 2);
    assert!(rt; is_refused(cut, Reason::ArrayParts));
}
