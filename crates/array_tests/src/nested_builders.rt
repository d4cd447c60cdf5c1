//! Each builder with children, and a builder of any kind that is used again.

ghost use Rattle.std.specs.Prelude.{◌≡◌, ◌<◌, length, vec_len};
ghost use Rattle.arrow_array.specs.FixedLists.{list_size};

use crate::making::{new_integers, new_large_list, new_list, new_pair, new_struct};
use arrow_array::Array;
use arrow_builders::{
    DynMutableLargeListArray, DynMutableListArray, DynMutableStructArray, MutableArray,
    MutableFixedSizeListArray, NodeLengths,
};
use arrow_core::{Error, Reason};
use std::process::Abort;

fn push_integer(rt: &impl Abort, child: &mut MutableArray, number: i32) {
    match child {
        MutableArray::Int32(numbers) => numbers.push(Some(number)).expect(rt, "memory"),
        _ => {}
    }
}

/// The array of a builder, which is empty then.
fn given(rt: &impl Abort, mut builder: MutableArray) -> Array {
    let array = builder.as_box().expect(rt, "an array");
    assert!(rt; builder.len() == 0);
    drop(builder);
    array
}

/// Whether an array is that of 5 alone.
fn is_five(array: &Array) -> bool {
    match array {
        Array::Int32(numbers) => numbers.len() == 1 && numbers.value(0) == 5,
        _ => false,
    }
}

/// Pushes the list of what the child took since the last one.
fn push_list(rt: &impl Abort, builder: &mut MutableArray) {
    match builder {
        MutableArray::List(lists) => lists.try_push_valid().expect(rt, "memory"),
        MutableArray::LargeList(lists) => lists.try_push_valid().expect(rt, "memory"),
        _ => {}
    }
}

/// The array of a list of what the child took, a null and an empty list.
fn given_three(rt: &impl Abort, mut builder: MutableArray) -> Array {
    push_list(rt, &mut builder);
    builder.push_null().expect(rt, "memory");
    push_list(rt, &mut builder);
    given(rt, builder)
}

/// Whether an array has three slots, of which the second alone is null.
fn has_null_between(array: &Array) -> bool {
    array.len() == 3 && array.is_valid(0) && !array.is_valid(1) && array.is_valid(2)
}

fn given_lists(rt: &impl Abort, mut builder: DynMutableListArray) -> Array {
    push_integer(rt, builder.mut_values(), 5);
    given_three(rt, MutableArray::List(builder))
}

/// Whether an array is that of the list of 5, a null and an empty list.
fn are_lists(array: Array) -> bool {
    let holds = match &array {
        Array::List(lists) => {
            has_null_between(&array)
                && lists.offsets() == [0, 1, 1, 1].as_slice()
                && is_five(lists.values())
        }
        _ => false,
    };
    drop(array);
    holds
}

#[test]
fn lists_end_where_their_child_does_and_a_null_has_no_items(rt: HostRuntime) {
    assert!(rt; are_lists(given_lists(&rt, new_list(&rt, rt.alloc()))));
}

fn given_large_lists(rt: &impl Abort, mut builder: DynMutableLargeListArray) -> Array {
    push_integer(rt, builder.mut_values(), 5);
    given_three(rt, MutableArray::LargeList(builder))
}

/// Whether an array is that of these three, with offsets of 64 bits.
fn are_large_lists(array: Array) -> bool {
    let holds = match &array {
        Array::LargeList(lists) => {
            has_null_between(&array)
                && lists.offsets() == [0, 1, 1, 1].as_slice()
                && is_five(lists.values())
        }
        _ => false,
    };
    drop(array);
    holds
}

#[test]
fn large_lists_end_where_their_child_does_and_a_null_has_no_items(rt: HostRuntime) {
    assert!(rt; are_large_lists(given_large_lists(&rt, new_large_list(&rt, rt.alloc()))));
}

fn gives_no_array(builder: &mut MutableArray) -> bool {
    match builder.as_box() {
        Ok(array) => {
            drop(array);
            false
        }
        Err(error) => error == Error::InvalidArgumentError(Reason::ArrayParts),
    }
}

/// Whether a builder of lists whose child was emptied takes no list, and gives no array.
fn is_refused(rt: &impl Abort, mut builder: DynMutableListArray) -> bool {
    push_integer(rt, builder.mut_values(), 5);
    builder.try_push_valid().expect(rt, "memory");
    builder.mut_values().clear();
    assert!(rt; builder.try_push_valid() == Err(Error::Overflow));
    let mut builder = MutableArray::List(builder);
    let is_refused = gives_no_array(&mut builder);
    drop(builder);
    is_refused
}

#[test]
fn a_child_is_no_shorter_than_its_lists(rt: HostRuntime) {
    assert!(rt; is_refused(&rt, new_list(&rt, rt.alloc())));
}

/// The list of 5 and 6.
fn given_pair(rt: &impl Abort, mut builder: MutableFixedSizeListArray) -> Array
    requires empty { length builder.marks.booleans ≡ 0 }
    requires size { list_size builder.marks.data_type ≡ 2 }
{
    push_integer(rt, builder.mut_values(), 5);
    push_integer(rt, builder.mut_values(), 6);
    assert!(rt; builder.mut_values().len() == 2);
    builder.try_push_valid().expect(rt, "memory");
    given(rt, MutableArray::FixedSizeList(builder))
}

/// Whether these are 5 and 6.
fn are_five_and_six(items: &Array) -> bool {
    match items {
        Array::Int32(numbers) => {
            numbers.len() == 2
                && (numbers.is_valid(0) && numbers.value(0) == 5)
                && (numbers.is_valid(1) && numbers.value(1) == 6)
        }
        _ => false,
    }
}

fn is_one_pair(array: Array) -> bool {
    let holds = match &array {
        Array::FixedSizeList(lists) => {
            lists.len() == 1 && lists.is_valid(0) && are_five_and_six(lists.values())
        }
        _ => false,
    };
    drop(array);
    holds
}

#[test]
fn a_pair_has_two_items(rt: HostRuntime) {
    assert!(rt; is_one_pair(given_pair(&rt, new_pair(&rt, rt.alloc()))));
}

/// The struct of 5.
fn given_struct(rt: &impl Abort, mut builder: DynMutableStructArray) -> Array
    requires { 0 < vec_len builder.values }
{
    push_integer(rt, builder.mut_values(0), 5);
    builder.try_push_valid().expect(rt, "memory");
    given(rt, MutableArray::Struct(builder))
}

fn is_one_struct(array: Array) -> bool {
    let holds = match &array {
        Array::Struct(structs) => match structs.values() {
            [child] => structs.len() == 1 && structs.is_valid(0) && is_five(child),
            _ => false,
        },
        _ => false,
    };
    drop(array);
    holds
}

#[test]
fn a_struct_has_the_slots_of_its_children(rt: HostRuntime) {
    assert!(rt; is_one_struct(given_struct(&rt, new_struct(&rt, rt.alloc()))));
}

/// Whether a null takes one slot of a builder, and so many of its child.
fn null_takes(rt: &impl Abort, mut builder: MutableArray, slots: usize) -> bool {
    builder.push_null().expect(rt, "memory");
    let takes_so_many = builder.node_lengths(0) == Some(NodeLengths { slots: 1, bytes: 0 })
        && builder.node_lengths(1) == Some(NodeLengths { slots, bytes: 0 });
    drop(builder);
    takes_so_many
}

#[test]
fn a_null_struct_takes_a_slot_of_its_child(rt: HostRuntime) {
    assert!(rt; null_takes(&rt, MutableArray::Struct(new_struct(&rt, rt.alloc())), 1));
}

#[test]
fn a_null_pair_takes_two_slots_of_its_child(rt: HostRuntime) {
    let pairs = MutableArray::FixedSizeList(new_pair(&rt, rt.alloc()));
    assert!(rt; null_takes(&rt, pairs, 2));
}

fn push_eight(rt: &impl Abort, builder: &mut MutableArray) {
    for number in 0..8 {
        push_integer(rt, builder, number);
    }
}

/// Whether a builder takes eight integers once it has capacity for them, and as many again once it
/// is cleared.
fn fills_twice(rt: &impl Abort, builder: &mut MutableArray) -> bool {
    builder.reserve_for(8).expect(rt, "memory");
    push_eight(rt, builder);
    builder.clear();
    let is_empty = builder.len() == 0;
    push_eight(rt, builder);
    is_empty && builder.node_lengths(0) == Some(NodeLengths { slots: 8, bytes: 0 })
}

#[test]
fn a_builder_is_filled_twice(rt: HostRuntime) {
    let mut builder = new_integers(&rt, rt.alloc());
    assert!(rt; fills_twice(&rt, &mut builder));
    drop(builder);
}
