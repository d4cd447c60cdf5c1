//! A builder of lists where allocations are refused, one after another, by
//! `tools/refuse_allocations.sh`.

use crate::making::try_list;
use arrow_builders::{MutableArray, NodeLengths};
use arrow_core::{Error, Result};
use std::alloc::Global;

/// Whether a builder's nodes hold nothing.
fn holds_nothing(builder: &MutableArray) -> bool {
    let nothing = NodeLengths { slots: 0, bytes: 0 };
    builder.node_lengths(0) == Some(nothing) && builder.node_lengths(1) == Some(nothing)
}

/// Whether a builder takes a null, and gives the array of it.
fn gives_a_null(builder: &mut MutableArray) -> Result<bool> {
    builder.reserve_for(2)?;
    builder.push_null()?;
    let array = builder.as_box()?;
    let is_null = array.len() == 1 && !array.is_valid(0);
    drop(array);
    Ok(is_null)
}

/// Whether a builder does so, or, where memory may be refused and is, can be cleared at least.
fn is_right(builder: &mut MutableArray, may_lack: bool) -> bool {
    match gives_a_null(builder) {
        Ok(is_given) => is_given && holds_nothing(builder),
        Err(error) => {
            builder.clear();
            may_lack && error == Error::OutOfMemory && holds_nothing(builder)
        }
    }
}

fn list_is_right(alloc: Global, may_lack: bool) -> bool {
    match try_list(alloc) {
        Ok(builder) => {
            let mut builder = MutableArray::List(builder);
            let is_right = is_right(&mut builder, may_lack);
            drop(builder);
            is_right
        }
        Err(error) => may_lack && error == Error::OutOfMemory,
    }
}

#[test]
fn a_list_where_memory_may_be_refused(rt: HostRuntime) {
    assert!(rt; list_is_right(rt.alloc(), true));
}

// The same calls, where memory is wanted: it fails as long as an allocation of them is refused.
#[test]
fn a_list_where_memory_is_wanted(rt: HostRuntime) {
    assert!(rt; list_is_right(rt.alloc(), false));
}
