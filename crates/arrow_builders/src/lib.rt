//! Builders of columns: a builder takes slots one after the other and hands out an array of them.
//!
//! A builder with children lends them out to be filled. Contracts see a builder as its data type,
//! its slots, and how much more each of its nodes takes before memory is asked for.
#![tactic(auto)]

mod array;
mod every;
mod find;
mod fixed_size_list;
mod flat;
mod large_list;
mod list;
mod structs;

pub use array::MutableArray;
pub use arrow_flat::{
    BinaryValues, Container, Content, FixedItemsUtf8Dictionary, MutableBinaryArray,
    MutableBooleanArray, MutableContentArray, MutableFixedSizeBinaryArray, MutableNullArray,
    MutablePrimitiveArray, MutableUtf8Array, NodeLengths, Utf8Values,
};
pub use fixed_size_list::MutableFixedSizeListArray;
pub use large_list::DynMutableLargeListArray;
pub use list::DynMutableListArray;
pub use structs::DynMutableStructArray;
