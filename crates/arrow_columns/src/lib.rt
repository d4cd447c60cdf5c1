//! Columns: arrays of all kinds, chunks of them, and whether two arrays are equal.
//!
//! The arrays are those of `arrow_array`. Equality stands above them, so that what builds arrays
//! doesn't rest on it.
#![tactic(auto)]

mod cell;
mod equality;

pub use arrow_array::{
    Array, BinaryArray, Bitmap, BooleanArray, Chunk, DictionaryArray, FixedSizeBinaryArray,
    FixedSizeListArray, Keys, LargeListArray, ListArray, NullArray, Part, PrimitiveArray,
    StructArray, Utf8Array,
};
pub use cell::{Cell, cell_at};
pub use equality::equal;
