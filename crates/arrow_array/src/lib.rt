//! Columns over shared buffers, in the layout of the Arrow columnar format, and chunks of them;
//! bitmaps, which keep booleans and validity in packed words.
//!
//! Contracts see an array as its data type and its slots, whatever the buffers are.
#![tactic(auto)]

mod array;
mod binary;
mod bitmap;
mod boolean;
mod buffer;
mod chunk;
mod dictionary;
mod drops;
mod fixed_size_binary;
mod fixed_size_list;
mod holding;
mod keys;
mod list;
mod null;
mod offsets;
mod part;
mod primitive;
mod ranges;
mod structs;
mod utf8;
mod validity;

pub use array::Array;
pub use binary::BinaryArray;
pub use bitmap::Bitmap;
pub use boolean::BooleanArray;
pub use chunk::Chunk;
pub use dictionary::DictionaryArray;
pub use fixed_size_binary::FixedSizeBinaryArray;
pub use fixed_size_list::FixedSizeListArray;
pub use holding::holds_dictionary;
pub use keys::Keys;
pub use list::{LargeListArray, ListArray};
pub use null::NullArray;
pub use part::Part;
pub use primitive::PrimitiveArray;
pub use structs::StructArray;
pub use utf8::Utf8Array;
