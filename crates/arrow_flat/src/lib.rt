//! Builders of columns without children, and what a builder with children keeps besides them.
//!
//! Contracts see a builder as its data type, its slots, and how much more it takes before memory
//! is asked for.
#![tactic(auto)]

mod binary;
mod bitmap;
mod boolean;
mod container;
mod content;
mod dictionary;
mod fixed_size_binary;
mod lengths;
mod lists;
mod marks;
mod null;
mod primitive;
mod utf8;
mod validity;

pub use binary::{BinaryValues, MutableBinaryArray};
pub use boolean::MutableBooleanArray;
pub use container::Container;
pub use content::{Content, MutableContentArray};
pub use dictionary::FixedItemsUtf8Dictionary;
pub use fixed_size_binary::MutableFixedSizeBinaryArray;
pub use lengths::NodeLengths;
pub use lists::MutableLists;
pub use marks::MutableMarks;
pub use null::MutableNullArray;
pub use primitive::MutablePrimitiveArray;
pub use utf8::{MutableUtf8Array, Utf8Values};
