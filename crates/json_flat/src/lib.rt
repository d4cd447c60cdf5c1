//! JSON values (RFC 8259): what they mean under each data type, the whole values of numbers and of
//! their texts, and values into columns of a type that has no type beneath it; and whether fields have
//! distinct names.
#![tactic(auto)]

mod content;
mod exponent;
mod integer;
mod laws;
mod magnitude;
mod mantissa;
mod moment;
mod names;
mod native;
mod plain;
mod whole;

pub use content::{read_binaries, read_strings};
pub use integer::IntegerText;
pub use laws::numbers_have_values;
pub use moment::read_moments;
pub use names::have_distinct_names;
pub use native::WholeNumber;
pub use plain::{read_booleans, read_integers, read_nulls};
pub use whole::{read_whole, read_whole_text};
