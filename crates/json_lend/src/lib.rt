//! JSON texts read without a tree: values are lent from the text, and nothing of them is built.
//!
//! A reader of columns needs most values only once, to push them. It goes over a text itself, name by
//! name and item by item; `lend` reads the value that is next as `json_tree::parse` does. A string
//! without escapes and a number are slices of the text. A string with escapes is read again when it
//! is asked for. An array and an object are skipped, and what stands in them is known to contracts
//! alone. Of the functions that read, only those that copy a string with escapes take memory.
#![tactic(auto)]

mod given_up;
mod lent;
mod members;
mod name;
mod names;
mod numbers;
mod skip;
mod strings;
mod values;

pub use given_up::GivenUp;
pub use lent::{EscapedString, Lent, LentArray, LentObject};
pub use members::read_name;
pub use name::Name;
pub use skip::skip_value;
pub use values::lend;
