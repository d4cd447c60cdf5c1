//! The JSON text of the slots of columns, and which columns have one (RFC 8259).
#![tactic(auto)]

mod bytes;
mod checks;
mod columns;
mod integers;
mod items;
mod numbers;
mod range;
mod slots;
mod types;

pub use bytes::{Appended, push, push_boolean_if, push_comma, push_null, push_string};
pub use checks::check;
pub use columns::{Column, Key, columns_within, push_column, push_key};
pub use integers::{IntegerForm, integer_form, integer_in_range, push_integer_if};
pub use slots::{push_object, push_slot, push_slots, push_value};
pub use types::has_text;
