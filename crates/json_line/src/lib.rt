//! Lines of JSON read into columns, without a tree.
//!
//! This is the fast path: it takes what most lines are, and gives any other lines up, which are then
//! to be read as trees. The trees alone decide what is refused, and why.
#![tactic(auto)]

mod builders;
mod content;
mod ends;
mod field_names;
mod fill;
mod flat;
mod line;
mod made;
mod plain;
mod push;
mod single;
mod types;

pub use builders::LineBuilders;
pub use json_lend::GivenUp;
