//! Rows of a block as JSON lines, without columns: each value's text is appended as the value is
//! read. What is unusual is given up, and says nothing of the bytes.
#![tactic(auto)]

mod flat;
mod given_up;
mod known;
mod rows;
mod union;
mod values;

pub use given_up::GivenUp;
pub use known::are_known;
pub use rows::push_rows;
