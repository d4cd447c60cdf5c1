//! Lines of JSON (RFC 8259) as rows of an Avro file, without columns: each value's canonical
//! encoding is appended as the value is read.
//!
//! This is the fast path: it takes what most lines are, and gives any other lines up. These are then to
//! be read another way, which decides what is refused, and why.
#![tactic(auto)]

mod fields;
mod lines;
mod make;
mod names;
mod plan;
mod primitive;
mod push;

pub use json_lend::GivenUp;
pub use lines::LinePlan;
