//! Laws of two commands of the program, one after the other.
#![tactic(auto)]

mod laws;

pub use laws::avro_then_ndjson;
