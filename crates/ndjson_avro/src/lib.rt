//! JSON lines into Avro files.
#![tactic(auto)]

mod batch;
mod batches;
mod encoder;
mod laws;
mod ndjson;
mod nulls;
mod rows;
mod sizes;
mod target;

pub use laws::lines_answers;
pub use ndjson::ndjson_to_avro;
