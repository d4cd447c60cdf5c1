//! Avro files into JSON lines.
#![tactic(auto)]

mod alone;
mod fields;
mod keep;
mod laws;
mod lines;
mod ndjson;
mod plan;

pub use alone::reason_not_shown;
pub use laws::conversion_answers;
pub use ndjson::avro_to_ndjson;
