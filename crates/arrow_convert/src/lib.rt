//! Conversions of Avro files: into JSON lines and back, and into their canonical form.
#![tactic(auto)]

mod laws;

pub use avro_canonical::{avro_rewrite, rewriting_answers};
pub use avro_ndjson::{avro_to_ndjson, conversion_answers};
pub use laws::{canonical_forms, lines_and_back, rewriting_error, rewritten_file, rewritten_twice};
pub use ndjson_avro::{lines_answers, ndjson_to_avro};
