//! What can be said of an Avro file without looking at a row: how many rows and blocks it has, and
//! its schema.
#![tactic(auto)]

mod count;
mod laws;
mod schema;

pub use count::{FileCounts, count_rows};
pub use laws::{counting_answers, one_count};
pub use schema::schema_of;
