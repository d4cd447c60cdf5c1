//! Columns into Avro: the record of a schema of columns, and rows in the one canonical encoding.
#![tactic(auto)]

mod clean;
mod flaws;
mod laws;
mod pairs;
mod rows;
mod serializer;

pub use avro_encode::{canonical_encoding, decimal_sizes};
pub use avro_types::{can_serialize, name_types, schema_and_back, to_record, to_record_with};
pub use laws::{canonical_tables, serializable_pairs, serialized_tables};
pub use rows::serialize;
pub use serializer::{BoxSerializer, new_serializer};
