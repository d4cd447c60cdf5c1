//! JSON values (RFC 8259) into columns of any type that has a JSON reading: the items of an array as
//! one column, and its objects as a chunk with a column for each field of a schema. Besides, which
//! types have a reading, which names stand twice, the type inferred of values, and the whole value
//! of a number.
#![tactic(auto)]

mod column;
mod dictionary;
mod flat;
mod gather;
mod names;
mod parts;
mod records;
mod texts;
mod types;
mod values;

pub use json_flat::{read_whole, read_whole_text};
pub use json_infer::{coerce_data_type, infer, infer_records_schema};
pub use names::names_twice;
pub use records::deserialize_records;
pub use types::has_json_reading;
pub use values::{deserialize, read_values};
