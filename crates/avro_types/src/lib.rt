//! Avro schemas and the types of columns: what is asked of schemas before bytes are read, the schema
//! of their columns, the same in large forms, which types can be written, and the Avro record of
//! columns, with names for its fixed types.
#![tactic(auto)]

mod carried;
mod enums;
mod flat;
mod flat_types;
mod floats;
mod large_forms;
mod laws;
mod named;
mod names;
mod schema;
mod schemas;
mod serializable;
mod small_types;
mod types;

pub use carried::{all_carried, is_carried, is_null};
pub use enums::enums_fit;
pub use floats::has_float;
pub use large_forms::enlarge;
pub use laws::schema_and_back;
pub use named::name_types;
pub use schema::infer_schema;
pub use schemas::{to_record, to_record_with};
pub use serializable::can_serialize;
pub use small_types::is_small;
pub use types::all_fit;
