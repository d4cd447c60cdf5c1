//! The types of JSON values, the type that several types are coerced to, and the texts of types.
#![tactic(auto)]

mod coercion;
mod columns;
mod infer_schema;
mod laws;
mod parts;
mod row_types;
mod seen;
mod text;

pub use coercion::coerce_data_type;
pub use columns::Columns;
pub use infer_schema::{infer, infer_records_schema};
pub use laws::{any_order, coercion_rules, one_at_a_time, rows_in_any_order};
pub use row_types::RowTypes;
pub use text::append_type_text;
