//! JSON lines: rows read in batches, the type of rows, rows into a column, and arrays written as
//! rows.
//!
//! `LineColumns` reads a dictionary's column into a builder of its value type and makes the
//! dictionary afterwards. The laws say of JSON texts (RFC 8259) that what is written for a slot is a
//! JSON text, and, where its type is read as it is written, is read as that slot.
#![tactic(auto)]

mod columns;
mod encode;
mod file_writer;
mod keys;
mod laws;
mod line_columns;
mod rebuilt;
mod rows;
mod serializer;
mod stored;

pub use columns::{deserialize, deserialize_iter};
pub use file_writer::FileWriter;
pub use laws::{lines_are_rows, row_texts, rows_read_back, slot_texts, slots_read_back};
pub use line_columns::LineColumns;
pub use ndjson_read::{FileReader, infer, infer_iter};
pub use serializer::Serializer;
