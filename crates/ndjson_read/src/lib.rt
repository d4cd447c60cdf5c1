//! Lines of JSON, read from a source as rows, and the type of rows.
#![tactic(auto)]

mod comparison;
mod file_reader;
mod laws;
mod line_source;
mod lines;
mod next_rows;
mod repeated;
mod rows;

pub use file_reader::FileReader;
pub use laws::{lines_in_any_order, one_answer};
pub use lines::infer;
pub use rows::infer_iter;
