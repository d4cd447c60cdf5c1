//! Columns as JSON texts: arrays as JSON arrays, and the rows of chunks as JSON objects (RFC 8259).
#![tactic(auto)]

mod arrays;
mod joined;
mod keys;
mod lines;
mod record;

pub use arrays::Serializer;
pub use arrow_base::utf8;
pub use joined::write;
pub use lines::LineEncoder;
pub use record::RecordSerializer;
