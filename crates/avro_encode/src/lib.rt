//! The canonical encoding of slots in Avro: which one it is, that it encodes the slot, and code
//! that appends it.
#![tactic(auto)]

mod append;
mod column;
mod decimal;
mod duration;
mod encoder;
mod flat;
mod laws;
mod nulls;
mod numbers;

pub use append::append_slot;
pub use encoder::ColumnEncoder;
pub use laws::{canonical_encoding, decimal_sizes};
pub use numbers::{append_counted, append_counted_after, append_number};
