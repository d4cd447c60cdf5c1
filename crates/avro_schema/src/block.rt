//! One block of rows.

use arrow_core::Bytes;

/// One block of an Avro file, uncompressed: how many rows it states, and the bytes of its rows
/// (Avro 1.11, "Object Container Files").
#[derive(Drop)]
pub struct Block {
    /// How many rows the block states.
    pub number_of_rows: usize,
    /// The rows' bytes, one row after another.
    pub bytes: Bytes,
}
