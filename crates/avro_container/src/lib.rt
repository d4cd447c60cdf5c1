//! Avro object container files (Avro 1.11, "Object Container Files"): the header, blocks between
//! markers, and what is written for each block of a file.
#![tactic(auto)]

mod block_reader;
mod blocks;
mod encoded;
mod entries;
mod header;
mod laws;
mod parts;
mod writer;

pub use block_reader::BlockReader;
pub use blocks::{EncodesBlocks, write_blocks};
pub use encoded::zigzag_encode;
pub use header::{Header, read_header};
pub use laws::{block_answers, header_answers, one_file, parts_settle};
pub use parts::{Allowance, Stop, fill_buffer};
pub use writer::{write_block, write_header};
