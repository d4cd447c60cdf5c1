//! Avro blocks into columns: the builders, and the decoder.
#![tactic(auto)]

mod blocks;
mod carried;
mod decode;
mod decoder;
mod fault;
mod flat;
mod items;
mod kept;
mod kept_rows;
mod laws;
mod make;
mod plan;
mod prepare;
mod reserve;
mod rows;
mod steps;

pub use blocks::{deserialize, deserialize_into};
pub use carried::check_carried;
pub use decoder::Decoder;
pub use kept::MOST_BYTES;
pub use laws::{reserved_capacity_stays, valid_blocks_are_read};
pub use prepare::make_builders;
