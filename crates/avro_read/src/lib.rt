//! Reading Avro: the schema of the columns of a record, the same in large forms, the builders,
//! blocks into columns, and files block by block.
#![tactic(auto)]

mod laws;
mod reader;

pub use avro_decode::{
    Decoder, deserialize, deserialize_into, make_builders, reserved_capacity_stays,
    valid_blocks_are_read,
};
pub use avro_types::{enlarge, infer_schema};
pub use laws::narrower_reads;
pub use reader::Reader;
