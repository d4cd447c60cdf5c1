//! Reading Avro's binary encoding from left to right: functions on lists, in `specs/`, which the
//! checker computes, and which a decoder is proved against. Nobody has to believe them: each is
//! proved sound and complete for the relation of the grammar that it reads by. The functions of
//! `laws` do nothing; the contract of each is such a law, or a list of worked examples of the
//! grammar. `ByteReader` is the cursor over which values are decoded and skipped.
#![tactic(auto)]

mod byte_reader;
mod laws;

pub use byte_reader::{ByteReader, Lent, read_length};
pub use laws::{
    blocks_are_read, composites_are_read, examples, numbers_are_read, rows_are_read,
    values_are_read, values_are_skipped,
};
