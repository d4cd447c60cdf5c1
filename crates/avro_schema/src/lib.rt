//! Avro: schemas, blocks of a file, and the bytes that a reader takes from the start; the grammar of
//! Avro's binary encoding: which bytes encode which slots under a schema, which are skipped, and
//! the rows of a block.
//!
//! The definitions of the grammar lie in `specs/`. The functions of `laws` and `type_laws` do
//! nothing: the contract of each is a law of the definitions.
#![tactic(auto)]

mod block;
mod cloned;
mod cursor;
mod equality;
mod laws;
mod number;
mod schema;
mod type_laws;

pub use block::Block;
pub use cursor::{Cursor, SliceCursor};
pub use equality::equality_law;
pub use laws::{
    at_least_one_byte, broken_is_never_whole, composites, examples, kept_can_be_skipped,
    no_proper_prefix, one_break, one_slot, one_table, rows_or_negative_size,
};
pub use number::{next_number, zigzag_i64};
pub use schema::{
    AvroField, BytesLogical, Enum, Fixed, FixedLogical, IntLogical, LongLogical, Record, Schema,
    Schema as AvroSchema, StringLogical,
};
pub use type_laws::{type_examples, types_by_lists, types_of_schemas};
