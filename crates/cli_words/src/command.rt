//! The commands, as words ask for them.

use arrow_core::{Items, Text};
use avro_schema::AvroField;

/// A block's rows and fields, as `block ROWS FIELD..` and `block-large ROWS FIELD..` name them.
#[derive(Drop)]
pub struct BlockWords {
    /// How many rows the block is said to have.
    pub rows: usize,
    /// The fields of a row, in order.
    pub avro_fields: Items<AvroField>,
    /// Which of the fields are kept.
    pub projection: Items<bool>,
    /// Whether the columns have large forms, as after `block-large`.
    pub large: bool,
}

/// The rows to draw, as `make START ROWS` names them.
#[derive(Clone, Copy)]
pub struct MakeWords {
    /// The state of the generator before the first draw.
    pub start: u32,
    /// How many rows to draw.
    pub rows: usize,
}

/// The file to make of JSON lines, as `avro NAME PER_BLOCK MARKER FIELD..` describes it.
#[derive(Drop)]
pub struct AvroWords {
    /// The name of the record.
    pub name: Text,
    /// How many rows a block has, at least 1.
    pub rows_per_block: usize,
    /// The sync marker.
    pub marker: [u8; 16],
    /// The fields of a row, in order.
    pub avro_fields: Items<AvroField>,
}

/// The name and the sync marker of a file's canonical form, as `rewrite NAME MARKER` gives them.
#[derive(Drop)]
pub struct RewriteWords {
    /// The name of the record.
    pub name: Text,
    /// The sync marker.
    pub marker: [u8; 16],
}

/// What the words ask for.
#[derive(Drop)]
pub enum Command {
    /// Tell what each command takes and gives.
    Help,
    /// Tell the program's name and version.
    Version,
    /// Count the rows and the blocks of an Avro file.
    Count,
    /// Show the schema of an Avro file.
    Schema,
    /// List the fields of an Avro file, with their types and whether they can be shown.
    Fields,
    /// Read one block of rows and show its kept fields.
    Block(BlockWords),
    /// Read an Avro file, and write its rows as JSON lines: of the fields of these numbers, counted
    /// from 0, or of all where there are none.
    Ndjson(Items<usize>),
    /// Draw rows, encode them, read them back, and tell what they add up to.
    Make(MakeWords),
    /// Read JSON lines, and tell the type of their rows.
    Infer,
    /// Read JSON lines, and write them as an Avro file.
    Avro(AvroWords),
    /// Read an Avro file, and write its canonical form.
    Rewrite(RewriteWords),
}
