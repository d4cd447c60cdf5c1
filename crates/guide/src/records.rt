//! A JSON text into columns.

ghost use Rattle.std.specs.Prelude.{IfOk};
ghost use Rattle.guide.specs.Records.{IsTableOfText};

use arrow_array::Chunk;
use arrow_base::Result;
use json_columns::{deserialize_records, infer_records_schema};
use json_tree::parse;
use std::alloc::Global;

/// The columns of a JSON array of objects, whose names and types the first object tells.
///
/// The errors are those of `parse`, of `infer_records_schema` and of `deserialize_records`; no
/// clause says so.
pub fn columns_of_records(alloc: Global, text: &[u8]) -> Result<Chunk>
    ensures table { IfOk result (IsTableOfText text.now) }
{
    let json = parse(alloc, text)?;
    let schema = infer_records_schema(alloc, &json)?;
    deserialize_records(alloc, &json, &schema)
}
