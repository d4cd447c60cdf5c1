//! One block under a projection.

ghost use Rattle.std.specs.Prelude.{[], ◌∷◌, true, false, map, IfOk};
ghost use Rattle.arrow_array.specs.Arrays.{array_slots};
ghost use Rattle.avro_schema.specs.Columns.{AreColumns};
ghost use Rattle.avro_schema.specs.declared.schema.Record.{out-Record};

use arrow_array::Chunk;
use arrow_core::Result;
use avro_read::{deserialize, infer_schema};
use avro_schema::{Block, Record};
use std::alloc::Global;

/// The first and the third column of a block of rows of three fields; the second field is skipped.
///
/// The errors are those of `infer_schema` and of `deserialize`, `InvalidArgumentError(Lengths)`
/// where the record hasn't three fields; no clause says so.
pub fn first_and_third(alloc: Global, root: &Record, block: &Block) -> Result<Chunk>
    ensures columns { IfOk result (λ chunk. AreColumns block.now.number_of_rows
        (out-Record root.now).fields (true ∷ false ∷ true ∷ []) block.now.bytes
        (map array_slots chunk)) }
{
    let fields = infer_schema(alloc, root)?.fields;
    let projection = [true, false, true];
    let avro_fields = root.fields.as_slice();
    deserialize(alloc, block, fields.as_slice(), avro_fields, &projection)
}
