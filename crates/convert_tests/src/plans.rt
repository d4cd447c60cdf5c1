//! Columns, and the rows of lines under them, encoded.
use arrow_core::{Box, DataType, Field, Items, Metadata, Schema, Text};
use avro_types::to_record;
use line_encode::LinePlan;
use std::alloc::Global;
use std::process::Abort;

pub fn field(
    rt: &impl Abort,
    alloc: Global,
    name: &str,
    data_type: DataType,
    is_nullable: bool,
) -> Field {
    let name = Text::try_from_str(alloc, name).expect(rt, "memory");
    Field::new(alloc, name, data_type, is_nullable)
}

/// Lists of items of this type, none of which is null.
pub fn lists(rt: &impl Abort, alloc: Global, item: DataType) -> DataType {
    let item = field(rt, alloc, "item", item, false);
    DataType::List(Box::new(alloc, item).expect(rt, "memory"))
}

/// Structs of two fields.
pub fn pairs(rt: &impl Abort, alloc: Global, one: Field, other: Field) -> DataType {
    let fields = vec![in alloc; one, other].expect(rt, "memory");
    DataType::Struct(Items::from_vec(fields))
}

/// The plan of rows of two columns.
pub fn plan(rt: &impl Abort, alloc: Global, one: Field, other: Field) -> LinePlan {
    let fields = vec![in alloc; one, other].expect(rt, "memory");
    let schema = Schema {
        fields: Items::from_vec(fields),
        metadata: Metadata::new(alloc),
    };
    let root = to_record(alloc, &schema).expect(rt, "a record");
    LinePlan::new(alloc, schema.fields.as_slice(), &root).expect(rt, "a plan")
}

/// Whether a line is the row with this encoding.
pub fn is_encoded(
    rt: &impl Abort,
    alloc: Global,
    plan: &LinePlan,
    line: &str,
    encoding: &[u8],
) -> bool {
    let lines = [Text::try_from_str(alloc, line).expect(rt, "memory")];
    let mut out = Vec::new(alloc);
    plan.encode_lines(alloc, &lines, &mut out).is_ok() && out.as_slice() == encoding
}
