//! What the rows of a block are read by.

use avro_schema::AvroField;

/// The fields of the rows, and which of them are kept: a flag for each field (`PlanFits`).
#[derive(Clone, Copy)]
pub struct Plan<'a> {
    pub avro_fields: &'a [AvroField],
    pub projection: &'a [bool],
}
