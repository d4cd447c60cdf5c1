//! The record of a file of columns.
ghost use Rattle.std.specs.Prelude.{◌≡◌, IfOk, IfErr};
ghost use Rattle.arrow_core.specs.declared.types.DataType.{Struct};
ghost use Rattle.ndjson_avro.specs.Target.{HasNoTarget, HasTarget};

use crate::nulls::holds_null;
use arrow_core::{DataType, Error, Reason, Result, Schema};
use avro_schema::Record;
use avro_types::{name_types, to_record};
use json_columns::{has_json_reading, names_twice};
use std::alloc::Global;

/// The record of a file of these columns, under this name. `row_type` is the Struct of the columns.
///
/// In this order: `InvalidArgumentError(DuplicateName)` where a struct at any depth, or the schema
/// itself, names a field twice; `NotYetImplemented(NoField)` where there is no column;
/// `NotYetImplemented(NoAvroType)` where a type at any depth is Null, or has no Avro schema;
/// `NotYetImplemented(NoJsonReading)` where JSON values aren't read under a type. `OutOfMemory` at
/// any time.
pub(crate) fn make_target(
    alloc: Global,
    schema: &Schema,
    row_type: &DataType,
    name: &str,
) -> Result<Record>
    requires { row_type.now ≡ Struct schema.now.fields }
    ensures ok { IfOk result (HasTarget schema.now.fields name.now) }
    ensures err { IfErr result (HasNoTarget schema.now.fields) }
{
    if names_twice(alloc, row_type)? {
        return Err(Error::InvalidArgumentError(Reason::DuplicateName));
    }
    if schema.fields.as_slice().is_empty() {
        return Err(Error::NotYetImplemented(Reason::NoField));
    }
    let nameless = to_record(alloc, schema)?;
    if holds_null(row_type) {
        return Err(Error::NotYetImplemented(Reason::NoAvroType));
    }
    if !has_json_reading(row_type) {
        return Err(Error::NotYetImplemented(Reason::NoJsonReading));
    }
    name_types(alloc, nameless, name)
}
