//! The builders of the columns of a block.

ghost use Rattle.std.specs.Prelude.{◌≡◌, map, All, OnOk, IfOk, IfErr, MatchResult};
ghost use Rattle.arrow_core.specs.Errors.{OnlyOutOfMemory};
ghost use Rattle.arrow_builders.specs.Fits.{TypesFit};
ghost use Rattle.arrow_builders.specs.MutableArrays.{builder_type};
ghost use Rattle.arrow_builders.specs.Nodes.{IsEmpty};
ghost use Rattle.arrow_builders.specs.Shapes.{shape};
ghost use Rattle.arrow_builders.specs.Tight.{IsTight};
ghost use Rattle.avro_schema.specs.ValidBlock.{kept};
ghost use Rattle.avro_decode.specs.Capacity.{AtNodes};
ghost use Rattle.avro_schema.specs.Columns.{kept_types};
ghost use Rattle.avro_schema.specs.Projected.{projected, CanBeDecoded, ProjectionRefused};
ghost use Rattle.avro_decode.specs.Making.{AreNewBuilders};
ghost use Rattle.avro_schema.specs.Refusals.{BelongTogether, FieldsRefused};
ghost use Rattle.avro_decode.specs.Suits.{AllSuit};

use crate::carried::check_carried;
use crate::kept::{keep_no_float, kept_enums_fit};
use crate::make::make_builder;
use arrow_builders::MutableArray;
use arrow_core::{Error, Field, Reason, Result};
use avro_schema::AvroField;
use avro_types::all_fit;
use std::alloc::Global;

/// Ok where fields, Avro fields and projection belong together, the symbols of kept enums aside;
/// else the first refusal.
pub(crate) fn check_types(
    fields: &[Field],
    avro_fields: &[AvroField],
    projection: &[bool],
) -> Result<()>
    ensures { MatchResult result
        (λ _. CanBeDecoded (projected fields.now avro_fields.now projection.now))
        (ProjectionRefused (projected fields.now avro_fields.now projection.now)) }
{
    if fields.len() != avro_fields.len() || projection.len() != avro_fields.len() {
        return Err(Error::InvalidArgumentError(Reason::Lengths));
    }
    check_carried(avro_fields)?;
    if !all_fit(fields, avro_fields) {
        return Err(Error::InvalidArgumentError(Reason::FieldType));
    }
    if !keep_no_float(avro_fields, projection) {
        return Err(Error::NotYetImplemented(Reason::Float));
    }
    Ok(())
}

/// Ok where fields, Avro fields and projection belong together; else the first refusal.
fn check_fields(fields: &[Field], avro_fields: &[AvroField], projection: &[bool]) -> Result<()>
    ensures { MatchResult result
        (λ _. BelongTogether fields.now avro_fields.now projection.now)
        (FieldsRefused fields.now avro_fields.now projection.now) }
{
    check_types(fields, avro_fields, projection)?;
    if !kept_enums_fit(avro_fields, projection) {
        return Err(Error::Overflow);
    }
    Ok(())
}

/// One empty builder for each kept field, in order and of the field's type.
///
/// Each takes the values of its field's schema, and its `as_box` refuses with `OutOfMemory` alone.
///
/// In this order: `InvalidArgumentError(Lengths)` where the lengths of fields, Avro fields and
/// projection differ, `NotYetImplemented(NoField)` where there is no field,
/// `NotYetImplemented(NotCarried)` where a schema isn't carried, be it kept or not,
/// `InvalidArgumentError(FieldType)` where a field hasn't the type, in small or large forms, and
/// the nullability of its schema,
/// `NotYetImplemented(Float)` where a kept schema holds a float or a double at any depth, and
/// `Overflow` where one holds an enum whose symbols are more than 2147483647, or have more bytes
/// together. `OutOfMemory` at any time.
pub fn make_builders(
    alloc: Global,
    fields: &[Field],
    avro_fields: &[AvroField],
    projection: &[bool],
) -> Result<Vec<MutableArray>>
    ensures together { OnOk result (BelongTogether fields.now avro_fields.now projection.now) }
    ensures suits { IfOk result (λ builders. AllSuit (kept avro_fields.now projection.now)
        builders.items) }
    ensures data_types { IfOk result (λ builders. map builder_type builders.items
        ≡ kept_types fields.now projection.now) }
    ensures empty { IfOk result (λ builders. AtNodes IsEmpty builders.items) }
    ensures tight { IfOk result (λ builders. All IsTight builders.items) }
    ensures types_fit { IfOk result (λ builders. All (λ b. TypesFit (shape b)) builders.items) }
    ensures err { IfErr result (FieldsRefused fields.now avro_fields.now projection.now) }
{
    check_fields(fields, avro_fields, projection)?;
    new_builders(alloc, fields, avro_fields, projection)
}

fn new_builders(
    alloc: Global,
    fields: &[Field],
    avro_fields: &[AvroField],
    projection: &[bool],
) -> Result<Vec<MutableArray>>
    requires together { BelongTogether fields.now avro_fields.now projection.now }
    ensures made { IfOk result (λ builders. AreNewBuilders (kept avro_fields.now projection.now)
        (kept fields.now projection.now) builders.items) }
    ensures memory { OnlyOutOfMemory result }
{
    let mut builders = Vec::new(alloc);
    for i in 0..fields.len() {
        if projection[i] {
            let builder = make_builder(alloc, &avro_fields[i].schema, &fields[i].data_type)?;
            builders.push(builder)?;
        }
    }
    Ok(builders)
}
