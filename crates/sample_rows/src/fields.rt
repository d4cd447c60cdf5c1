//! The fields of the rows.
ghost use Rattle.std.specs.Prelude.{◌≡◌, ◌∷◌, [], None, IfOk};
ghost use Rattle.arrow_core.specs.Errors.{OnlyOutOfMemory};
ghost use Rattle.avro_schema.specs.declared.schema.Schema.{Null, String, Array, Union};
ghost use Rattle.sample_rows.specs.Fields as spec;

use arrow_core::{Box, Items, Result, Text};
use avro_schema::{AvroField, AvroSchema};
use std::alloc::Global;

fn field(alloc: Global, name: &str, schema: AvroSchema) -> Result<AvroField>
    ensures field { IfOk result (λ f. f ≡ record { name = name.now; doc = None; schema = schema }) }
    ensures memory { OnlyOutOfMemory result }
{
    Ok(AvroField {
        name: Text::try_from_str(alloc, name)?,
        doc: None,
        schema,
    })
}

/// Null or a string.
fn optional_string(alloc: Global) -> Result<AvroSchema>
    ensures schema { IfOk result (λ s. s ≡ Union (Null ∷ String None ∷ [])) }
    ensures memory { OnlyOutOfMemory result }
{
    let mut members = Vec::with_capacity(alloc, 2)?;
    members.push(AvroSchema::Null)?;
    members.push(AvroSchema::String(None))?;
    Ok(AvroSchema::Union(Items::from_vec(members)))
}

/// Any number of strings.
fn strings(alloc: Global) -> Result<AvroSchema>
    ensures schema { IfOk result (λ s. s ≡ Array (String None)) }
    ensures memory { OnlyOutOfMemory result }
{
    Ok(AvroSchema::Array(Box::new(alloc, AvroSchema::String(None))?))
}

/// The fields of the rows, in order.
pub(crate) fn row_fields(alloc: Global) -> Result<Items<AvroField>>
    ensures fields { IfOk result (λ fields. fields ≡ spec.row_fields) }
    ensures memory { OnlyOutOfMemory result }
{
    let mut fields = Vec::with_capacity(alloc, 4)?;
    fields.push(field(alloc, "id", AvroSchema::Long(None))?)?;
    fields.push(field(alloc, "user", optional_string(alloc)?)?)?;
    fields.push(field(alloc, "tags", strings(alloc)?)?)?;
    fields.push(field(alloc, "ok", AvroSchema::Boolean)?)?;
    Ok(Items::from_vec(fields))
}
