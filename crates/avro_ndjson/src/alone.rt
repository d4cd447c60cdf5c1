//! Whether a field's rows can be shown, or why they can't, looked at for the field alone.

ghost use Rattle.std.specs.Prelude.{◌≡◌, ◌∷◌, [], IfOk};
ghost use Rattle.arrow_core.specs.Errors.{OnlyOutOfMemory};
ghost use Rattle.avro_schema.specs.declared.schema.Record.{out-Record};
ghost use Rattle.avro_ndjson.specs.Alone.{IsAnswered};

use crate::lines::BlockEncoder;
use arrow_base::{Error, Items, Reason, Result, Text};
use avro_schema::{AvroField, Record};
use std::alloc::Global;

/// Why the rows of a record of this field alone can't be shown: `NotCarried` where its type isn't
/// carried, then `Float` where it holds a float or a double, then `NoJsonText` where it has no JSON
/// text. None where they can. `OutOfMemory` alone.
pub fn reason_not_shown(alloc: Global, field: &AvroField) -> Result<Option<Reason>>
    ensures answered { IfOk result (IsAnswered field.now) }
    ensures memory { OnlyOutOfMemory result }
{
    let root = record_of(alloc, field)?;
    match BlockEncoder::new(alloc, root, None) {
        Ok(_) => Ok(None),
        Err(Error::NotYetImplemented(reason)) => Ok(Some(reason)),
        // All fields are kept, so no other error comes of them.
        Err(_) => Err(Error::OutOfMemory),
    }
}

/// A record of this field, whose name is empty.
fn record_of(alloc: Global, field: &AvroField) -> Result<Record>
    ensures fields { IfOk result (λ root. (out-Record root).fields ≡ field.now ∷ []) }
    ensures memory { OnlyOutOfMemory result }
{
    let mut fields = Vec::with_capacity(alloc, 1)?;
    fields.push(field.try_clone(alloc)?)?;
    Ok(Record {
        name: Text::try_from_str(alloc, "")?,
        namespace: None,
        doc: None,
        fields: Items::from_vec(fields),
    })
}
