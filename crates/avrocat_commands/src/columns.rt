//! The columns of a block's fields, in large forms where these are asked for.

ghost use Rattle.std.specs.Prelude.{◌≡◌, ◌⊎◌, map, Some, IfOk, IfErr};
ghost use Rattle.arrow_core.specs.Errors.{OnlyOutOfMemory};
ghost use Rattle.arrow_core.specs.declared.error.Error.TheVariants.{NotYetImplemented, OutOfMemory};
ghost use Rattle.arrow_core.specs.declared.error.Reason.TheVariants.{NotCarried};
ghost use Rattle.avro_schema.specs.declared.schema.Record.{out-Record};
ghost use Rattle.avro_schema.specs.Carried.{CarriedList};
ghost use Rattle.avro_schema.specs.Inferred.{inferred_columns};
ghost use Rattle.avro_types.specs.Enlarged.{enlarged};
ghost use Rattle.avrocat_commands.specs.Blocks.{AreForms, AreColumnsOf};

use arrow_base::{Error, Items, Reason, Result};
use arrow_core::Field;
use avro_read::{enlarge, infer_schema};
use avro_schema::Record;
use std::alloc::Global;

/// The columns of a record's fields, in large forms where `large`. `NotCarried` where a schema has
/// no column: no such schema is carried.
pub fn columns_of(alloc: Global, root: &Record, large: bool) -> Result<Items<Field>>
    ensures typed { IfOk result (AreColumnsOf (out-Record root.now).fields large) }
    ensures err { IfErr result (λ e. (e ≡ OutOfMemory)
        ⊎ ((e ≡ NotYetImplemented NotCarried) × (CarriedList (out-Record root.now).fields → ⊥))) }
{
    let fields = small_columns(alloc, root)?;
    Ok(in_forms(alloc, fields, large)?)
}

/// The columns of a record's fields, in small forms.
fn small_columns(alloc: Global, root: &Record) -> Result<Items<Field>>
    ensures typed { IfOk result
        (λ fields. inferred_columns (out-Record root.now).fields ≡ Some fields) }
    ensures err { IfErr result (λ e. (e ≡ OutOfMemory)
        ⊎ ((e ≡ NotYetImplemented NotCarried) × (CarriedList (out-Record root.now).fields → ⊥))) }
{
    match infer_schema(alloc, root) {
        Ok(schema) => Ok(schema.fields),
        Err(Error::NotYetImplemented(Reason::MapOrUnion)) => {
            Err(Error::NotYetImplemented(Reason::NotCarried))
        }
        Err(error) => Err(error),
    }
}

/// The fields as they are, or in large forms where `large`.
fn in_forms(alloc: Global, fields: Items<Field>, large: bool) -> Result<Items<Field>>
    ensures forms { IfOk result (AreForms large fields) }
    ensures memory { OnlyOutOfMemory result }
{
    if large {
        enlarge_all(alloc, fields.as_slice())
    } else {
        Ok(fields)
    }
}

/// The fields in large forms.
fn enlarge_all(alloc: Global, fields: &[Field]) -> Result<Items<Field>>
    ensures ok { IfOk result (λ large. large ≡ map enlarged fields.now) }
    ensures memory { OnlyOutOfMemory result }
{
    let mut large = Vec::new(alloc);
    for field in fields {
        let field = enlarge(alloc, field)?;
        large.push(field)?;
    }
    Ok(Items::from_vec(large))
}
