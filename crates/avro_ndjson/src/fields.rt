//! What is asked of the fields of a file's record before a block is read.

ghost use Rattle.std.specs.Prelude.{◌≡◌, length, true, All, IfOk, MatchResult};
ghost use Rattle.arrow_core.specs.declared.error.Error.TheVariants.{NotYetImplemented};
ghost use Rattle.arrow_core.specs.declared.error.Reason.TheVariants.{NoJsonText};
ghost use Rattle.arrow_core.specs.Errors.{OnlyOutOfMemory};
ghost use Rattle.avro_schema.specs.ValidBlock.{kept};
ghost use Rattle.json_text.specs.Refusals.{has_text};

use arrow_base::{Error, Field, Items, Reason, Result};
use json_text::has_text;
use std::alloc::Global;

/// `NoJsonText` where a type has no JSON text.
pub(crate) fn check_texts(fields: &[Field]) -> Result<()>
    ensures { MatchResult result (λ _. All (λ f. has_text f.data_type ≡ true) fields.now)
        (λ e. (e ≡ NotYetImplemented NoJsonText)
        × (All (λ f. has_text f.data_type ≡ true) fields.now → ⊥)) }
{
    for i in 0..fields.len() {
        if !has_text(&fields[i].data_type) {
            return Err(Error::NotYetImplemented(Reason::NoJsonText));
        }
    }
    Ok(())
}

/// The fields that are kept.
pub(crate) fn kept_fields(
    alloc: Global,
    fields: &[Field],
    projection: &[bool],
) -> Result<Items<Field>>
    requires { length fields.now ≡ length projection.now }
    ensures ok { IfOk result (λ items. items ≡ kept fields.now projection.now) }
    ensures memory { OnlyOutOfMemory result }
{
    let mut kept = Vec::new(alloc);
    for i in 0..fields.len() {
        if projection[i] {
            kept.push(fields[i].try_clone(alloc)?)?;
        }
    }
    Ok(Items::from_vec(kept))
}
