//! What is asked of the fields of a record before any row is read or skipped.

ghost use Rattle.std.specs.Prelude.{MatchResult};
ghost use Rattle.avro_schema.specs.Refusals.{AreCarried, AreNotCarried};

use arrow_core::{Error, Reason, Result};
use avro_schema::AvroField;
use avro_types::all_carried;

/// Ok where there is a field, and all are carried.
///
/// `NotYetImplemented(NoField)` where there is no field, and then `NotYetImplemented(NotCarried)`
/// where one isn't carried.
pub fn check_carried(avro_fields: &[AvroField]) -> Result<()>
    ensures { MatchResult result (λ _. AreCarried avro_fields.now)
        (AreNotCarried avro_fields.now) }
{
    if avro_fields.is_empty() {
        return Err(Error::NotYetImplemented(Reason::NoField));
    }
    if !all_carried(avro_fields) {
        return Err(Error::NotYetImplemented(Reason::NotCarried));
    }
    Ok(())
}
