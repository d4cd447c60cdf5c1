//! Whether an array has a JSON text.
ghost use Rattle.std.specs.Prelude.{◌≡◌, Some, None, MatchResult};
ghost use Rattle.std.specs.List.{list_all};
ghost use Rattle.arrow_array.specs.Arrays.{array_type, array_slots};
ghost use Rattle.json_text.specs.Refusals.{refusal, in_range};

use crate::range::dates_in_range;
use crate::types::{has_offsets, has_text};
use arrow_array::Array;
use arrow_core::{Error, Reason, Result};

/// Whether the dates that the array shows are in range.
fn all_in_range(array: &Array) -> bool
    ensures { result ≡ list_all (in_range (array_type array.now)) (array_slots array.now) }
{
    dates_in_range(array, 0, array.len())
}

/// Whether the array has a JSON text, by its type and its slots. It takes no memory.
///
/// `NotYetImplemented(NoJsonText)` where its type has none; then `InvalidArgumentError(ZoneOffset)`
/// where the zone of a timestamp, at any depth, is no offset; then
/// `InvalidArgumentError(DateRange)` where a date or timestamp that it shows isn't in a year from 0
/// to 9999.
pub fn check(array: &Array) -> Result<()>
    ensures { MatchResult result
        (λ _. refusal (array_type array.now) (array_slots array.now) ≡ None)
        (λ e. refusal (array_type array.now) (array_slots array.now) ≡ Some e) }
{
    if !has_text(array.data_type()) {
        return Err(Error::NotYetImplemented(Reason::NoJsonText));
    }
    if !has_offsets(array.data_type()) {
        return Err(Error::InvalidArgumentError(Reason::ZoneOffset));
    }
    if !all_in_range(array) {
        return Err(Error::InvalidArgumentError(Reason::DateRange));
    }
    Ok(())
}
