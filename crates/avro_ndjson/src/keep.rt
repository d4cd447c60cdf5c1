//! Which fields are kept.

ghost use Rattle.std.specs.Prelude.{◌≡◌, ◌⊎◌, Some, OnOk, IfOk, IfErr};
ghost use Rattle.std.specs.Option.{option_copied};
ghost use Rattle.arrow_core.specs.declared.error.Error.TheVariants.{InvalidArgumentError, OutOfMemory};
ghost use Rattle.arrow_core.specs.declared.error.Reason.TheVariants.{KeepNumber};
ghost use Rattle.avro_ndjson.specs.Keep.{projection_of, AreNumbers, NamesFields};

use arrow_base::{Error, Reason, Result};
use std::alloc::Global;

/// Which of `count` fields are kept: those of these numbers, or all where no numbers are given.
///
/// `InvalidArgumentError(KeepNumber)` where a number is no field's, or is named twice.
/// `OutOfMemory` at any time.
pub(crate) fn projection_of(
    alloc: Global,
    keep: Option<&[usize]>,
    count: usize,
) -> Result<Vec<bool>>
    ensures ok { IfOk result
        (λ projection. projection.items ≡ projection_of (option_copied keep.entry) count) }
    ensures fields { OnOk result (NamesFields (option_copied keep.entry) count) }
    ensures err { IfErr result (λ e. (e ≡ OutOfMemory) ⊎ ((e ≡ InvalidArgumentError KeepNumber)
        × (NamesFields (option_copied keep.entry) count → ⊥))) }
{
    match keep {
        Some(numbers) => projection_of_numbers(alloc, numbers, count),
        None => Ok(vec![in alloc; true; count]?),
    }
}

fn projection_of_numbers(alloc: Global, numbers: &[usize], count: usize) -> Result<Vec<bool>>
    ensures ok { IfOk result
        (λ projection. projection.items ≡ projection_of (Some numbers.now) count) }
    ensures fields { OnOk result (AreNumbers count numbers.now) }
    ensures err { IfErr result (λ e. (e ≡ OutOfMemory) ⊎ ((e ≡ InvalidArgumentError KeepNumber)
        × (AreNumbers count numbers.now → ⊥))) }
{
    let mut projection = vec![in alloc; false; count]?;
    for i in 0..numbers.len() {
        let number = numbers[i];
        if number >= count || projection[number] {
            return Err(Error::InvalidArgumentError(Reason::KeepNumber));
        }
        projection[number] = true;
    }
    Ok(projection)
}
