//! What can't be held.
ghost use Rattle.std.specs.Prelude.{◌≡◌, ◌+◌, Ok, Err, MatchResult, IfOk};
ghost use Rattle.arrow_core.specs.Errors.{OnlyOutOfMemory};
ghost use Rattle.arrow_core.specs.declared.error.Error.TheVariants.{OutOfMemory};

use arrow_core::{Error, Result};

/// The same answer, with `OutOfMemory` for any error: of rows that fit their fields, another comes
/// only where offsets of 32 bits can't count what a column holds.
pub(crate) fn in_memory<T: Drop>(answer: Result<T>) -> Result<T>
    ensures { MatchResult answer (λ value. result ≡ Ok value) (λ _. result ≡ Err OutOfMemory) }
{
    match answer {
        Ok(value) => Ok(value),
        Err(_) => Err(Error::OutOfMemory),
    }
}

/// The sum. `OutOfMemory` where 128 bits can't hold it.
pub(crate) fn add(sum: u128, more: u128) -> Result<u128>
    ensures sum { IfOk result (λ all. all ≡ sum + more) }
    ensures memory { OnlyOutOfMemory result }
{
    match sum.checked_add(more) {
        Some(all) => Ok(all),
        None => Err(Error::OutOfMemory),
    }
}
