//! Calls in place of drops, so that the early ends of the functions that make arrays stay short.
ghost use Rattle.std.specs.Prelude.{◌≡◌, Ok, IfOk};
ghost use Rattle.arrow_core.specs.Errors.{OnlyOutOfMemory};

use arrow_core::{Box, Result};
use std::alloc::Global;

/// Lets go of two values that make no array.
pub(crate) fn drop_both<A: Drop, B: Drop>(_first: A, _second: B) {}

/// Both values, where both are there.
///
/// `OutOfMemory` alone.
pub(crate) fn both<A: Drop, B: Drop>(first: Result<A>, second: Result<B>) -> Result<(A, B)>
    requires first { OnlyOutOfMemory first }
    requires second { OnlyOutOfMemory second }
    ensures first { IfOk result (λ p. first ≡ Ok p.0) }
    ensures second { IfOk result (λ p. second ≡ Ok p.1) }
    ensures memory { OnlyOutOfMemory result }
{
    let first = first?;
    let second = second?;
    Ok((first, second))
}

/// A value, where it is there, beside two others.
///
/// `OutOfMemory` alone.
pub(crate) fn beside<A: Drop, B: Drop, C: Drop>(
    first: Result<A>,
    second: B,
    third: C,
) -> Result<(A, B, C)>
    requires { OnlyOutOfMemory first }
    ensures first { IfOk result (λ p. first ≡ Ok p.0) }
    ensures second { IfOk result (λ p. p.1 ≡ second) }
    ensures third { IfOk result (λ p. p.2 ≡ third) }
    ensures memory { OnlyOutOfMemory result }
{
    let first = first?;
    Ok((first, second, third))
}

/// A value, where it is there, in memory of its own.
///
/// `OutOfMemory` alone.
pub(crate) fn boxed<T: Drop>(alloc: Global, value: Result<T>) -> Result<Box<T>>
    requires { OnlyOutOfMemory value }
    ensures value { IfOk result (λ b. value ≡ Ok b) }
    ensures memory { OnlyOutOfMemory result }
{
    Box::new(alloc, value?)
}
